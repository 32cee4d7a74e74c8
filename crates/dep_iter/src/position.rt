//! A walk over the active targets of a task in one direction, from one to the next.

ghost use Rattle.std.specs.Prelude.{◌≡◌, ◌+◌, ◌<◌, ◌≤◌, [], ◌∷◌, ℤ, List, length, IfSome, IsTrue, MatchOption, ◌&&◌};
ghost use Rattle.ptg_base.specs.Limits.{most_flows};
ghost use Rattle.term_core.specs.declared.direction.Direction.{Direction as DirectionValue};
ghost use Rattle.plan_core.specs.declared.plan.Plan.{Plan};
ghost use Rattle.dep_iter.specs.Active.{by_flow, flow_targets, held_targets};
ghost use Rattle.dep_iter.specs.Links.{dependences_fit, fits, flows_fit};
ghost use Rattle.dep_iter.specs.Walking.{position_fits, targets_left};

use crate::guard::held_target;
use plan_core::{DepPlan, FlowPlan, Target};
use term_core::Direction;

/// The position of a walk over the active targets of a task.
#[derive(Clone, Copy)]
pub struct Position<'a> {
    /// The number of the flow at hand.
    pub flow: u8,
    /// Whether only the first of its dependences that holds counts.
    pub first_only: bool,
    /// Its dependences that are left.
    pub deps: &'a [DepPlan],
    /// The number of the flow after it.
    pub next_flow: u8,
    /// The flows after it.
    pub flows: &'a [FlowPlan],
}

// The start of a walk over these flows.
pub(crate) fn start<'a>(flows: &'a [FlowPlan]) -> Position<'a>
    requires { length flows.now ≤ most_flows }
    ensures targets { (direction : DirectionValue) (env : List ℤ)
        → targets_left direction env result ≡ by_flow (flow_targets direction env) 0 flows.now }
    ensures room { result.next_flow + length result.flows.now ≤ most_flows }
    ensures fits { (P : Plan) → IsTrue (flows_fit P flows.now) → IsTrue (position_fits P result) }
{
    Position {
        flow: 0,
        first_only: false,
        deps: &[],
        next_flow: 0,
        flows,
    }
}

// The target of the first of these dependences that holds, and the dependences after it that count.
pub(crate) fn next_held<'a>(
    first_only: bool,
    deps: &'a [DepPlan],
    env: &[i64],
) -> Option<(&'a Target, &'a [DepPlan])>
    ensures found { MatchOption result (held_targets first_only deps.now env.now ≡ []) (λ r.
        held_targets first_only deps.now env.now ≡ r.0.now ∷ held_targets first_only r.1.now env.now) }
    ensures fits { (P : Plan) → IsTrue (dependences_fit P deps.now)
        → IfSome result (λ (target, left). IsTrue (fits P target.now) × IsTrue (dependences_fit P left.now)) }
{
    let (d, later) = deps.split_first()?;
    match held_target(d, env) {
        Some(target) => Some((target, if first_only { &later[..0] } else { later })),
        None => next_held(first_only, later, env),
    }
}

// Moves a walk to its next flow, after which these flows come.
fn enter<'a>(direction: Direction, flow: &'a FlowPlan, others: &'a [FlowPlan], p: &mut Position<'a>)
    requires { p.old.next_flow < most_flows }
    ensures flow { p.new.flow ≡ p.old.next_flow }
    ensures next { p.new.next_flow ≡ p.old.next_flow + 1 }
    ensures flows { p.new.flows.now ≡ others.now }
    ensures targets { (env : List ℤ)
        → held_targets p.new.first_only p.new.deps.now env ≡ flow_targets direction env flow.now }
    ensures fits { (P : Plan) → IsTrue (dependences_fit P flow.now.ins && dependences_fit P flow.now.outs)
        → IsTrue (dependences_fit P p.new.deps.now) }
{
    p.flow = p.next_flow;
    p.first_only = flow.kind.first_only(direction);
    p.deps = flow.dependences(direction);
    p.next_flow += 1;
    p.flows = others;
}

// Returns the next active target of a walk in one direction, under these locals, and moves the walk past it.
pub(crate) fn next_target<'a>(
    direction: Direction,
    env: &[i64],
    p: &mut Position<'a>,
) -> Option<&'a Target>
    requires { p.old.next_flow + length p.old.flows.now ≤ most_flows }
    ensures found { MatchOption result
        ((targets_left direction env.now p.old ≡ []) × (targets_left direction env.now p.new ≡ []))
        (λ target. targets_left direction env.now p.old
        ≡ (p.new.flow, target.now) ∷ targets_left direction env.now p.new) }
    ensures room { p.new.next_flow + length p.new.flows.now ≤ most_flows }
    ensures fits { (P : Plan) → IsTrue (position_fits P p.old)
        → IsTrue (position_fits P p.new) × IfSome result (λ target. IsTrue (fits P target.now)) }
{
    if let Some((target, later)) = next_held(p.first_only, p.deps, env) {
        p.deps = later;
        return Some(target);
    }
    let (flow, others) = p.flows.split_first()?;
    enter(direction, flow, others, p);
    next_target(direction, env, p)
}
