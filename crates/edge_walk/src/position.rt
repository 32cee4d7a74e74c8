//! A walk over the active dependences of a task, from one to the next.

ghost use Rattle.std.specs.Prelude.{ℤ, List, [], ◌∷◌, length, ◌≡◌, ◌+◌, ◌<◌, ◌≤◌, ◌^◌, ◌&&◌};
ghost use Rattle.std.specs.Prelude.{IfSome, IsTrue, MatchOption};
ghost use Rattle.ptg_base.specs.Limits.{most_flows};
ghost use Rattle.term_core.specs.declared.direction.Direction.{Direction as DirectionValue};
ghost use Rattle.plan_core.specs.declared.plan.Plan.{Plan};
ghost use Rattle.dep_iter.specs.Links.{dependences_fit, fits, flows_fit};
ghost use Rattle.edge_walk.specs.Ties.{active_from, numbered_flow, numbered_targets};
ghost use Rattle.edge_walk.specs.Walking.{position_fits, left};

use dep_iter::held_target;
use plan_core::{DepPlan, FlowPlan, Target};
use term_core::Direction;

/// The position of a walk over the active dependences of a task.
#[derive(Clone, Copy)]
pub struct Position<'a> {
    /// The number of the flow at hand.
    pub flow: u8,
    /// Whether only the first of its dependences that holds counts.
    pub first_only: bool,
    /// The number of the first of its dependences left.
    pub dependence: usize,
    /// Its dependences that are left.
    pub deps: &'a [DepPlan],
    /// The number of the flow after it.
    pub next_flow: u8,
    /// The flows after it.
    pub flows: &'a [FlowPlan],
}

/// An active dependence, and the position of a walk after it.
#[derive(Clone, Copy)]
pub struct Active<'a> {
    /// Its number.
    pub dependence: usize,
    /// What it names.
    pub target: &'a Target,
    /// The position of the walk after it.
    pub after: Position<'a>,
}

/// A dependence that holds, and those after it that still count.
#[derive(Clone, Copy)]
pub struct Held<'a> {
    pub dependence: usize,
    pub target: &'a Target,
    pub later: &'a [DepPlan],
}

// The start of a walk over these flows.
pub(crate) fn start<'a>(flows: &'a [FlowPlan]) -> Position<'a>
    requires { length flows.now ≤ most_flows }
    ensures targets { (direction : DirectionValue) (env : List ℤ)
        → left direction env result ≡ active_from direction env 0 flows.now }
    ensures room { result.next_flow + length result.flows.now ≤ most_flows }
    ensures count { result.dependence + length result.deps.now < 2 ^ 64 }
    ensures fits { (P : Plan) → IsTrue (flows_fit P flows.now) → IsTrue (position_fits P result) }
{
    Position {
        flow: 0,
        first_only: false,
        dependence: 0,
        deps: &[],
        next_flow: 0,
        flows,
    }
}

// The first of these dependences that holds; they are numbered from `k` on.
fn next_held<'a>(first_only: bool, k: usize, deps: &'a [DepPlan], env: &[i64]) -> Option<Held<'a>>
    requires { k + length deps.now < 2 ^ 64 }
    ensures found { MatchOption result (numbered_targets first_only k deps.now env.now ≡ [])
        (λ r. numbered_targets first_only k deps.now env.now
        ≡ (r.dependence, r.target.now) ∷ numbered_targets first_only (r.dependence + 1) r.later.now env.now) }
    ensures count { IfSome result (λ r. r.dependence + 1 + length r.later.now < 2 ^ 64) }
    ensures fits { (P : Plan) → IsTrue (dependences_fit P deps.now)
        → IfSome result (λ r. IsTrue (fits P r.target.now) × IsTrue (dependences_fit P r.later.now)) }
{
    let (d, later) = deps.split_first()?;
    match held_target(d, env) {
        Some(target) => Some(Held {
            dependence: k,
            target,
            later: if first_only { &later[..0] } else { later },
        }),
        None => next_held(first_only, k + 1, later, env),
    }
}

// A law: the number of dependences fits 64 bits.
fn count_fits(deps: &[DepPlan])
    ensures { length deps.now < 2 ^ 64 }
{
    let _ = deps.len();
}

// The position of a walk that enters a flow, with the flows after it.
fn enter<'a>(
    direction: Direction,
    flow: &'a FlowPlan,
    number: u8,
    others: &'a [FlowPlan],
) -> Position<'a>
    requires { number < most_flows }
    ensures flow { result.flow ≡ number }
    ensures next { result.next_flow ≡ number + 1 }
    ensures flows { result.flows.now ≡ others.now }
    ensures targets { (env : List ℤ)
        → numbered_targets result.first_only result.dependence result.deps.now env
        ≡ numbered_flow direction env flow.now }
    ensures count { result.dependence + length result.deps.now < 2 ^ 64 }
    ensures fits { (P : Plan) → IsTrue (dependences_fit P flow.now.ins && dependences_fit P flow.now.outs)
        → IsTrue (dependences_fit P result.deps.now) }
{
    let deps = flow.dependences(direction);
    count_fits(deps);
    Position {
        flow: number,
        first_only: flow.kind.first_only(direction),
        dependence: 0,
        deps,
        next_flow: number + 1,
        flows: others,
    }
}

// The next active dependence of a walk in one direction, under these locals, and the position of the walk after it.
pub(crate) fn next_active<'a>(
    direction: Direction,
    env: &[i64],
    p: Position<'a>,
) -> Option<Active<'a>>
    requires room { p.next_flow + length p.flows.now ≤ most_flows }
    requires count { p.dependence + length p.deps.now < 2 ^ 64 }
    ensures found { MatchOption result (left direction env.now p.entry ≡ [])
        (λ r. left direction env.now p.entry
        ≡ record { flow = r.after.flow; dependence = r.dependence; target = r.target.now }
        ∷ left direction env.now r.after) }
    ensures room { IfSome result (λ r. r.after.next_flow + length r.after.flows.now ≤ most_flows) }
    ensures count { IfSome result (λ r. r.after.dependence + length r.after.deps.now < 2 ^ 64) }
    ensures fits { (P : Plan) → IsTrue (position_fits P p.entry)
        → IfSome result (λ r. IsTrue (fits P r.target.now) × IsTrue (position_fits P r.after)) }
{
    if let Some(held) = next_held(p.first_only, p.dependence, p.deps, env) {
        return Some(Active {
            dependence: held.dependence,
            target: held.target,
            after: Position {
                dependence: held.dependence + 1,
                deps: held.later,
                ..p
            },
        });
    }
    let (flow, others) = p.flows.split_first()?;
    next_active(direction, env, enter(direction, flow, p.next_flow, others))
}
