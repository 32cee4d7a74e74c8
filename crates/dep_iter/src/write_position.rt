//! A walk over the write-backs of a task, from one to the next.

ghost use Rattle.std.specs.Prelude.{◌≡◌, ◌+◌, ◌≤◌, ◌∷◌, [], ℤ, length, List, MatchOption};
ghost use Rattle.std.specs.Iterator.{YieldsFirst};
ghost use Rattle.std.specs.List.{list_all};
ghost use Rattle.ptg_base.specs.Limits.{most_flows};
ghost use Rattle.ptg_base.specs.Task.{Task};
ghost use Rattle.ptg_base.specs.declared.edge.WriteBack.{WriteBack as WriteBackValue};
ghost use Rattle.dep_iter.specs.Writing as writing;
ghost use Rattle.dep_iter.specs.Writing.{writes_by, writes_left, writes_of_flows};

use crate::guard::held_target;
use crate::place::place_of;
use plan_core::{DepPlan, FlowPlan, Target};
use ptg_base::{Place, TaskId, WriteBack};

/// The position of a walk over the write-backs of a task.
#[derive(Clone, Copy)]
pub struct WritePosition<'a> {
    /// The number of the flow at hand.
    pub flow: u8,
    /// Its out dependences that are left.
    pub deps: &'a [DepPlan],
    /// The number of the flow after it.
    pub next_flow: u8,
    /// The flows after it.
    pub flows: &'a [FlowPlan],
}

// Whether a target is a place.
fn is_place(target: &Target) -> bool
    ensures { result ≡ writing.is_place target.now }
{
    match target {
        Target::Task(_, _, _) => false,
        Target::Element(_, _) => true,
        Target::New => false,
        Target::Null => false,
    }
}

// Whether a target of a dependence is a place.
fn names_place(d: &DepPlan) -> bool
    ensures { result ≡ writing.names_place d.now }
{
    if is_place(&d.yes) {
        return true;
    }
    match &d.no {
        Some(target) => is_place(target),
        None => false,
    }
}

// Whether none of these dependences names a place.
fn name_no_place(deps: &[DepPlan]) -> bool
    ensures { result ≡ list_all writing.names_no_place deps.now }
{
    match deps.split_first() {
        Some((d, others)) => !names_place(d) && name_no_place(others),
        None => true,
    }
}

// Whether no out dependence of these flows names a place. Then the flows have no write-backs.
fn write_nothing(flows: &[FlowPlan]) -> bool
    ensures { result ≡ list_all writing.writes_nothing flows.now }
{
    match flows.split_first() {
        Some((flow, others)) => name_no_place(flow.outs.as_slice()) && write_nothing(others),
        None => true,
    }
}

// The start of a walk over the write-backs of a task with these flows. No flows are walked if no out dependence names a
// place.
#[tactic(auto, using(crate::proofs::Writing::no_writes))]
pub(crate) fn start_writes<'a>(flows: &'a [FlowPlan]) -> WritePosition<'a>
    requires { length flows.now ≤ most_flows }
    ensures writes { (t : Task) (env : List ℤ) → writes_left t env result ≡ writes_of_flows t env 0 flows.now }
    ensures room { result.next_flow + length result.flows.now ≤ most_flows }
{
    WritePosition {
        flow: 0,
        deps: &[],
        next_flow: 0,
        flows: if write_nothing(flows) {
            &flows[..0]
        } else {
            flows
        },
    }
}

// The place that a target names under these locals, if it is a place.
fn place_named(target: &Target, env: &[i64]) -> Option<Place>
    ensures { result ≡ writing.place_named env.now target.now }
{
    match target {
        Target::Task(_, _, _) => None,
        Target::Element(coll, indices) => Some(place_of(*coll, indices.as_slice(), env)),
        Target::New => None,
        Target::Null => None,
    }
}

// The place that a dependence names under these locals, if it holds. If no target of it is a place, its guard is not
// evaluated.
#[tactic(auto, using(crate::proofs::Writing::no_place_held))]
fn place_held(d: &DepPlan, env: &[i64]) -> Option<Place>
    ensures { result ≡ writing.place_held d.now env.now }
{
    if !names_place(d) {
        return None;
    }
    match held_target(d, env) {
        Some(target) => place_named(target, env),
        None => None,
    }
}

// The first write-back of flow `n` of a task by these out dependences under its locals, and the dependences after it.
#[tactic(auto, using(crate::proofs::Writing::written_some, crate::proofs::Writing::written_none))]
fn next_written<'a>(
    t: &TaskId,
    env: &[i64],
    n: u8,
    deps: &'a [DepPlan],
) -> Option<(WriteBack, &'a [DepPlan])>
    ensures { MatchOption result (writes_by t.now env.now n deps.now ≡ []) (λ r.
        writes_by t.now env.now n deps.now ≡ r.0 ∷ writes_by t.now env.now n r.1.now) }
{
    let (d, later) = deps.split_first()?;
    match place_held(d, env) {
        Some(place) => Some((
            WriteBack {
                from: t.copy(),
                flow: n,
                place,
            },
            later,
        )),
        None => next_written(t, env, n, later),
    }
}

// The next write-back of a walk over a task's write-backs, under its locals.
pub(crate) fn next_write<'a>(
    t: &TaskId,
    env: &[i64],
    p: &mut WritePosition<'a>,
) -> Option<WriteBack>
    requires { p.old.next_flow + length p.old.flows.now ≤ most_flows }
    ensures found { YieldsFirst (λ (left : List WriteBackValue). left)
        (writes_left t.now env.now p.old) result (writes_left t.now env.now p.new) }
    ensures room { p.new.next_flow + length p.new.flows.now ≤ most_flows }
{
    let at = *p;
    if let Some((write, later)) = next_written(t, env, at.flow, at.deps) {
        *p = WritePosition { deps: later, ..at };
        return Some(write);
    }
    let (flow, others) = at.flows.split_first()?;
    *p = WritePosition {
        flow: at.next_flow,
        deps: flow.outs.as_slice(),
        next_flow: at.next_flow + 1,
        flows: others,
    };
    next_write(t, env, p)
}
