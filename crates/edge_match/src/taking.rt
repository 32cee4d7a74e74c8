//! The edges into a flow, by its dependences: each is looked up among the edges out of its source, and among the
//! earlier edges into the flow.

ghost use Rattle.std.specs.Prelude.{◌≡◌, ◌↔◌, ◌∷◌, [], IsTrue};
ghost use Rattle.std.specs.Bool.{OnTrue};
ghost use Rattle.ptg_base.specs.Lists.{IsIn};
ghost use Rattle.dep_iter.specs.Edges as edges;
ghost use Rattle.dep_iter.specs.Edges.{in_edges_before};
ghost use Rattle.dep_iter.specs.Links.{fits};
ghost use Rattle.edge_match.specs.Flows.{AreTaken};
ghost use Rattle.edge_match.specs.Tallies.{Takes, TakesFrom, plan_of, task_of};

use crate::accepted_flow::FlowAt;
use crate::ins::Ins;
use crate::sent::is_sent;
use dep_iter::{
    Combinations, LentEdge, arguments_at_most, edges_of_a_dependence_differ, has_edge_before,
    held_target, place_of, push_only,
};
use plan_core::Target;
use ptg_base::TaskId;
use range_space::Numbers;
use term_core::Direction;

// Whether an edge into the flow comes from one of the first `k` dependences. Nothing comes before the first one.
fn is_repeated(at: &FlowAt, k: usize, edge: &LentEdge) -> bool
    requires task { edge.now.to ≡ task_of at.now }
    requires flow { edge.now.in_flow ≡ at.now.number }
    ensures { IsTrue result ↔ IsIn edge.now (in_edges_before (plan_of at.now) (task_of at.now) at.now.number k) }
{
    if k == 0 {
        return false;
    }
    has_edge_before(at.flow, Direction::In, at.task.locals, edge, k)
}

// Counts an edge into the flow that comes from dependence `k`. Returns false if its source does not have it as an out
// edge, if it comes from an earlier dependence too, or if the limit is reached.
fn take_edge(at: &FlowAt, k: usize, edge: &LentEdge, ins: &mut Ins) -> bool
    requires task { edge.now.to ≡ task_of at.now }
    requires flow { edge.now.in_flow ≡ at.now.number }
    ensures { OnTrue result
        (AreTaken (plan_of at.now) (in_edges_before (plan_of at.now) (task_of at.now) at.now.number k) ins.old ins.new
        (edge.now ∷ [])) }
{
    if !is_sent(at.task.plan, edge) {
        return false;
    }
    if is_repeated(at, k, edge) {
        return false;
    }
    ins.add(at.flow.kind.is_data())
}

// Counts the edge from this flow of a task that comes from dependence `k`. Returns false as `take_edge` does.
fn take_link(at: &FlowAt, k: usize, from: &TaskId, out_flow: u8, ins: &mut Ins) -> bool
    ensures { OnTrue result
        (AreTaken (plan_of at.now) (in_edges_before (plan_of at.now) (task_of at.now) at.now.number k) ins.old ins.new
        (edges.edge from.now out_flow (task_of at.now) at.now.number ∷ [])) }
{
    let edge = LentEdge::between(Direction::In, at.task.task, at.number, from, out_flow);
    take_edge(at, k, &edge, ins)
}

// Counts the edges that a target of dependence `k` stands for, one combination of arguments after another. Returns false
// as `take_edge` does, or if the target names no tasks.
fn take_each(at: &FlowAt, k: usize, target: &Target, ins: &mut Ins) -> bool
    requires { IsTrue (fits (plan_of at.now) target.now) }
    ensures { OnTrue result (Takes at.now k ins.old ins.new (target.now ∷ [])) }
{
    let Target::Task(class, flow, args) = target else {
        return false;
    };
    edges_of_a_dependence_differ();
    let args = args.as_slice();
    arguments_at_most(at.task.plan, *class, *flow, args);
    let mut params = Combinations::new(args, at.task.locals);
    while let Some(values) = params.next() {
        let from = TaskId::new(*class, values.as_slice());
        if !take_link(at, k, &from, *flow, ins) {
            return false;
        }
    }
    true
}

// Whether the flow may start from this target of dependence `k`. Counts the edges that the target stands for. If each
// argument is a single expression, the only edge is made without progressions.
fn take_target(at: &FlowAt, k: usize, target: &Target, ins: &mut Ins) -> bool
    requires { IsTrue (fits (plan_of at.now) target.now) }
    ensures { OnTrue result (Takes at.now k ins.old ins.new (target.now ∷ [])) }
{
    match target {
        Target::Task(class, flow, args) => {
            let args = args.as_slice();
            arguments_at_most(at.task.plan, *class, *flow, args);
            let mut values = Numbers::new();
            if push_only(args, at.task.locals, &mut values) {
                let from = TaskId::new(*class, values.as_slice());
                return take_link(at, k, &from, *flow, ins);
            }
            take_each(at, k, target, ins)
        }
        Target::Element(coll, indices) => {
            at.task
                .plan
                .has_place(&place_of(*coll, indices.as_slice(), at.task.locals))
        }
        Target::New => true,
        Target::Null => at.sends_nothing,
    }
}

// Whether the flow may start from its in dependences from number `k` on. In a data flow, none of those before `k`
// holds. Counts the edges that they stand for.
pub(crate) fn take_from(at: &FlowAt, k: usize, ins: &mut Ins) -> bool
    ensures { OnTrue result (TakesFrom at.now k ins.old ins.new) }
{
    let Some(d) = at.flow.ins.as_slice().get(k) else {
        return !at.flow.kind.takes_tile();
    };
    let Some(target) = held_target(d, at.task.locals) else {
        return take_from(at, k + 1, ins);
    };
    if !take_target(at, k, target, ins) {
        return false;
    }
    if at.flow.kind.is_data() {
        return true;
    }
    take_from(at, k + 1, ins)
}
