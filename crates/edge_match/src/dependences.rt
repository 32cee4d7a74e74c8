//! Checks of the dependences of a flow in one direction, and of the edges that each stands for.

ghost use Rattle.std.specs.Prelude.{IsTrue};
ghost use Rattle.dep_iter.specs.Links.{fits};
ghost use Rattle.edge_match.specs.FlowParts.{CheckedAt, before_at, marks_from, plan_of, task_of, env_of};
ghost use Rattle.edge_match.specs.Marks.{item_marks, items_at};

use crate::counted::Counted;
use crate::edges::{check_edge, check_write};
use crate::fault::MatchFault;
use crate::flow_at::FlowAt;
use dep_iter::{
    Combinations, LentEdge, arguments_at_most, edges_of_a_dependence_differ, held_target, place_of,
};
use plan_core::Target;
use ptg_base::TaskId;
use term_core::Direction;

// Checks what a target of dependence `k` of the flow stands for. An in dependence writes nothing.
fn check_target(
    at: &FlowAt,
    direction: Direction,
    k: usize,
    target: &Target,
    counted: &mut Counted,
) -> Result<(), MatchFault>
    requires { IsTrue (fits (plan_of at.now) target.now) }
    ensures { CheckedAt at.now.phase at.now counted.old counted.new result
        (item_marks direction (before_at direction at.now k)
        (items_at direction (task_of at.now) (env_of at.now) at.now.number target.now)) }
{
    match target {
        Target::Task(class, flow, args) => {
            edges_of_a_dependence_differ();
            let args = args.as_slice();
            arguments_at_most(at.task.plan, *class, *flow, args);
            let mut params = Combinations::new(args, at.task.locals);
            while let Some(values) = params.next() {
                let far = TaskId::new(*class, values.as_slice());
                let edge = LentEdge::between(direction, at.task.task, at.number, &far, *flow);
                check_edge(at, direction, k, &edge, counted)?;
            }
            Ok(())
        }
        Target::Element(coll, indices) => match direction {
            Direction::In => Ok(()),
            Direction::Out => check_write(
                at,
                place_of(*coll, indices.as_slice(), at.task.locals),
                counted,
            ),
        },
        Target::New => Ok(()),
        Target::Null => Ok(()),
    }
}

// Checks what the dependences of the flow from number `k` on stand for.
pub(crate) fn check_dependences(
    at: &FlowAt,
    direction: Direction,
    k: usize,
    counted: &mut Counted,
) -> Result<(), MatchFault>
    ensures { CheckedAt at.now.phase at.now counted.old counted.new result (marks_from direction at.now k) }
{
    let Some(d) = at.flow.dependences(direction).get(k) else {
        return Ok(());
    };
    let Some(target) = held_target(d, at.task.locals) else {
        return check_dependences(at, direction, k + 1, counted);
    };
    check_target(at, direction, k, target, counted)?;
    if at.flow.kind.first_only(direction) {
        return Ok(());
    }
    check_dependences(at, direction, k + 1, counted)
}
