//! Whether an edge into a task is an edge out of its source.

ghost use Rattle.std.specs.Bool.{OnTrue};
ghost use Rattle.edge_match.specs.Flows.{IsSent};

use dep_iter::{LentEdge, TaskAt, has_edge_before};
use plan_core::Plan;
use range_space::Numbers;
use term_core::Direction;

// Whether the edge comes from a task of the job, and is among the edges out of that task. All out dependences of its flow
// are asked.
pub(crate) fn is_sent(plan: &Plan, edge: &LentEdge) -> bool
    ensures { OnTrue result (IsSent plan.now edge.now) }
{
    let mut room = Numbers::new();
    let Some(from) = TaskAt::find(plan, edge.near_task(Direction::Out), &mut room) else {
        return false;
    };
    let Some(flow) = from.flow(edge.near_flow(Direction::Out)) else {
        return false;
    };
    let all = flow.outs.as_slice().len();
    has_edge_before(flow, Direction::Out, from.locals, edge, all)
}
