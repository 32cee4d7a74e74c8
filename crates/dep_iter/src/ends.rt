//! Whether the task at the other end of an edge has the edge too.

ghost use Rattle.std.specs.Prelude.{◌↔◌, IsTrue};
ghost use Rattle.dep_iter.specs.Directions.{HasOtherEnd};

use crate::lent::LentEdge;
use crate::task_at::TaskAt;
use plan_core::Plan;
use range_space::Numbers;
use term_core::Direction;

/// Whether the task at the other end of an edge has the edge too. For `In` it must be an edge out of its source, and
/// for `Out` an edge into its target. False if the job has no such task.
pub fn has_other_end(plan: &Plan, direction: Direction, edge: &LentEdge) -> bool
    ensures { IsTrue result ↔ HasOtherEnd direction plan.now edge.now }
{
    let mut room = Numbers::new();
    match TaskAt::find(plan, edge.far_task(direction), &mut room) {
        Some(far) => far.has_edge(direction.opposite(), edge),
        None => false,
    }
}
