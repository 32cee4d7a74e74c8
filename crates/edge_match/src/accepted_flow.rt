//! A flow of a task.

ghost use Rattle.std.specs.Prelude.{◌≡◌, ◌&&◌, [], IsTrue, Some, slice_get};
ghost use Rattle.dep_iter.specs.Tasks.{flows_of};
ghost use Rattle.dep_iter.specs.Links.{dependences_fit};
ghost use Rattle.edge_match.specs.Flows.{items_of_flow};

use dep_iter::TaskAt;
use plan_core::FlowPlan;

/// A flow of a task of the job.
#[derive(Drop)]
pub(crate) struct FlowAt<'a> {
    pub(crate) task: &'a TaskAt<'a>,
    pub(crate) number: u8,
    pub(crate) flow: &'a FlowPlan,
    pub(crate) sends_nothing: bool,
    pub(crate) ghost here: { slice_get (flows_of task.now.plan.now task.now.task.now) number ≡ Some flow.now },
    pub(crate) ghost fit: { IsTrue
        (dependences_fit task.now.plan.now flow.now.ins && dependences_fit task.now.plan.now flow.now.outs) },
    pub(crate) ghost nothing: { IsTrue sends_nothing
        → items_of_flow task.now.task.now task.now.locals.now number flow.now ≡ [] },
}
