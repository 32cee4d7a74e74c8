//! A flow of a task, as it is checked.

ghost use Rattle.std.specs.Prelude.{◌≡◌, ◌≢◌, ◌↔◌, ◌&&◌, ◌∷◌, [], IfOk, IsTrue, Some, slice_get};
ghost use Rattle.dep_iter.specs.declared.source.Source.TheVariants as source_variant;
ghost use Rattle.dep_iter.specs.Edges.{data_source};
ghost use Rattle.dep_iter.specs.Links.{dependences_fit};
ghost use Rattle.dep_iter.specs.Tasks.{flows_of};
ghost use Rattle.edge_match.specs.Counted.{Checked, Decides};
ghost use Rattle.edge_match.specs.FirstFault.{code_of};
ghost use Rattle.edge_match.specs.Marks.{Check, mark};
ghost use Rattle.edge_match.specs.declared.counted.Counted.{Counted as CountedValue};

use crate::fault::{MatchCode, MatchFault};
use crate::phase::Phase;
use crate::refusing::require;
use dep_iter::TaskAt;
use plan_core::FlowPlan;

/// A flow of a task, and the phase in which it is checked.
#[derive(Drop)]
pub(crate) struct FlowAt<'a> {
    pub(crate) phase: Phase,
    pub(crate) task: &'a TaskAt<'a>,
    pub(crate) number: u8,
    pub(crate) flow: &'a FlowPlan,
    /// Whether its source is not `NULL`.
    pub(crate) has_tile: bool,
    pub(crate) ghost here: { slice_get (flows_of task.now.plan.now task.now.task.now) number ≡ Some flow.now },
    pub(crate) ghost fit: { IsTrue
        (dependences_fit task.now.plan.now flow.now.ins && dependences_fit task.now.plan.now flow.now.outs) },
    pub(crate) ghost tile: { IsTrue has_tile
        ↔ (data_source task.now.plan.now task.now.task.now number ≢ source_variant.Null) },
}

impl<'a> FlowAt<'a> {
    // Returns an error with this code if a test of the flow does not hold.
    pub(crate) fn require(&self, holds: bool, code: MatchCode) -> Result<(), MatchFault>
        ensures holds { IfOk result (λ _. IsTrue holds) }
        ensures checked { (c : Check) (s u : CountedValue) → Decides self.now.task.now.plan.now s u holds c → code_of c ≡ code
            → Checked self.now.task.now.plan.now s u result (mark self.now.task.now.task.now (Some self.now.number) c ∷ []) }
    {
        require(holds, code, self.task.task, Some(self.number))
    }
}
