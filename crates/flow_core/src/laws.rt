//! Laws of runs: each call is an event of the machine, or none; an edge of a CTL flow carries no tile.

ghost use Rattle.std.specs.Prelude.{◌≡◌, IsFalse, None, Some, slice_get};
ghost use Rattle.ptg_base.specs.Lists.{IsIn};
ghost use Rattle.ptg_base.specs.Task.{Task};
ghost use Rattle.ptg_base.specs.declared.edge.Item.{Item};
ghost use Rattle.plan_core.specs.declared.plan.Plan.{Plan};
ghost use Rattle.plan_core.specs.declared.flow.FlowPlan.{FlowPlan};
ghost use Rattle.plan_core.specs.Kinds.{is_data};
ghost use Rattle.coll_data.specs.Data.{Data};
ghost use Rattle.coll_data.specs.WellMade.{IsWellMade};
ghost use Rattle.plan_data.specs.Fit.{DataFit};
ghost use Rattle.dep_iter.specs.Items.{item_flow};
ghost use Rattle.dep_iter.specs.Tasks.{flows_of};
ghost use Rattle.dep_iter.specs.Consistent.{IsConsistent};
ghost use Rattle.flow_meaning.specs.Ending.{Ended};
ghost use Rattle.flow_meaning.specs.Machine.{Claim, Send, SentItem, sender, state_after};
ghost use Rattle.flow_core.specs.RunState.{RunState, machine, with_claim, with_end, with_send};
ghost use Rattle.flow_core.specs.Fits.{Fits, MaySendNow};

/// A law: a claim and a send are events of the machine; the end of a task is no event.
pub fn calls_are_events()
    ensures claim { (P : Plan) (G : Data) (r : RunState) (t : Task)
        → machine (with_claim t r) ≡ state_after P G (machine r) (Claim t) }
    ensures end { (r : RunState) (t : Task) (end : Ended) → machine (with_end t end r) ≡ machine r }
    ensures send { (P : Plan) (G : Data) (r : RunState) (i : Item) → IsConsistent P → Fits P G r → MaySendNow P G r i
        → machine (with_send i r) ≡ state_after P G (machine r) (Send i) }
{}

/// A law: an item of a CTL flow is sent without a tile.
pub fn items_of_ctl_flows_carry_no_tile()
    ensures { (P : Plan) (G : Data) (r : RunState) (x : SentItem) (f : FlowPlan) → IsConsistent P
        → DataFit P G → IsWellMade G → Fits P G r → IsIn x r.sends
        → slice_get (flows_of P (sender x.item)) (item_flow x.item) ≡ Some f → IsFalse (is_data (Some f.kind))
        → x.tile ≡ None }
{}
