//! Laws of claims and table entries, of reached states and their order, and of the sizes of the tiles that tasks leave.

ghost use Rattle.std.specs.Prelude.{◌≡◌, ◌≢◌, ℕ, ℤ, IsTrue, List, None, Ok, Option, Some, length, option_map, slice_get, slice_index};
ghost use Rattle.ptg_base.specs.Lists.{IsIn};
ghost use Rattle.ptg_base.specs.Task.{Task};
ghost use Rattle.ptg_base.specs.declared.edge.Item.{Item};
ghost use Rattle.body_eval.specs.Sizes.{size_of};
ghost use Rattle.plan_core.specs.declared.flow.FlowPlan.{FlowPlan};
ghost use Rattle.plan_core.specs.declared.plan.Plan.{Plan};
ghost use Rattle.plan_core.specs.Kinds.{is_data};
ghost use Rattle.coll_data.specs.Data.{Data};
ghost use Rattle.coll_data.specs.WellMade.{IsWellMade};
ghost use Rattle.plan_data.specs.Fit.{DataFit};
ghost use Rattle.dep_iter.specs.Consistent.{IsConsistent};
ghost use Rattle.dep_iter.specs.Items.{item_flow, items};
ghost use Rattle.dep_iter.specs.Tasks.{IsTask, flows_of};
ghost use Rattle.flow_meaning.specs.Backward.{ended};
ghost use Rattle.flow_meaning.specs.Ending.{flow_size, has_outputs, output_tile};
ghost use Rattle.flow_meaning.specs.Machine.{Claim, MachineState, MayClaim, state_after, Event, Happen, IsLater, opening_state};
ghost use Rattle.flow_meaning.specs.Sound.{IsReached, IsSoundState};
ghost use Rattle.flow_meaning.specs.Table.{entry_of, table_entry, waiting_rows, written};
ghost use Rattle.flow_meaning.specs.Order.{IsLegalOrder};

/// A law: a task that may be claimed has an entry in the table. A claim removes its task's entry and leaves every other
/// entry as it was. It changes neither the rows of the tasks that wait nor the write-backs that were sent.
pub fn a_claim_takes_its_own_entry()
    ensures there { (P : Plan) (S : MachineState) (t : Task) → MayClaim P S t
        → table_entry P S t ≡ Some (entry_of P S t) }
    ensures taken { (P : Plan) (G : Data) (S : MachineState) (t : Task)
        → table_entry P (state_after P G S (Claim t)) t ≡ None }
    ensures others { (P : Plan) (G : Data) (S : MachineState) (t u : Task) → t ≢ u
        → table_entry P (state_after P G S (Claim t)) u ≡ table_entry P S u }
    ensures waits { (P : Plan) (G : Data) (S : MachineState) (t : Task) → MayClaim P S t
        → waiting_rows P (state_after P G S (Claim t)) ≡ waiting_rows P S }
    ensures writes { (P : Plan) (G : Data) (S : MachineState) (t : Task)
        → written (state_after P G S (Claim t)) ≡ written S }
{}

/// A law: every sound state of a consistent plan is reached by some list of events, up to the order of its two lists.
pub fn sound_states_are_reached()
    ensures { (P : Plan) (G : Data) (S : MachineState) → IsConsistent P → IsSoundState P G S → IsReached P G S }
{}

/// A law: nothing that has happened is undone.
pub fn nothing_is_undone()
    ensures { (P : Plan) (G : Data) (es : List Event) (S T : MachineState) → Happen P G es S T → IsLater S T }
{}

/// A law: the tasks in the order in which they were claimed are a legal order.
pub fn claims_are_a_legal_order()
    ensures { (P : Plan) (G : Data) (es : List Event) (S : MachineState) → IsConsistent P
        → Happen P G es opening_state S → IsLegalOrder P S.claims }
{}

/// A law: a task leaves an entry for each of its flows, and each tile has as many numbers as its flow's type has
/// elements. A CTL flow has no tile, and neither has a flow whose source is `NULL`. Each item of a data flow has a
/// tile.
pub fn tiles_have_the_sizes_of_their_flows()
    ensures places { (P : Plan) (G : Data) (t : Task) (tiles : List (Option (List ℤ))) → IsConsistent P
        → DataFit P G → IsWellMade G → IsTask P t → ended P G t ≡ Some (Ok tiles)
        → length tiles ≡ length (flows_of P t) }
    ensures sizes { (P : Plan) (G : Data) (t : Task) (tiles : List (Option (List ℤ))) (n : ℕ) (f : FlowPlan)
        → IsConsistent P → DataFit P G → IsWellMade G → IsTask P t → ended P G t ≡ Some (Ok tiles)
        → slice_get (flows_of P t) n ≡ Some f → size_of tiles n ≡ flow_size P t n f }
    ensures sent { (P : Plan) (G : Data) (t : Task) (i : Item) (f : FlowPlan) → IsConsistent P
        → DataFit P G → IsWellMade G → IsTask P t → IsTrue (has_outputs (ended P G t))
        → IsIn i (items P t) → slice_get (flows_of P t) (item_flow i) ≡ Some f → IsTrue (is_data (Some f.kind))
        → option_map length (output_tile (ended P G t) (item_flow i)) ≡ Some (slice_index P.elems f.datatype) }
{}
