//! Laws of the event machine: whatever events happen, it agrees with the backward meaning.

ghost use Rattle.std.specs.Prelude.{◌≡◌, ◌≢◌, ◌↔◌, ◌+◌, List, IsSome, IsTrue};
ghost use Rattle.ptg_base.specs.Lists.{IsIn};
ghost use Rattle.ptg_base.specs.Task.{Task};
ghost use Rattle.ptg_base.specs.TaskComparing.{same_task};
ghost use Rattle.ptg_base.specs.declared.edge.Edge.{Edge};
ghost use Rattle.ptg_base.specs.declared.edge.WriteBack.{WriteBack};
ghost use Rattle.ptg_base.specs.declared.edge.Item.{Item};
ghost use Rattle.ptg_base.specs.declared.edge.Item.TheVariants as item;
ghost use Rattle.plan_core.specs.declared.plan.Plan.{Plan};
ghost use Rattle.coll_data.specs.Data.{Data};
ghost use Rattle.dep_iter.specs.Tasks.{IsTask};
ghost use Rattle.dep_iter.specs.Items.{items};
ghost use Rattle.dep_iter.specs.Consistent.{IsConsistent};
ghost use Rattle.list_lemmas.specs.Counting.{HasSameMembers, HaveSameCounts};
ghost use Rattle.flow_meaning.specs.Starting.{delivered_tiles};
ghost use Rattle.flow_meaning.specs.Ending.{has_outputs, output_tile};
ghost use Rattle.flow_meaning.specs.Backward.{ended, inputs};
ghost use Rattle.flow_meaning.specs.Answer.{answer, ran, trapped, waiting};
ghost use Rattle.flow_meaning.specs.Machine.{Event, MaySend, Send, arrived, Happen, IsPossible, IsQuiescent, MachineState, state_after, end_in, is_sent, opening_state, SentItem, same_sent_item, sender, sent_tile};
ghost use Rattle.flow_meaning.specs.Sound.{IsAtRest, HasAllArrived, IsReordered, IsSoundState};
ghost use Rattle.flow_meaning.specs.StateAnswer.{state_answer, state_traps};
ghost use Rattle.flow_meaning.specs.Table.{table_entry, waiting_rows};

/// A law: the opening state is sound, and every list of possible events leads from a sound state to a sound state. So
/// no task is claimed twice, and no item is sent twice.
pub fn events_keep_states_sound()
    ensures opening { (P : Plan) (G : Data) → IsSoundState P G opening_state }
    ensures event { (P : Plan) (G : Data) (S : MachineState) (e : Event) → IsConsistent P → IsSoundState P G S
        → IsPossible P G S e → IsSoundState P G (state_after P G S e) }
    ensures events { (P : Plan) (G : Data) (es : List Event) (S T : MachineState) → IsConsistent P → IsSoundState P G S
        → Happen P G es S T → IsSoundState P G T }
{}

/// A law: in a sound state, once all edges into a task were sent, the tiles that were sent to it are its inputs. This
/// is so for every claimed task. On these tiles the task ends as the backward meaning says.
pub fn tasks_have_their_inputs()
    ensures inputs { (P : Plan) (G : Data) (S : MachineState) (t : Task) → IsConsistent P → IsSoundState P G S
        → HasAllArrived P S t → delivered_tiles P (sent_tile S.sends) t ≡ inputs P G t }
    ensures end { (P : Plan) (G : Data) (S : MachineState) (t : Task) → IsConsistent P → IsSoundState P G S
        → HasAllArrived P S t → ended P G t ≡ end_in P G S t }
    ensures runs { (P : Plan) (G : Data) (S : MachineState) (t : Task) → IsConsistent P → IsSoundState P G S
        → HasAllArrived P S t → IsSome (ended P G t) }
{}

/// A law: a send of an edge is one more arrival at the edge's target, and changes the arrivals of no other task. A send
/// of a write-back changes none. The edge delivers what its source leaves in its flow, and other edges deliver what
/// they did before.
pub fn an_edge_arrives_at_its_target()
    ensures target { (P : Plan) (G : Data) (S : MachineState) (e : Edge) → IsConsistent P → IsSoundState P G S
        → MaySend P G S (item.Edge e) → arrived P (state_after P G S (Send (item.Edge e))) e.to ≡ arrived P S e.to + 1 }
    ensures others { (P : Plan) (G : Data) (S : MachineState) (e : Edge) (t : Task) → IsConsistent P
        → IsSoundState P G S → MaySend P G S (item.Edge e) → t ≢ e.to
        → arrived P (state_after P G S (Send (item.Edge e))) t ≡ arrived P S t }
    ensures writes { (P : Plan) (G : Data) (S : MachineState) (w : WriteBack) (t : Task) → IsConsistent P
        → IsSoundState P G S → MaySend P G S (item.Write w)
        → arrived P (state_after P G S (Send (item.Write w))) t ≡ arrived P S t }
    ensures tile { (P : Plan) (G : Data) (S : MachineState) (e : Edge) → MaySend P G S (item.Edge e)
        → sent_tile (state_after P G S (Send (item.Edge e))).sends e ≡ output_tile (end_in P G S e.from) e.out_flow }
    ensures tiles { (P : Plan) (G : Data) (S : MachineState) (i : Item) (d : Edge) → i ≢ item.Edge d
        → sent_tile (state_after P G S (Send i)).sends d ≡ sent_tile S.sends d }
{}

/// A law: a sound state is quiescent if and only if it is at rest. At rest, no task may be claimed, and each claimed
/// task traps or has sent all its items.
pub fn quiescent_states_are_at_rest()
    ensures { (P : Plan) (G : Data) (S : MachineState) → IsConsistent P → IsSoundState P G S
        → IsQuiescent P G S ↔ IsAtRest P G S }
{}

/// A law: in a quiescent sound state, the claimed tasks are those that run, each once. The items that were sent are
/// those of the tasks that have outputs. The tasks that wait, those that trap and the answer are those of the backward
/// meaning.
pub fn a_quiescent_state_has_the_meaning()
    ensures claims { (P : Plan) (G : Data) (S : MachineState) → IsConsistent P → IsSoundState P G S → IsQuiescent P G S
        → HasSameMembers S.claims (ran P G) }
    ensures sends { (P : Plan) (G : Data) (S : MachineState) (i : Item) → IsConsistent P → IsSoundState P G S
        → IsQuiescent P G S → IsTask P (sender i)
        → IsTrue (is_sent S i) ↔ (IsIn i (items P (sender i)) × IsTrue (has_outputs (ended P G (sender i)))) }
    ensures waits { (P : Plan) (G : Data) (S : MachineState) → IsConsistent P → IsSoundState P G S → IsQuiescent P G S
        → waiting P G ≡ waiting_rows P S }
    ensures traps { (P : Plan) (G : Data) (S : MachineState) → IsConsistent P → IsSoundState P G S → IsQuiescent P G S
        → trapped P G ≡ state_traps P G S }
    ensures answer { (P : Plan) (G : Data) (S : MachineState) → IsConsistent P → IsSoundState P G S → IsQuiescent P G S
        → answer P G ≡ state_answer P G S }
{}

/// A law: the order in which tasks were claimed and items sent does not matter. A reordered sound state is sound, the
/// same events are possible in it, and a table holds the same.
pub fn order_does_not_matter()
    ensures sound { (P : Plan) (G : Data) (S T : MachineState) → IsSoundState P G S → IsReordered S T
        → IsSoundState P G T }
    ensures possible { (P : Plan) (G : Data) (S T : MachineState) (e : Event) → IsConsistent P → IsSoundState P G S
        → IsReordered S T → IsPossible P G S e → IsPossible P G T e }
    ensures quiescent { (P : Plan) (G : Data) (S T : MachineState) → IsConsistent P → IsSoundState P G S
        → IsReordered S T → IsQuiescent P G S → IsQuiescent P G T }
    ensures table { (P : Plan) (G : Data) (S T : MachineState) (t : Task) → IsConsistent P → IsSoundState P G S
        → IsReordered S T → table_entry P S t ≡ table_entry P T t }
{}

/// A law: two lists of tasks have the same members, each as often, if and only if each task occurs equally often in
/// both. Likewise two lists of sent items.
pub fn the_same_members_are_the_same_counts()
    ensures claims { (xs ys : List Task) → HasSameMembers xs ys ↔ HaveSameCounts same_task xs ys }
    ensures sends { (xs ys : List SentItem) → HasSameMembers xs ys ↔ HaveSameCounts same_sent_item xs ys }
{}
