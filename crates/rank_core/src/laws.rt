//! Laws of worlds of ranks: whatever the network does, a world is a run of the event machine, and a quiescent one has
//! the answer.

ghost use Rattle.std.specs.Prelude.{◌≡◌, ◌↔◌, ℕ, IsFalse, IsSome, length, map};
ghost use Rattle.ptg_base.specs.Lists.{HasNoRepeats, IsIn};
ghost use Rattle.ptg_base.specs.Task.{Task};
ghost use Rattle.ptg_base.specs.declared.edge.Item.TheVariants as item;
ghost use Rattle.plan_core.specs.declared.plan.Plan.{Plan};
ghost use Rattle.coll_data.specs.Data.{Data};
ghost use Rattle.dep_iter.specs.Consistent.{IsConsistent};
ghost use Rattle.flow_meaning.specs.Answer.{answer, ran};
ghost use Rattle.flow_meaning.specs.Backward.{ended, inputs};
ghost use Rattle.list_lemmas.specs.Counting.{HasSameMembers};
ghost use Rattle.flow_meaning.specs.Ending.{output_tile};
ghost use Rattle.flow_meaning.specs.Machine.{IsQuiescent, MayClaim, MaySend, end_in, sent_tile};
ghost use Rattle.flow_meaning.specs.Starting.{delivered_tiles};
ghost use Rattle.flow_meaning.specs.StateAnswer.{state_answer};
ghost use Rattle.rank_core.specs.declared.message.Message.{Message};
ghost use Rattle.rank_core.specs.World.{IsQuiet, WorldState, is_delivered};
ghost use Rattle.rank_core.specs.Sound.{IsSoundWorld, message_count};

/// A law: the tiles that were delivered to a task that may run, or that ran, are its inputs. On these it ends as the
/// backward meaning says.
pub fn a_task_runs_on_its_inputs()
    ensures now { (P : Plan) (G : Data) (r : ℕ) (w : WorldState) (t : Task) → IsConsistent P → IsSoundWorld P G r w
        → MayClaim P w.machine t → delivered_tiles P (sent_tile w.machine.sends) t ≡ inputs P G t }
    ensures then { (P : Plan) (G : Data) (r : ℕ) (w : WorldState) (t : Task) → IsConsistent P → IsSoundWorld P G r w
        → IsIn t w.machine.claims → delivered_tiles P (sent_tile w.machine.sends) t ≡ inputs P G t }
    ensures end { (P : Plan) (G : Data) (r : ℕ) (w : WorldState) (t : Task) → IsConsistent P → IsSoundWorld P G r w
        → MayClaim P w.machine t → (ended P G t ≡ end_in P G w.machine t) × IsSome (ended P G t) }
{}

/// A law: a sound world is quiescent if and only if its state of the event machine is, that is, if no event is
/// possible.
pub fn quiet_worlds_are_quiescent()
    ensures { (P : Plan) (G : Data) (r : ℕ) (w : WorldState) → IsConsistent P → IsSoundWorld P G r w
        → IsQuiet P w ↔ IsQuiescent P G w.machine }
{}

/// A law: in a quiescent world of any number of ranks, the tasks that ran are those that run, each once, and the answer
/// is the job's. As many messages were sent as there are edges between ranks whose source has outputs.
pub fn a_quiet_world_has_the_meaning()
    ensures claims { (P : Plan) (G : Data) (r : ℕ) (w : WorldState) → IsConsistent P → IsSoundWorld P G r w
        → IsQuiet P w → HasSameMembers w.machine.claims (ran P G) }
    ensures answer { (P : Plan) (G : Data) (r : ℕ) (w : WorldState) → IsConsistent P → IsSoundWorld P G r w
        → IsQuiet P w → answer P G ≡ state_answer P G w.machine }
    ensures messages { (P : Plan) (G : Data) (r : ℕ) (w : WorldState) → IsConsistent P → IsSoundWorld P G r w
        → IsQuiet P w → length w.messages ≡ message_count P G r }
{}

/// A law: no two messages of a world are for the same edge. The edge of a message that was not delivered may be sent,
/// with its tile.
pub fn a_message_is_an_edge_of_its_own()
    ensures once { (P : Plan) (G : Data) (r : ℕ) (w : WorldState) → IsConsistent P → IsSoundWorld P G r w
        → HasNoRepeats (map (λ (m : Message). m.edge) w.messages) }
    ensures may { (P : Plan) (G : Data) (r : ℕ) (w : WorldState) (m : Message) → IsConsistent P → IsSoundWorld P G r w
        → IsIn m w.messages → IsFalse (is_delivered w.machine m)
        → MaySend P G w.machine (item.Edge m.edge) × (m.tile ≡ output_tile (ended P G m.edge.from) m.edge.out_flow) }
{}
