//! Laws of worlds of ranks: whatever the network does, a world is a run of the event machine.

ghost use Rattle.std.specs.Prelude.{◌≤◌, ℕ, List};
ghost use Rattle.ptg_base.specs.Task.{Task};
ghost use Rattle.plan_core.specs.declared.plan.Plan.{Plan};
ghost use Rattle.coll_data.specs.Data.{Data};
ghost use Rattle.dep_iter.specs.Consistent.{IsConsistent};
ghost use Rattle.flow_meaning.specs.Machine.{claim_count, Event, Happen};
ghost use Rattle.flow_meaning.specs.Order.{IsLegalOrder};
ghost use Rattle.rank_core.specs.World.{HappenIn, IsPossibleIn, WorldEvent, WorldState, opening_world, world_after};
ghost use Rattle.rank_core.specs.Sound.{IsSoundWorld};

/// A law: the opening world is sound, and every list of events leads from a sound world to a sound world. So no task
/// runs twice, and the tasks that ran did so in a legal order.
pub fn events_keep_worlds_sound()
    ensures opening { (P : Plan) (G : Data) (r : ℕ) → IsSoundWorld P G r opening_world }
    ensures event { (P : Plan) (G : Data) (r : ℕ) (w : WorldState) (e : WorldEvent) → IsConsistent P
        → IsSoundWorld P G r w → IsPossibleIn P w e → IsSoundWorld P G r (world_after P G r w e) }
    ensures events { (P : Plan) (G : Data) (r : ℕ) (es : List WorldEvent) (w v : WorldState) → IsConsistent P
        → IsSoundWorld P G r w → HappenIn P G r es w v → IsSoundWorld P G r v }
    ensures once { (P : Plan) (G : Data) (r : ℕ) (w : WorldState) (t : Task) → IsSoundWorld P G r w
        → claim_count w.machine t ≤ 1 }
    ensures legal { (P : Plan) (G : Data) (r : ℕ) (es : List WorldEvent) (w : WorldState) → IsConsistent P
        → HappenIn P G r es opening_world w → IsLegalOrder P w.machine.claims }
{}

/// A law: what happens in a sound world is what some events of the event machine do, so a world is a run of it.
pub fn world_events_are_machine_events()
    ensures event { (P : Plan) (G : Data) (r : ℕ) (w : WorldState) (e : WorldEvent) → IsConsistent P
        → IsSoundWorld P G r w → IsPossibleIn P w e
        → (es : List Event) × Happen P G es w.machine (world_after P G r w e).machine }
    ensures events { (P : Plan) (G : Data) (r : ℕ) (es : List WorldEvent) (w v : WorldState) → IsConsistent P
        → IsSoundWorld P G r w → HappenIn P G r es w v → (fs : List Event) × Happen P G fs w.machine v.machine }
{}
