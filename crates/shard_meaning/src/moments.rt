//! Laws of moments: what events keep, and that their order does not matter.

ghost use Rattle.std.specs.Prelude.{◌≡◌, ◌<◌, ℕ};
ghost use Rattle.ptg_base.specs.Task.{Task};
ghost use Rattle.ptg_base.specs.declared.edge.Item.{Item};
ghost use Rattle.plan_core.specs.declared.plan.Plan.{Plan};
ghost use Rattle.coll_data.specs.Data.{Data};
ghost use Rattle.dep_iter.specs.Consistent.{IsConsistent};
ghost use Rattle.dep_shard.specs.Content.{Content};
ghost use Rattle.flow_meaning.specs.Machine.{MaySend, sent_with};
ghost use Rattle.flow_meaning.specs.Sound.{IsFinished, IsSoundState, with_its_tile};
ghost use Rattle.shard_meaning.specs.Calm.{AreFinished, IsCalm};
ghost use Rattle.shard_meaning.specs.Moment.{IsReorderedMoment, IsSoundMoment, MaySendNext, Moment, opening_moment, run_count, with_claim, with_end, with_send};
ghost use Rattle.shard_meaning.specs.Reserve.{HasReserve};
ghost use Rattle.shard_meaning.specs.Share.{IsShardOf, Placement};

/// A law: the event machine may send whatever a running task may send next. Each item is sent with the tile that its
/// task leaves.
pub fn running_tasks_may_send()
    ensures may { (P : Plan) (G : Data) (R : Moment) (i : Item) → IsConsistent P → IsSoundMoment P G R
        → MaySendNext P G R i → MaySend P G R.state i }
    ensures tile { (P : Plan) (G : Data) (R : Moment) (i : Item) → IsConsistent P → IsSoundState P G R.state
        → MaySend P G R.state i
        → sent_with P G R.state i ≡ with_its_tile P G i }
{}

/// A law: claimed tasks that no longer run are finished. This holds at the opening; claims and sends keep it, and so
/// does the end of a task that has trapped or all of whose items were sent.
pub fn finished_tasks_stay_finished()
    ensures opening { (P : Plan) (G : Data) → AreFinished P G opening_moment }
    ensures claim { (P : Plan) (G : Data) (R : Moment) (t : Task) → AreFinished P G R
        → AreFinished P G (with_claim R t) }
    ensures send { (P : Plan) (G : Data) (R : Moment) (i : Item) → MaySend P G R.state i → AreFinished P G R
        → AreFinished P G (with_send P G R i) }
    ensures end { (P : Plan) (G : Data) (R : Moment) (t : Task) → 0 < run_count R t → IsFinished P G R.state t
        → AreFinished P G R → AreFinished P G (with_end R t) }
{}

/// A law: in whatever order tasks were claimed and items sent, a shard holds the same and needs the same reserve, and
/// the moment is as sound, finished and calm.
pub fn order_changes_no_shard()
    ensures sound { (P : Plan) (G : Data) (R T : Moment) → IsReorderedMoment R T → IsSoundMoment P G R
        → IsSoundMoment P G T }
    ensures share { (P : Plan) (G : Data) (of : Placement) (k : ℕ) (R T : Moment) (y : Content) → IsConsistent P
        → IsReorderedMoment R T → IsSoundMoment P G R → IsShardOf P G of k R y → IsShardOf P G of k T y }
    ensures reserve { (P : Plan) (of : Placement) (k : ℕ) (R T : Moment) (y : Content) → IsReorderedMoment R T
        → HasReserve P of k R y → HasReserve P of k T y }
    ensures finished { (P : Plan) (G : Data) (R T : Moment) → IsReorderedMoment R T → AreFinished P G R
        → AreFinished P G T }
    ensures calm { (P : Plan) (G : Data) (R T : Moment) → IsConsistent P → IsReorderedMoment R T → IsSoundMoment P G R
        → IsCalm P R → IsCalm P T }
{}
