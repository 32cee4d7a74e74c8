//! Laws of calm moments.

ghost use Rattle.std.specs.Prelude.{◌<◌, ℕ};
ghost use Rattle.ptg_base.specs.Task.{Task};
ghost use Rattle.plan_core.specs.declared.plan.Plan.{Plan};
ghost use Rattle.coll_data.specs.Data.{Data};
ghost use Rattle.dep_iter.specs.Consistent.{IsConsistent};
ghost use Rattle.dep_shard.specs.Content.{Content};
ghost use Rattle.flow_meaning.specs.Machine.{IsQuiescent};
ghost use Rattle.flow_meaning.specs.Sound.{IsAtRest, IsSoundState};
ghost use Rattle.shard_meaning.specs.Calm.{AreFinished, HasNoWork, IsCalm};
ghost use Rattle.shard_meaning.specs.Moment.{Moment};
ghost use Rattle.shard_meaning.specs.Share.{IsShardOf, Placement};

/// A law: a moment is calm if and only if no shard has work.
pub fn shards_without_work_are_calm()
    ensures calm { (P : Plan) (G : Data) (of : Placement) (R : Moment) (n : ℕ) (shards : ℕ → Content)
        → ((t : Task) → of t < n) → ((k : ℕ) → k < n → IsShardOf P G of k R (shards k))
        → ((k : ℕ) → k < n → HasNoWork (shards k)) → IsCalm P R }
    ensures idle { (P : Plan) (G : Data) (of : Placement) (k : ℕ) (R : Moment) (y : Content) → IsShardOf P G of k R y
        → IsCalm P R → HasNoWork y }
{}

/// A law: a calm moment at which all claimed tasks are finished is at rest, so its state is quiescent.
pub fn a_calm_moment_is_at_rest()
    ensures rest { (P : Plan) (G : Data) (R : Moment) → IsCalm P R → AreFinished P G R → IsAtRest P G R.state }
    ensures quiescent { (P : Plan) (G : Data) (R : Moment) → IsConsistent P → IsSoundState P G R.state → IsCalm P R
        → AreFinished P G R → IsQuiescent P G R.state }
{}
