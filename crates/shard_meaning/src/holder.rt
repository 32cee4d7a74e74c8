//! Laws of what the holder of a shard knows before a call: which tasks may be claimed, what a claim hands out, and the
//! bounds of its two numbers.

ghost use Rattle.std.specs.Prelude.{◌≡◌, ◌<◌, ◌≤◌, ◌+◌, ℕ, IsSome, List, Some};
ghost use Rattle.ptg_base.specs.Entry.{Entry, FlowTile};
ghost use Rattle.ptg_base.specs.Limits.{most_tasks};
ghost use Rattle.ptg_base.specs.Task.{Task};
ghost use Rattle.ptg_base.specs.declared.edge.Item.{Item};
ghost use Rattle.plan_core.specs.declared.plan.Plan.{Plan};
ghost use Rattle.coll_data.specs.Data.{Data};
ghost use Rattle.dep_iter.specs.Consistent.{IsConsistent};
ghost use Rattle.dep_iter.specs.Tasks.{IsTask};
ghost use Rattle.dep_shard.specs.Content.{Content, IsReady, Takes, entry_of};
ghost use Rattle.flow_meaning.specs.Backward.{ended, inputs};
ghost use Rattle.flow_meaning.specs.Machine.{MayClaim, claim_count, send_count, sender};
ghost use Rattle.flow_meaning.specs.Sound.{IsSoundState};
ghost use Rattle.shard_meaning.specs.Moment.{Moment, run_count};
ghost use Rattle.shard_meaning.specs.Share.{IsShardOf, Placement};

/// A law: a task of a shard may be claimed if and only if it has a ready entry there. A claim hands out the inputs of
/// its task, on which the task ends. Before the claim no item of the task was sent.
pub fn a_claim_hands_out_the_inputs()
    ensures may { (P : Plan) (G : Data) (of : Placement) (k : ℕ) (R : Moment) (y : Content) (t : Task) (e : Entry)
        → IsShardOf P G of k R y → entry_of y t ≡ Some e → IsReady e → MayClaim P R.state t × (of t ≡ k) }
    ensures ready { (P : Plan) (G : Data) (of : Placement) (k : ℕ) (R : Moment) (y : Content) (t : Task)
        → IsShardOf P G of k R y → of t ≡ k → MayClaim P R.state t → (e : Entry) × (entry_of y t ≡ Some e) × IsReady e }
    ensures inputs { (P : Plan) (G : Data) (of : Placement) (k : ℕ) (R : Moment) (y z : Content) (t : Task)
        (tiles : List FlowTile)
        → IsConsistent P → IsSoundState P G R.state → IsShardOf P G of k R y → Takes y z t tiles
        → tiles ≡ inputs P G t }
    ensures ends { (P : Plan) (G : Data) (R : Moment) (t : Task) → IsConsistent P → IsSoundState P G R.state
        → MayClaim P R.state t → IsSome (ended P G t) }
    ensures unsent { (P : Plan) (G : Data) (R : Moment) (i : Item) → IsSoundState P G R.state
        → MayClaim P R.state (sender i) → send_count R.state i ≡ 0 }
{}

/// A law: the tasks of a shard that run and those that have ended are together at most as many as a job may have. They
/// are fewer if a task has an entry there, or if any task is unclaimed. If a task of the shard runs, the number of
/// running tasks is not 0, and fewer have ended than a job may have.
pub fn the_numbers_of_a_shard_are_bounded()
    ensures at_most { (P : Plan) (G : Data) (of : Placement) (k : ℕ) (R : Moment) (y : Content) → IsConsistent P
        → IsSoundState P G R.state → IsShardOf P G of k R y → y.running + y.ended ≤ most_tasks }
    ensures entry { (P : Plan) (G : Data) (of : Placement) (k : ℕ) (R : Moment) (y : Content) (t : Task) (e : Entry)
        → IsConsistent P → IsSoundState P G R.state → IsShardOf P G of k R y → entry_of y t ≡ Some e
        → y.running + y.ended < most_tasks }
    ensures unclaimed { (P : Plan) (G : Data) (of : Placement) (k : ℕ) (R : Moment) (y : Content) (t : Task)
        → IsConsistent P → IsSoundState P G R.state → IsShardOf P G of k R y → IsTask P t → claim_count R.state t ≡ 0
        → y.running + y.ended < most_tasks }
    ensures running { (P : Plan) (G : Data) (of : Placement) (k : ℕ) (R : Moment) (y : Content) (t : Task)
        → IsConsistent P → IsSoundState P G R.state → IsShardOf P G of k R y → of t ≡ k → 0 < run_count R t
        → (0 < y.running) × (y.ended < most_tasks) }
{}
