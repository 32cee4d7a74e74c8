//! What a task leaves within its rank: its write-backs, and its edges to tasks of the rank.

ghost use Rattle.std.specs.Prelude.{◌≡◌, [], ℕ, false, true, length};
ghost use Rattle.dep_iter.specs.Items as items;
ghost use Rattle.dep_iter.specs.Tasks.{IsTask};
ghost use Rattle.flow_meaning.specs.Backward.{ended};
ghost use Rattle.flow_meaning.specs.Ending.{output_tile};
ghost use Rattle.rank_core.specs.World.{is_between};
ghost use Rattle.shard_calls.specs.Taken.{MayTakeEdge, MayTakeWrite, TakesEdge, TakesWrite};
ghost use Rattle.task_run.specs.Bench.{HoldsOutputs};
ghost use Rattle.rank_core.specs.RankRoom.{HasRoomFor};
ghost use Rattle.rank_core.specs.RunningTasks.{HoldsAt, IsRunningTask, data_of, its_edges_within, its_items_within};
ghost use Rattle.rank_core.specs.RunningTasks.{its_writes, part_way, plan_of, task_of};

use crate::room::goes_away;
use crate::running_task::RunningTask;
use dep_shard::Shard;
use ptg_base::{Edge, WriteBack};
use shard_calls::{take_edge, take_write};
use task_run::Bench;

// Keeps a write-back of a running task in its rank, which has room for it.
#[tactic(auto, using(crate::proofs::LeftWithin::room_is_spare_write))]
fn leave_write(at: &RunningTask, shard: &mut Shard, bench: &Bench, write: &WriteBack)
    requires tiles { HoldsOutputs (plan_of at.now) (data_of at.now) write.now.from bench.now }
    requires may { MayTakeWrite (plan_of at.now) write.now
        (output_tile (ended (plan_of at.now) (data_of at.now) write.now.from) write.now.flow) shard.old }
    requires room { HasRoomFor 0 1 shard.old }
    ensures { TakesWrite (plan_of at.now) write.now
        (output_tile (ended (plan_of at.now) (data_of at.now) write.now.from) write.now.flow) shard.old shard.new }
{
    take_write(shard, at.matched, write, bench.tile(write.flow)).unwrap();
}

// Keeps the write-backs of a running task in its rank.
fn leave_writes(at: &RunningTask, shard: &mut Shard, bench: &Bench)
    requires runs { IsRunningTask at.now }
    requires tiles { HoldsOutputs (plan_of at.now) (data_of at.now) (task_of at.now) bench.now }
    requires holds { HoldsAt at.now (part_way at.now []) shard.old }
    requires room { HasRoomFor 0 (length (items.write_backs (plan_of at.now) (task_of at.now))) shard.old }
    ensures holds { HoldsAt at.now (part_way at.now (its_writes at.now)) shard.new }
    ensures room { (n : ℕ) → HasRoomFor n (length (items.write_backs (plan_of at.now) (task_of at.now))) shard.old
        → HasRoomFor n 0 shard.new }
{
    for write in at.task.write_backs() {
        leave_write(at, shard, bench, &write);
    }
}

// Brings an edge of a running task to its target, if that is of the same rank, which has room for it.
#[tactic(auto, using(crate::proofs::LeftWithin::room_is_spare_edge))]
fn leave_edge(at: &RunningTask, shard: &mut Shard, bench: &Bench, edge: &Edge)
    requires runs { IsRunningTask at.now }
    requires from { edge.now.from ≡ task_of at.now }
    requires to { IsTask (plan_of at.now) edge.now.to }
    requires tiles { HoldsOutputs (plan_of at.now) (data_of at.now) edge.now.from bench.now }
    requires may { is_between (plan_of at.now) at.now.ranks edge.now ≡ false
        → MayTakeEdge (plan_of at.now) edge.now
        (output_tile (ended (plan_of at.now) (data_of at.now) edge.now.from) edge.now.out_flow) shard.old }
    requires room { is_between (plan_of at.now) at.now.ranks edge.now ≡ false → HasRoomFor 1 0 shard.old }
    ensures takes { is_between (plan_of at.now) at.now.ranks edge.now ≡ false
        → TakesEdge (plan_of at.now) edge.now
        (output_tile (ended (plan_of at.now) (data_of at.now) edge.now.from) edge.now.out_flow) shard.old shard.new }
    ensures same { is_between (plan_of at.now) at.now.ranks edge.now ≡ true → shard.new ≡ shard.old }
{
    if goes_away(at, edge) {
        return;
    }
    let _arrived = take_edge(shard, at.matched, edge, bench.tile(edge.out_flow)).unwrap();
}

// Brings the edges of a running task that stay within its rank to their targets.
fn leave_edges(at: &RunningTask, shard: &mut Shard, bench: &Bench)
    requires runs { IsRunningTask at.now }
    requires tiles { HoldsOutputs (plan_of at.now) (data_of at.now) (task_of at.now) bench.now }
    requires holds { HoldsAt at.now (part_way at.now (its_writes at.now)) shard.old }
    requires room { HasRoomFor (length (its_edges_within at.now)) 0 shard.old }
    ensures { HoldsAt at.now (part_way at.now (its_items_within at.now)) shard.new }
{
    for edge in at.task.out_edges() {
        leave_edge(at, shard, bench, &edge);
    }
}

// Leaves the items of a running task that stay within its rank: its write-backs, and then its edges.
pub(crate) fn leave_within(at: &RunningTask, shard: &mut Shard, bench: &Bench)
    requires runs { IsRunningTask at.now }
    requires tiles { HoldsOutputs (plan_of at.now) (data_of at.now) (task_of at.now) bench.now }
    requires holds { HoldsAt at.now (part_way at.now []) shard.old }
    requires room { HasRoomFor (length (its_edges_within at.now))
        (length (items.write_backs (plan_of at.now) (task_of at.now))) shard.old }
    ensures { HoldsAt at.now (part_way at.now (its_items_within at.now)) shard.new }
{
    leave_writes(at, shard, bench);
    leave_edges(at, shard, bench);
}
