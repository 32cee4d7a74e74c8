//! The opening of shards: each gets a ready entry of its own tasks that no edge goes into.

ghost use Rattle.std.specs.Prelude.{◌≡◌, ◌<◌, ◌==◌, IfOk, OnOk, length};
ghost use Rattle.ptg_base.specs.Limits.{IsShardCount};
ghost use Rattle.dep_iter.specs.Edges.{goal};
ghost use Rattle.dep_iter.specs.Tasks.{IsTask};
ghost use Rattle.shard_calls.specs.Opened.{AreNew, AreOpening, AreOpeningRanks, AreOpeningShards, Enters, EntersIn, Opens, placement_by};

use crate::placing::{SharedTo, number_at};
use dep_iter::{Matched, TaskAt, all_tasks};
use dep_shard::Shard;
use goal_count::goal_of;
use ptg_base::{OutOfMemory, TaskId};
use range_space::Numbers;
use std::alloc::Global;

// Enters a ready task into its shard, unless it has an entry.
fn enter_in(shard: &mut Shard, t: &TaskId, priority: i64) -> Result<(), OutOfMemory>
    ensures { OnOk result (EntersIn t.now priority shard.old shard.new) }
{
    match shard.index_of(t) {
        Some(_index) => Ok(()),
        None => shard.add_ready(t, priority),
    }
}

// Enters a ready task into the shard k.
fn enter(shards: &mut Vec<Shard>, k: usize, t: &TaskId, priority: i64) -> Result<(), OutOfMemory>
    requires { k < length shards.old.items }
    ensures { OnOk result (Enters k t.now priority shards.old.items shards.new.items) }
{
    enter_in(&mut shards[k], t, priority)
}

// Enters a task if no edge goes into it, and returns whether that is so.
fn open_task(
    shards: &mut Vec<Shard>,
    m: &Matched,
    t: &TaskId,
    to: SharedTo,
) -> Result<bool, OutOfMemory>
    requires task { IsTask m.now t.now }
    requires shards { IsShardCount (length shards.old.items) }
    ensures root { IfOk result (λ root. root ≡ (goal m.now t.now == 0)) }
    ensures opened { OnOk result
        (Opens m.now (placement_by to m.now (length shards.old.items)) t.now shards.old.items shards.new.items) }
{
    let mut room = Numbers::new();
    let at = TaskAt::of(m.plan(), t, &mut room);
    if goal_of(&at) != 0 {
        return Ok(false);
    }
    let k = number_at(to, &at, shards.len());
    enter(shards, k, t, at.priority())?;
    Ok(true)
}

// This many new shards, in which tasks are hashed with this key.
fn new_shards(alloc: Global, m: &Matched, count: u32, key: u64) -> Result<Vec<Shard>, OutOfMemory>
    ensures { IfOk result (λ v. AreNew count m.now.elems v.items) }
{
    let elems = m.plan().elems.as_slice();
    let mut shards = Vec::new(alloc);
    for _ in 0..count {
        shards.push(Shard::keyed(alloc, elems, key)?)?;
    }
    Ok(shards)
}

// This many new shards, opened. The walk stops once all tasks without in edges are found.
fn opened(
    alloc: Global,
    m: &Matched,
    count: u32,
    to: SharedTo,
    key: u64,
) -> Result<Vec<Shard>, OutOfMemory>
    requires { IsShardCount count }
    ensures { IfOk result (λ v. AreOpening m.now (placement_by to m.now count) count v.items) }
{
    let mut opened = new_shards(alloc, m, count, key)?;
    let mut left = m.roots();
    for t in all_tasks(m.plan()) {
        if left == 0 {
            return Ok(opened);
        }
        if open_task(&mut opened, m, &t, to)? {
            left -= 1;
        }
    }
    Ok(opened)
}

/// This many new shards of a table: each has the ready entries of its own tasks that no edge goes into. Tasks are
/// hashed with this key.
pub fn opened_shards(
    alloc: Global,
    m: &Matched,
    shards: u32,
    key: u64,
) -> Result<Vec<Shard>, OutOfMemory>
    requires { IsShardCount shards }
    ensures { IfOk result (λ v. AreOpeningShards m.now shards v.items) }
{
    opened(alloc, m, shards, SharedTo::Shards, key)
}

/// A new shard for each of this many ranks: it has the ready entries of the rank's tasks that no edge goes into. Tasks
/// are hashed without a key.
pub fn opened_ranks(alloc: Global, m: &Matched, ranks: u32) -> Result<Vec<Shard>, OutOfMemory>
    requires { IsShardCount ranks }
    ensures { IfOk result (λ v. AreOpeningRanks m.now ranks v.items) }
{
    opened(alloc, m, ranks, SharedTo::Ranks, 0)
}
