//! The shards of a table that reserves all memory before the first step.

ghost use Rattle.std.specs.Prelude.{◌≡◌, ◌<◌, ◌∷◌, [], Some, IfOk, OnOk, length, slice_get};
ghost use Rattle.ptg_base.specs.Limits.{IsShardCount};
ghost use Rattle.dep_iter.specs.Consistent.{IsConsistent};
ghost use Rattle.dep_iter.specs.Tasks.{IsTask, all_tasks};
ghost use Rattle.dep_shard.specs.Content.{Content};
ghost use Rattle.shard_meaning.specs.Placing as placing;
ghost use Rattle.dep_table.specs.Needs.{AddsNeeds, AddsTaskAt, AreNeedsOf, AreNoNeeds, AreReserved, CanCountEach, FitShards, HaveTypes, IsReservedFor, ReservesAt};
ghost use Rattle.shard_calls.specs.Opened.{AreOpeningShards};
ghost use Rattle.dep_table.specs.Opened.{HaveOpeningReserve};

use crate::needs::Needs;
use dep_iter::{Matched, TaskAt, all_tasks};
use dep_shard::Shard;
use ptg_base::{OutOfMemory, TaskId};
use range_space::Numbers;
use shard_calls::{opened_shards, shard_at};
use std::alloc::Global;

// No needs yet, for each of this many shards.
fn no_needs(alloc: Global, m: &Matched, shards: u32) -> Result<Vec<Needs>, OutOfMemory>
    ensures { IfOk result (λ v. AreNoNeeds shards (length m.now.elems) v.items) }
{
    let types = m.plan().elems.len();
    let mut needs = Vec::new(alloc);
    for _ in 0..shards {
        needs.push(Needs::new(alloc, types)?)?;
    }
    Ok(needs)
}

// Adds what a task of a consistent plan needs to the needs of the shard k.
fn need_at(needs: &mut Vec<Needs>, k: usize, at: &TaskAt)
    requires plan { IsConsistent at.now.plan.now }
    requires within { k < length needs.old.items }
    requires types { HaveTypes (length at.now.plan.now.elems) needs.old.items }
    requires room { CanCountEach at.now.plan.now (at.now.task.now ∷ []) needs.old.items }
    ensures { AddsTaskAt at.now.plan.now at.now.task.now k needs.old.items needs.new.items }
{
    needs[k].add_task(at);
}

// Adds what a task needs to the needs of its shard.
fn need_task(needs: &mut Vec<Needs>, m: &Matched, t: &TaskId)
    requires task { IsTask m.now t.now }
    requires shards { IsShardCount (length needs.old.items) }
    requires types { HaveTypes (length m.now.elems) needs.old.items }
    requires room { CanCountEach m.now (t.now ∷ []) needs.old.items }
    ensures { AddsNeeds m.now (placing.shard_of m.now (length needs.old.items)) t.now needs.old.items needs.new.items }
{
    let mut room = Numbers::new();
    let at = TaskAt::of(m.plan(), t, &mut room);
    let k = shard_at(&at, needs.len());
    need_at(needs, k, &at);
}

// What each of this many shards needs for all tasks.
fn needs_of(alloc: Global, m: &Matched, shards: u32) -> Result<Vec<Needs>, OutOfMemory>
    requires { IsShardCount shards }
    ensures count { IfOk result (λ v. length v.items ≡ shards) }
    ensures needs { IfOk result (λ v. AreNeedsOf m.now (placing.shard_of m.now shards) (all_tasks m.now) v.items) }
{
    m.plan_is_consistent();
    let mut needs = no_needs(alloc, m, shards)?;
    for t in all_tasks(m.plan()) {
        need_task(&mut needs, m, &t);
    }
    Ok(needs)
}

// Takes the spares that a shard needs.
fn reserve_for(shard: &mut Shard, needs: &Needs) -> Result<(), OutOfMemory>
    requires { length needs.now.tiles.items ≡ length shard.old.elems }
    ensures { OnOk result (IsReservedFor needs.now shard.old shard.new) }
{
    shard.reserve(
        needs.entries,
        needs.tiles.as_slice(),
        needs.writes,
        needs.traps,
    )
}

// Takes the spares that the shard k needs.
fn reserve_at(shards: &mut Vec<Shard>, k: usize, needs: &Needs) -> Result<(), OutOfMemory>
    requires within { k < length shards.old.items }
    requires types { (y : Content) → slice_get shards.old.items k ≡ Some y
        → length needs.now.tiles.items ≡ length y.elems }
    ensures { OnOk result (ReservesAt k needs.now shards.old.items shards.new.items) }
{
    reserve_for(&mut shards[k], needs)
}

// Takes the spares that each shard needs.
fn reserve_all(shards: &mut Vec<Shard>, needs: &[Needs]) -> Result<(), OutOfMemory>
    requires count { length needs.now ≡ length shards.old.items }
    requires types { FitShards needs.now shards.old.items }
    ensures { OnOk result (AreReserved needs.now shards.old.items shards.new.items) }
{
    for k in 0..needs.len() {
        reserve_at(shards, k, &needs[k])?;
    }
    Ok(())
}

// The shards of a new table, each with spares for all that it will receive. Tasks are hashed with this key.
pub(crate) fn preloaded_shards(
    alloc: Global,
    m: &Matched,
    shards: u32,
    key: u64,
) -> Result<Vec<Shard>, OutOfMemory>
    requires { IsShardCount shards }
    ensures shards { IfOk result (λ v. AreOpeningShards m.now shards v.items) }
    ensures spares { IfOk result (λ v. HaveOpeningReserve m.now shards v.items) }
{
    let mut opened = opened_shards(alloc, m, shards, key)?;
    let needs = needs_of(alloc, m, shards)?;
    reserve_all(&mut opened, needs.as_slice())?;
    Ok(opened)
}
