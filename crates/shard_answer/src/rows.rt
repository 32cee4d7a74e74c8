//! The rows of the tasks that trapped or wait, from the shards.
ghost use Rattle.std.specs.Prelude.{◌≡◌, ◌+◌, ◌≤◌, ◌++◌, IsOk, OnOk, length, map, vec_capacity, vec_len};
ghost use Rattle.ptg_base.specs.Limits.{most_tasks};
ghost use Rattle.shard_answer.specs.Parts.{HaveDistinctEntries, all_ended, all_traps, all_waits, trap_row, waits_of};

use dep_shard::Shard;
use flow_meaning::{TrapRow, WaitRow};
use ptg_base::{OutOfMemory, TaskId};
use term_core::Trap;

// Adds the rows of these tasks that trapped.
fn push_traps_of(traps: &[(TaskId, Trap)], rows: &mut Vec<TrapRow>) -> Result<(), OutOfMemory>
    ensures ok { OnOk result (rows.new.items ≡ rows.old.items ++ map trap_row traps.now) }
    ensures len { OnOk result (vec_len rows.new ≡ vec_len rows.old + length traps.now) }
    ensures capacity { vec_capacity rows.old ≤ vec_capacity rows.new }
    ensures succeeds { vec_len rows.old + length traps.now ≤ vec_capacity rows.old → IsOk result }
{
    for (task, cause) in traps {
        rows.push(TrapRow {
            task: task.copy(),
            cause: *cause,
        })?;
    }
    Ok(())
}

// Adds the rows of the tasks of these shards that trapped.
pub(crate) fn push_traps(shards: &[Shard], rows: &mut Vec<TrapRow>) -> Result<(), OutOfMemory>
    ensures ok { OnOk result (rows.new.items ≡ rows.old.items ++ all_traps shards.now) }
    ensures succeeds { vec_len rows.old + length (all_traps shards.now) ≤ vec_capacity rows.old → IsOk result }
{
    let Some((shard, others)) = shards.split_first() else {
        return Ok(());
    };
    push_traps_of(shard.traps(), rows)?;
    push_traps(others, rows)
}

// Adds the rows of the tasks that have an entry in a shard.
fn push_waits_of(shard: &Shard, rows: &mut Vec<WaitRow>) -> Result<(), OutOfMemory>
    ensures ok { OnOk result (rows.new.items ≡ rows.old.items ++ waits_of shard.now) }
    ensures len { OnOk result (vec_len rows.new ≡ vec_len rows.old + length shard.now.entries) }
    ensures capacity { vec_capacity rows.old ≤ vec_capacity rows.new }
    ensures succeeds { vec_len rows.old + length shard.now.entries ≤ vec_capacity rows.old → IsOk result }
{
    for index in 0..shard.len() {
        if let Some((task, entry)) = shard.entry(index) {
            rows.push(WaitRow {
                task: task.copy(),
                arrived: entry.arrived(),
                goal: entry.goal(),
            })?;
        }
    }
    Ok(())
}

// Adds the rows of the tasks that have an entry in these shards.
pub(crate) fn push_waits(shards: &[Shard], rows: &mut Vec<WaitRow>) -> Result<(), OutOfMemory>
    ensures ok { OnOk result (rows.new.items ≡ rows.old.items ++ all_waits shards.now) }
    ensures succeeds { vec_len rows.old + length (all_waits shards.now) ≤ vec_capacity rows.old → IsOk result }
{
    let Some((shard, others)) = shards.split_first() else {
        return Ok(());
    };
    push_waits_of(shard, rows)?;
    push_waits(others, rows)
}

// A law: no shard has two entries for one task.
pub(crate) fn entries_are_distinct(shards: &[Shard])
    ensures { HaveDistinctEntries shards.now }
{
    if let Some((shard, others)) = shards.split_first() {
        let _len = shard.len();
        entries_are_distinct(others);
    }
}

// How many tasks of these shards have ended.
pub(crate) fn ended_of(shards: &[Shard]) -> u64
    requires { all_ended shards.now ≤ most_tasks }
    ensures { result ≡ all_ended shards.now }
{
    match shards.split_first() {
        Some((shard, others)) => shard.ended() + ended_of(others),
        None => 0,
    }
}
