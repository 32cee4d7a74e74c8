//! Tables that are closed after a single claim.

ghost use Rattle.std.specs.Prelude.{◌≡◌, []};
ghost use Rattle.dep_table.specs.Boards.{IsWorkerPass};
ghost use Rattle.dep_table.specs.Views.{shown};
ghost use Rattle.table_rule.specs.Changes.{first_pass};
ghost use Rattle.dep_table.specs.Passes.{IsPassOf};
ghost use Rattle.dep_table.specs.Tables.{id_of};

use crate::closing::close_one;
use crate::opening::{Make, table_of};
use dep_iter::is_task;
use dep_table::{DepTable, Pass, an_idle_pass_is_a_workers_pass};
use ptg_base::{OutOfMemory, TaskId};
use sample_jobs::Job;
use std::alloc::Global;
use work_board::{Board, Claim};

/// The result of the claim and the close.
#[derive(Clone, Copy)]
pub struct Early {
    /// Whether the task was claimed.
    pub claimed: bool,
    /// Whether the pass saw quiet after it.
    pub seen_quiet: bool,
    /// Whether the closed table was quiet.
    pub quiet: bool,
}

// Claims a task, if it is one of the job, and returns whether it got it.
fn claim(table: &DepTable, pass: &mut Pass, task: &TaskId) -> bool
    requires pass { IsWorkerPass table.now pass.old }
    requires idle { (shown pass.old).running ≡ [] }
    ensures pass { IsWorkerPass table.now pass.new }
    ensures names { (shown pass.new).names ≡ (shown pass.old).names }
{
    if !is_task(table.matched().plan(), task) {
        return false;
    }
    let claim = Board::try_claim(table, pass, table.shard_of(task), task);
    matches!(&claim, Claim::Got(_arrivals))
}

// Claims a task at a new table and closes the table.
fn closed_after(
    alloc: Global,
    table: DepTable,
    first: Pass,
    task: &TaskId,
) -> Result<Early, OutOfMemory>
    requires pass { IsPassOf (id_of table) first }
    requires first { shown first ≡ first_pass }
{
    an_idle_pass_is_a_workers_pass();
    let mut pass = first;
    let claimed = claim(&table, &mut pass, task);
    let seen_quiet = Board::see_quiet(&table, &mut pass);
    let closed = close_one(alloc, table, pass)?;
    Ok(Early {
        claimed,
        seen_quiet,
        quiet: closed.quiet(),
    })
}

/// Claims one task of a job with three shards, and closes the table. If the task is not ready, the ready ones are left;
/// if it is, it still runs.
pub fn claim_and_close(
    alloc: Global,
    texts: &Job,
    task: &TaskId,
) -> Result<Option<Early>, OutOfMemory> {
    let make = Make {
        shards: 3,
        preload: false,
    };
    let Some((table, first)) = table_of(alloc, texts, make)? else {
        return Ok(None);
    };
    Ok(Some(closed_after(alloc, table, first, task)?))
}

/// The shard of a task among 16, if it is one of the job.
pub fn shard_of(alloc: Global, texts: &Job, task: &TaskId) -> Result<Option<u32>, OutOfMemory> {
    let make = Make {
        shards: 16,
        preload: false,
    };
    let Some((table, _first)) = table_of(alloc, texts, make)? else {
        return Ok(None);
    };
    if !is_task(table.matched().plan(), task) {
        return Ok(None);
    }
    Ok(Some(table.shard_of(task)))
}
