//! A worker that can find tasks only by stealing ids. The shards of its table can't be scanned, and the id of the ready
//! task is in the deque of another worker, which does not work.

ghost use Rattle.std.specs.Prelude.{◌≡◌, []};
ghost use Rattle.task_run.specs.Bench.{IsBenchOf};
ghost use Rattle.table_rule.specs.Changes.{first_pass};
ghost use Rattle.dep_table.specs.Boards.{IsWorkerPass};
ghost use Rattle.dep_table.specs.Passes.{IsPassOf};
ghost use Rattle.dep_table.specs.Tables.{id_of, job_of};
ghost use Rattle.dep_table.specs.Views.{shown};

use crate::hands::two_workers;
use crate::opening::{Make, table_of};
use crate::unscanned::{PassPair, Unscanned};
use dep_table::{DepTable, Pass, an_idle_pass_is_a_workers_pass};
use ptg_base::OutOfMemory;
use ready_deques::Hands;
use sample_jobs::Job;
use std::alloc::Global;
use std::fmt;
use std::sync::Wait;
use std::thread::Threads;
use task_run::Bench;
use worker_core::{Always, work};

/// How the work of the thief ended.
#[derive(Clone, Copy)]
pub enum End {
    /// It saw quiet after it had run this many tasks.
    Quiet(u64),
    /// Its board was halted first, or it was out of memory.
    Halted,
}

impl fmt::Display for End {
    fn fmt<W: fmt::Write>(&self, f: &mut fmt::Formatter<W>) -> fmt::Result {
        match self {
            End::Quiet(ran) => write!(f, "the thief ran {ran}"),
            End::Halted => write!(f, "the thief found no task"),
        }
    }
}

// Lets the thief work at the board to the end.
fn work_at<R: Threads + Wait + Sync>(
    rt: &R,
    board: &Unscanned,
    pass: &mut PassPair,
    thief: &mut Hands,
    bench: &mut Bench,
) -> End
    requires own { IsWorkerPass board.now.table pass.old.own }
    requires halting { IsPassOf (id_of board.now.table) pass.old.halting }
    requires idle { (shown pass.old.own).running ≡ [] }
    requires bench { IsBenchOf (job_of board.now.table).matched bench.old }
{
    let worker = thief.number();
    match work(rt, worker, board, pass, thief, &Always, bench) {
        Ok(worked) => End::Quiet(worked.ran),
        Err(OutOfMemory) => End::Halted,
    }
}

// Lets the thief work at a new table.
fn steal<R: Threads + Wait + Sync>(
    rt: &R,
    alloc: Global,
    table: DepTable,
    first: Pass,
    thief: &mut Hands,
) -> Result<End, OutOfMemory>
    requires pass { IsPassOf (id_of table) first }
    requires first { shown first ≡ first_pass }
{
    an_idle_pass_is_a_workers_pass();
    let mut halting = first;
    let mut bench = Bench::new(alloc, table.matched())?;
    let own = table.split(&mut halting);
    let board = Unscanned { table, scanned: 0 };
    let mut pass = PassPair {
        own,
        halting,
        looks: 0,
    };
    Ok(work_at(rt, &board, &mut pass, thief, &mut bench))
}

// Lets the thief work at a table of one shard that can't be scanned.
fn ran_with<R: Threads + Wait + Sync>(
    rt: &R,
    alloc: Global,
    texts: &Job,
    thief: &mut Hands,
) -> Result<Option<End>, OutOfMemory> {
    let make = Make {
        shards: 1,
        preload: false,
    };
    let Some((table, first)) = table_of(alloc, texts, make)? else {
        return Ok(None);
    };
    Ok(Some(steal(rt, alloc, table, first, thief)?))
}

/// Lets worker 1 of two work at a table of one shard that can't be scanned. Worker 0 pushed the ids of the tasks of
/// class 0 with these parameters. To be found, the id of the job's ready task must be pushed at least three times. The
/// newest id stays in the slot, and a steal may leave the last one of the deque.
pub fn ran_by_thief<R: Threads + Wait + Sync>(
    rt: &R,
    alloc: Global,
    texts: &Job,
    ids: &[i64],
) -> Result<Option<End>, OutOfMemory> {
    let (mut thief, _idle) = two_workers(alloc, ids)?;
    ran_with(rt, alloc, texts, &mut thief)
}
