//! Runs of a job by one worker in an order that its deque of ids steers.

ghost use Rattle.std.specs.Prelude.{◌≡◌, [], false};
ghost use Rattle.table_rule.specs.Changes.{first_pass};
ghost use Rattle.dep_table.specs.Boards.{IsWorkerPass};
ghost use Rattle.dep_table.specs.Passes.{IsPassOf};
ghost use Rattle.dep_table.specs.Tables.{id_of, job_of};
ghost use Rattle.dep_table.specs.Views.{shown};

use crate::answer::{Answer, answer_of};
use crate::closing::close_one;
use crate::hands::one_worker;
use crate::opening::{Make, table_of};
use dep_table::{DepTable, Pass, an_idle_pass_is_a_workers_pass};
use ptg_base::{OutOfMemory, TaskId};
use sample_jobs::Job;
use std::alloc::Global;
use std::fmt;
use std::sync::Wait;
use std::thread::Threads;
use task_run::Bench;
use worker_core::{Always, work_logged};

/// The tasks that a worker claimed, in order, and the answer of the closed table.
#[derive(Drop)]
pub struct Ordered {
    claims: Vec<(u64, TaskId)>,
    answer: Answer,
}

impl fmt::Display for Ordered {
    fn fmt<W: fmt::Write>(&self, f: &mut fmt::Formatter<W>) -> fmt::Result {
        for (_stamp, task) in self.claims.as_slice() {
            write!(f, "{}", task.class())?;
            for parameter in task.params() {
                write!(f, "({parameter})")?;
            }
            write!(f, " ")?;
        }
        write!(f, "{}", self.answer)
    }
}

// Lets a worker with these ids in its deque work to the end, and returns its claims.
fn claims_by_one<R: Threads + Wait + Sync>(
    rt: &R,
    alloc: Global,
    table: &DepTable,
    pass: &mut Pass,
    ids: &[i64],
) -> Result<Vec<(u64, TaskId)>, OutOfMemory>
    requires pass { IsWorkerPass table.now pass.old }
    requires idle { (shown pass.old).running ≡ [] }
    requires not_preloaded { (job_of table.now).preloaded ≡ false }
    ensures pass { IsPassOf (id_of table.now) pass.new }
    ensures names { (shown pass.new).names ≡ (shown pass.old).names }
{
    let mut hands = one_worker(alloc, ids)?;
    let mut bench = Bench::new(alloc, table.matched())?;
    let mut claims = Vec::new(alloc);
    let _worked = work_logged(
        rt,
        0,
        table,
        pass,
        &mut hands,
        &Always,
        &mut bench,
        &mut claims,
    )?;
    Ok(claims)
}

// Lets one worker work at a new table that is not preloaded, with these ids in its deque, and closes the table.
fn work_with<R: Threads + Wait + Sync>(
    rt: &R,
    alloc: Global,
    table: DepTable,
    first: Pass,
    ids: &[i64],
) -> Result<Ordered, OutOfMemory>
    requires pass { IsPassOf (id_of table) first }
    requires first { shown first ≡ first_pass }
    requires not_preloaded { (job_of table).preloaded ≡ false }
{
    an_idle_pass_is_a_workers_pass();
    let mut pass = first;
    let claims = claims_by_one(rt, alloc, &table, &mut pass, ids)?;
    let answer = answer_of(close_one(alloc, table, pass)?)?;
    Ok(Ordered { claims, answer })
}

/// Lets one worker run a job over three shards, with the ids of these tasks of class 0 in its deque. It takes the last
/// one first.
pub fn play_in_order<R: Threads + Wait + Sync>(
    rt: &R,
    alloc: Global,
    texts: &Job,
    ids: &[i64],
) -> Result<Option<Ordered>, OutOfMemory> {
    let make = Make {
        shards: 3,
        preload: false,
    };
    let Some((table, first)) = table_of(alloc, texts, make)? else {
        return Ok(None);
    };
    Ok(Some(work_with(rt, alloc, table, first, ids)?))
}
