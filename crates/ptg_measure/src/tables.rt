//! The dependency table: turns of its shards, its opening, its close and its answer.
ghost use Rattle.std.specs.Prelude.{◌≡◌, ◌<◌, All, IfOk};
ghost use Rattle.plan_data.specs.Fit.{DataFit};
ghost use Rattle.table_rule.specs.Changes.{first_pass};
ghost use Rattle.dep_table.specs.Passes.{IsPassOf};
ghost use Rattle.dep_table.specs.Tables.{id_of, job_of};
ghost use Rattle.dep_table.specs.Views.{shown};

use crate::count::{Count, Counts, Failure};
use crate::jobs::{line_job, waiting_job};
use coll_data::Given;
use dep_iter::Matched;
use dep_table::{Busy, Closed, DepTable, Pass};
use flow_meaning::Outcome;
use ptg_base::OutOfMemory;
use run_pool::{Settings, lay_out, run};
use std::alloc::Global;
use std::sync::Wait;
use std::thread;
use std::thread::Threads;
use worker_core::Always;

// The number of shards.
const SHARDS: u32 = 16;

// The number of passes in threads of their own.
const THREADS: u32 = 4;

// A table of a job, with its first pass.
fn open(alloc: Global, job: (Matched, Given)) -> Result<(DepTable, Pass), Failure>
    requires { DataFit job.0 job.1 }
    ensures pass { IfOk result (λ (table, pass). IsPassOf (id_of table) pass × (shown pass ≡ first_pass)) }
{
    let (matched, given) = job;
    Ok(DepTable::new(alloc, matched, given, SHARDS)?)
}

// Takes the turn of a shard and gives it back. False if another pass held it.
fn take_and_leave(table: &DepTable, pass: &mut Pass, shard: u32) -> bool
    requires pass { IsPassOf (id_of table.now) pass.old }
    requires shard { shard < (job_of table.now).shards }
    ensures { IsPassOf (id_of table.now) pass.new }
{
    match table.try_turn(pass, shard) {
        Ok(turn) => {
            turn.leave();
            true
        }
        Err(Busy { pass: _pass }) => false,
    }
}

// Tries to take this many turns, of one shard after the other. Returns how many it took.
fn take_turns(table: &DepTable, pass: &mut Pass, count: u32) -> u64
    requires { IsPassOf (id_of table.now) pass.old }
    ensures { IsPassOf (id_of table.now) pass.new }
{
    let shards = table.shards();
    let mut taken: u64 = 0;
    if shards == 0 {
        return taken;
    }
    for k in 0..count {
        if take_and_leave(table, pass, k % shards) {
            taken = taken.wrapping_add(1);
        }
    }
    taken
}

/// One pass alone takes this many turns and gives them back.
pub fn turns(alloc: Global, size: u32) -> Result<Counts, Failure> {
    let (table, mut pass) = open(alloc, line_job(alloc, 2)?)?;
    let taken = take_turns(&table, &mut pass, size);
    Ok(Counts::one(Count::of("taken", taken)))
}

/// Each of three passes takes this many turns, one pass after the other, on one thread.
pub fn turns_of_three(alloc: Global, size: u32) -> Result<Counts, Failure> {
    let (table, mut first) = open(alloc, line_job(alloc, 2)?)?;
    let mut second = table.split(&mut first);
    let mut third = table.split(&mut first);
    let mut taken: u64 = 0;
    for _ in 0..size {
        taken = taken.wrapping_add(take_turns(&table, &mut first, 1));
        taken = taken.wrapping_add(take_turns(&table, &mut second, 1));
        taken = taken.wrapping_add(take_turns(&table, &mut third, 1));
    }
    Ok(Counts::one(Count::of("taken", taken)))
}

// The first pass of a table with others that are split off it, one for each thread.
fn some_passes(alloc: Global, table: &DepTable, first: Pass) -> Result<Vec<Pass>, OutOfMemory>
    requires { IsPassOf (id_of table.now) first }
    ensures { IfOk result (λ passes. All (IsPassOf (id_of table.now)) passes.items) }
{
    let mut first = first;
    let mut passes = Vec::new(alloc);
    for _ in 1..THREADS {
        passes.push(table.split(&mut first))?;
    }
    passes.push(first)?;
    Ok(passes)
}

// Tries to take the turn of a shard until it has taken it, and gives it back.
fn take_at_last<R: Wait>(rt: &R, table: &DepTable, pass: &mut Pass, shard: u32)
    requires pass { IsPassOf (id_of table.now) pass.old }
    requires shard { shard < (job_of table.now).shards }
    ensures { IsPassOf (id_of table.now) pass.new }
{
    for _ in rt.forever() {
        if take_and_leave(table, pass, shard) {
            return;
        }
    }
    unreachable!()
}

// Takes this many turns, of one shard after the other, however long each takes. Returns how many it took.
fn take_all<R: Wait>(rt: &R, table: &DepTable, pass: Pass, count: u32) -> u64
    requires { IsPassOf (id_of table.now) pass }
{
    let mut pass = pass;
    let mut taken: u64 = 0;
    let shards = table.shards();
    if shards == 0 {
        return taken;
    }
    for k in 0..count {
        take_at_last(rt, table, &mut pass, k % shards);
        taken = taken.wrapping_add(1);
    }
    taken
}

/// Each of four passes, in a thread of its own, takes this many turns of the same shards. It tries again if a turn is
/// taken.
pub fn turns_in_threads<R: Threads + Wait + Sync>(
    rt: &R,
    alloc: Global,
    size: u32,
) -> Result<Counts, Failure> {
    let (table, first) = open(alloc, line_job(alloc, 2)?)?;
    let passes = some_passes(alloc, &table, first)?;
    let taken = thread::map_vec(
        rt,
        passes,
        &|pass: Pass|
            requires { IsPassOf (id_of table) pass }
        { take_all(rt, &table, pass, size) },
    )?;
    let mut sum: u64 = 0;
    for one in taken {
        sum = sum.wrapping_add(one);
    }
    Ok(Counts::one(Count::of("taken", sum)))
}

/// Makes the job of this many tasks in a line, without a table.
pub fn unopened(alloc: Global, size: u32) -> Result<Counts, Failure> {
    let (matched, _given) = line_job(alloc, size)?;
    Ok(Counts::one(Count::of("tasks", matched.tasks())))
}

/// The same with a table.
pub fn opened(alloc: Global, size: u32) -> Result<Counts, Failure> {
    let (table, _first) = open(alloc, line_job(alloc, size)?)?;
    Ok(Counts::one(Count::of("tasks", table.matched().tasks())))
}

// The closed table of a job that one worker has run.
fn closed<R: Threads + Wait + Sync>(
    rt: &R,
    alloc: Global,
    job: (Matched, Given),
) -> Result<Closed, Failure>
    requires { DataFit job.0 job.1 }
{
    let (matched, given) = job;
    let settings = Settings {
        workers: 1,
        shards: SHARDS,
        preload: false,
    };
    let prepared = lay_out(alloc, matched, given, settings, 0)?;
    Ok(run(rt, prepared, &Always)?)
}

/// Runs one task, after which this many others still wait, up to the close of the table.
pub fn close<R: Threads + Wait + Sync>(
    rt: &R,
    alloc: Global,
    size: u32,
) -> Result<Counts, Failure> {
    let closed = closed(rt, alloc, waiting_job(alloc, size)?)?;
    Ok(Counts::one(Count::of("quiet", u64::from(closed.quiet()))))
}

/// The same, up to the answer. Counts the tasks that wait.
pub fn outcome<R: Threads + Wait + Sync>(
    rt: &R,
    alloc: Global,
    size: u32,
) -> Result<Counts, Failure> {
    let closed = closed(rt, alloc, waiting_job(alloc, size)?)?;
    if !closed.quiet() {
        return Err(Failure::NotWellMade);
    }
    let (outcome, _receipt) = closed.outcome()?;
    let waits = match outcome {
        Outcome::Stalled(_ran, _total, rows) => rows.len() as u64,
        _ => 0,
    };
    Ok(Counts::one(Count::of("waiting", waits)))
}
