//! Runs jobs over the shared table in several ways, and prints what the calls of its passes returned and the answers of
//! the closed tables.
//!
//! Jobs are run by one worker while two passes look on, by one worker in several orders, and by one that can only steal
//! ids. They are also run by several workers in threads, and up to an early close.
#![tactic(auto)]

mod answer;
mod closing;
mod early;
mod hands;
mod opening;
mod orders;
mod playing;
mod seen;
mod thief;
mod threads;
mod unscanned;
mod watcher;
mod watching;

use crate::early::{claim_and_close, shard_of};
use crate::opening::{Make, table_of};
use crate::orders::play_in_order;
use crate::playing::{Played, play};
use crate::thief::ran_by_thief;
use crate::threads::{answer_by, traced};
use ptg_base::{OutOfMemory, TaskId};
use run_pool::Settings;
use sample_jobs::{
    Job, broadcast, cholesky_4, cholesky_20, gather, one_task, pair, stall, traps, types,
};
use std::alloc::Global;
use std::io;
use std::sync::Wait;
use std::thread::Threads;

// The numbers of shards that are tried.
const SHARDS: [u32; 3] = [1, 3, 256];

// The numbers of workers that are tried.
const WORKERS: [u32; 3] = [1, 2, 5];

// Plays a job over a new table, if it is consistent and the number of shards is within its limits.
fn played<R: Threads + Wait + Sync>(
    rt: &R,
    alloc: Global,
    texts: &Job,
    make: Make,
) -> Result<Option<Played>, OutOfMemory> {
    let Some((table, first)) = table_of(alloc, texts, make)? else {
        return Ok(None);
    };
    Ok(Some(play(rt, alloc, table, first)?))
}

// Plays a job over tables with these numbers of shards, each with and without a preload.
fn print_played<R: Threads + Wait + Print + Sync>(
    rt: &R,
    alloc: Global,
    texts: &Job,
) -> io::Result<()> {
    let name = texts.name;
    for shards in SHARDS {
        for preload in [false, true] {
            match played(rt, alloc, texts, Make { shards, preload }) {
                Ok(Some(p)) => println!(rt; "{name}, {shards} shards, preload {preload}: {p}")?,
                Ok(None) => println!(rt; "{name}: no job")?,
                Err(OutOfMemory) => println!(rt; "{name}: no memory")?,
            }
        }
    }
    Ok(())
}

// The answers of a job by these numbers of workers, each with those numbers of shards, with and without a preload.
fn print_answers<R: Threads + Wait + Print + Sync>(
    rt: &R,
    alloc: Global,
    texts: &Job,
) -> io::Result<()> {
    let name = texts.name;
    for workers in WORKERS {
        for shards in SHARDS {
            for preload in [false, true] {
                let settings = Settings {
                    workers,
                    shards,
                    preload,
                };
                match answer_by(rt, alloc, texts, settings) {
                    Ok(Some(a)) => println!(rt;
                        "{name}, {workers} workers, {shards} shards, preload {preload}: {a}"
                    )?,
                    Ok(None) => println!(rt; "{name}: no answer")?,
                    Err(OutOfMemory) => println!(rt; "{name}: no memory")?,
                }
            }
        }
    }
    Ok(())
}

// Closes a table after a claim of the task of this class with the parameter 0.
fn print_early<R: Print>(rt: &R, alloc: Global, texts: &Job, class: u32) -> io::Result<()> {
    let name = texts.name;
    match claim_and_close(alloc, texts, &TaskId::new(class, &[0])) {
        Ok(Some(e)) => println!(rt;
            "{name}, one claim: claimed {}, seen quiet {}, closed quiet {}",
            e.claimed, e.seen_quiet, e.quiet
        ),
        Ok(None) => println!(rt; "{name}: no job"),
        Err(OutOfMemory) => println!(rt; "{name}: no memory"),
    }
}

// The claims of a job by one worker, with these ids in its deque.
fn print_ordered<R: Threads + Wait + Print + Sync>(
    rt: &R,
    alloc: Global,
    texts: &Job,
    ids: &[i64],
) -> io::Result<()> {
    let name = texts.name;
    match play_in_order(rt, alloc, texts, ids) {
        Ok(Some(o)) => println!(rt; "{name}, in order: {o}"),
        Ok(None) => println!(rt; "{name}: no job"),
        Err(OutOfMemory) => println!(rt; "{name}: no memory"),
    }
}

// The claims of a job by four workers.
fn print_claims<R: Threads + Wait + Print + Sync>(
    rt: &R,
    alloc: Global,
    texts: &Job,
) -> io::Result<()> {
    let name = texts.name;
    match traced(rt, alloc, texts) {
        Ok(Some(c)) => println!(rt;
            "{name}: {} claims, {} again, {}",
            c.count, c.again, c.answer
        ),
        Ok(None) => println!(rt; "{name}: no job"),
        Err(OutOfMemory) => println!(rt; "{name}: no memory"),
    }
}

// The number of a task's shard, among 16.
fn print_shard<R: Print>(rt: &R, alloc: Global, texts: &Job, task: &TaskId) -> io::Result<()> {
    let name = texts.name;
    match shard_of(alloc, texts, task) {
        Ok(Some(shard)) => println!(rt; "{name}, class {}: shard {shard}", task.class()),
        Ok(None) => println!(rt; "{name}: no job"),
        Err(OutOfMemory) => println!(rt; "{name}: no memory"),
    }
}

// What a worker that can only steal runs, with these ids of tasks of class 0.
fn print_thief<R: Threads + Wait + Print + Sync>(
    rt: &R,
    alloc: Global,
    texts: &Job,
    ids: &[i64],
) -> io::Result<()> {
    let name = texts.name;
    let count = ids.len();
    match ran_by_thief(rt, alloc, texts, ids) {
        Ok(Some(end)) => println!(rt; "{name}, {count} ids: {end}"),
        Ok(None) => println!(rt; "{name}: no job"),
        Err(OutOfMemory) => println!(rt; "{name}: no memory"),
    }
}

// The results of the jobs in orders that ids steer, and of early closes.
fn print_orders<R: Threads + Wait + Print + Sync>(rt: &R, alloc: Global) -> io::Result<()> {
    print_ordered(rt, alloc, &gather(), &[])?;
    print_ordered(rt, alloc, &gather(), &[0, 1, 2])?;
    print_ordered(rt, alloc, &gather(), &[1, 2, 0])?;
    print_ordered(rt, alloc, &traps(), &[3, 0, 2, 1])?;
    // After the first claim a task is ready, and after the second one it runs.
    print_early(rt, alloc, &broadcast(), 1)?;
    print_early(rt, alloc, &broadcast(), 0)
}

// What a thief runs, the claims of four workers, and the shards of two tasks.
fn print_others<R: Threads + Wait + Print + Sync>(rt: &R, alloc: Global) -> io::Result<()> {
    print_thief(rt, alloc, &one_task(), &[0, 0, 0])?;
    print_thief(rt, alloc, &pair(), &[0, 0, 0])?;
    print_thief(rt, alloc, &one_task(), &[])?;
    print_claims(rt, alloc, &cholesky_20())?;
    print_shard(rt, alloc, &cholesky_4(), &TaskId::new(0, &[0]))?;
    print_shard(rt, alloc, &cholesky_4(), &TaskId::new(1, &[0, 1]))
}

fn main(rt: HostRuntime) -> io::Result<()> {
    let alloc = rt.alloc();
    for texts in [broadcast(), gather(), traps(), stall(), types()] {
        print_played(&rt, alloc, &texts)?;
        print_answers(&rt, alloc, &texts)?;
    }
    print_orders(&rt, alloc)?;
    print_others(&rt, alloc)
}
