//! Runs jobs through the program with gates that wait, count or note, and prints how each run ends. With arguments it
//! is the program with a gate that counts bodies.
//!
//! Two bodies at once show that there are two threads. A count of each task's bodies shows that each is run once. The
//! notes of one worker's tasks show that `trace` prints them in their order. What `trace` prints is replayed. A job is
//! also run from one file that changes between its loads.
#![tactic(auto)]

mod begun;
mod changing;
mod command;
mod counting;
mod jobs;
mod meeting;
mod noting;
mod runs;

use crate::command::carried_out;
use crate::counting::Counting;
use crate::jobs::{cholesky, stall, traps, two_tasks};
use crate::meeting::Meeting;
use crate::noting::Noting;
use crate::runs::{Job, ran, ran_from_one_file, replayed, traced};
use ptg_base::OutOfMemory;
use ptg_os::words;
use ptg_top::Status;
use sample_jobs::decorated_cholesky;
use std::alloc::Global;
use std::io;
use std::process::ExitCode;
use std::random::RandomSource;
use std::sync::Wait;
use std::thread::Threads;
use worker_core::Always;

// Runs two tasks. The one that comes first may run its body only once the other has come.
fn meet<R: Threads + Wait + RandomSource + Print + Sync>(rt: &R, alloc: Global) -> io::Result<()> {
    let gate = Meeting::new();
    match ran(rt, alloc, &two_tasks(), "--workers 2", &gate) {
        Ok(end) => println!(rt; "two bodies at once: {end}, the gate {}", gate.end())?,
        Err(OutOfMemory) => println!(rt; "two bodies at once: no memory")?,
    }
    Ok(())
}

// Counts each body of the Cholesky job with four rows of tiles.
fn count<R: Threads + Wait + RandomSource + Print + Sync>(
    rt: &R,
    alloc: Global,
    job: &Job,
    options: &str,
) -> io::Result<()> {
    let Ok(gate) = Counting::new(alloc) else {
        return println!(rt; "{options}: no memory");
    };
    match ran(rt, alloc, job, options, &gate) {
        Ok(end) => println!(rt; "{options}: {end}, {}", gate.counts())?,
        Err(OutOfMemory) => println!(rt; "{options}: no memory")?,
    }
    Ok(())
}

// Notes the tasks of the Cholesky job in the order in which one worker runs them. The trace must have that order.
fn note<R: Threads + Wait + RandomSource + Print + Sync>(
    rt: &R,
    alloc: Global,
    options: &str,
) -> io::Result<()> {
    let Ok(gate) = Noting::new(alloc) else {
        return println!(rt; "trace {options}: no memory");
    };
    match traced(rt, alloc, &cholesky(), options, &gate) {
        Ok(end) => println!(rt; "trace {options}: {end}, {} tasks", gate.come())?,
        Err(OutOfMemory) => println!(rt; "trace {options}: no memory")?,
    }
    Ok(())
}

// Runs a job with several numbers of workers, and replays what `trace` prints of it with the same ones.
fn replay<R: Threads + Wait + RandomSource + Print + Sync>(
    rt: &R,
    alloc: Global,
    name: &str,
    job: &Job,
) -> io::Result<()> {
    for options in ["--workers 1", "--workers 4", "--workers 64"] {
        match ran(rt, alloc, job, options, &Always) {
            Ok(end) => println!(rt; "{name}, run {options}: {end}")?,
            Err(OutOfMemory) => println!(rt; "{name}, run {options}: no memory")?,
        }
        match replayed(rt, alloc, job, options, &Always) {
            Ok(end) => println!(rt; "{name}, trace {options}, replayed: {end}")?,
            Err(OutOfMemory) => println!(rt; "{name}, trace {options}: no memory")?,
        }
    }
    Ok(())
}

// Replays the traces of a job that is complete, of one that stalls and of one with traps.
fn replay_all<R: Threads + Wait + RandomSource + Print + Sync>(
    rt: &R,
    alloc: Global,
) -> io::Result<()> {
    replay(rt, alloc, "cholesky", &cholesky())?;
    replay(rt, alloc, "stall", &stall())?;
    replay(rt, alloc, "traps", &traps())
}

// Loads the JDF and the data of the Cholesky job from one file, which changes between its loads.
fn change<R: Threads + Wait + RandomSource + Print + Sync>(
    rt: &R,
    alloc: Global,
) -> io::Result<()> {
    let Ok(gate) = Counting::new(alloc) else {
        return println!(rt; "one file that changes: no memory");
    };
    match ran_from_one_file(rt, alloc, &cholesky(), &gate) {
        Ok(end) => println!(rt; "one file that changes: {end}, {}", gate.counts())?,
        Err(OutOfMemory) => println!(rt; "one file that changes: no memory")?,
    }
    Ok(())
}

// All runs of jobs in memory.
fn run_all<R: Threads + Wait + RandomSource + Print + Sync>(
    rt: &R,
    alloc: Global,
) -> io::Result<()> {
    meet(rt, alloc)?;
    let Ok(decorated) = decorated_cholesky(alloc) else {
        return println!(rt; "decorated: no memory");
    };
    let job = cholesky();
    let decorated = Job {
        jdf: decorated.as_bytes(),
        data: job.data,
        answer: job.answer,
    };
    for options in [
        "--workers 1 --shards 1",
        "--workers 1 --shards 16",
        "--workers 4 --shards 1",
        "--workers 4 --shards 16",
        "--workers 64 --shards 1",
        "--workers 64 --shards 16",
    ] {
        count(rt, alloc, &decorated, options)?;
    }
    for options in [
        "--workers 1 --shards 1 --preload",
        "--workers 4 --shards 16 --preload",
        "--workers 64 --shards 256 --preload",
    ] {
        count(rt, alloc, &job, options)?;
    }
    for options in ["--workers 1 --shards 1", "--workers 1 --shards 16"] {
        note(rt, alloc, options)?;
    }
    replay_all(rt, alloc)?;
    change(rt, alloc)
}

fn main(rt: HostRuntime) -> ExitCode {
    let alloc = rt.alloc();
    match words(&rt, alloc) {
        Ok(words) if words.is_empty() => match run_all(&rt, alloc) {
            Ok(()) => ExitCode::SUCCESS,
            Err(_) => ExitCode::FAILURE,
        },
        Ok(words) => carried_out(&rt, alloc, words.as_slice()),
        Err(OutOfMemory) => Status::OutOfMemory.exit_code(),
    }
}
