//! Runs single parts of the program for a clock beside it: the arguments name cases and their sizes, and it prints what
//! each case counts, a line for each count. The cases are, among others, a shard, deques, and turns of a table by one
//! pass, by several and by four threads.
#![tactic(auto)]

mod bodies;
mod case;
mod certificates;
mod count;
mod data_files;
mod deques;
mod edges;
mod jobs;
mod names;
mod shards;
mod sizes;
mod spaces;
mod tables;
mod tasks;
mod texts;

use crate::case::{Case, measure};
use crate::count::{Counts, Failure};
use std::alloc::Global;
use std::process::ExitCode;
use std::sync::Wait;
use std::thread::Threads;
use std::{env, io};

// What is printed if the arguments name no cases.
const USAGE: &str = "usage: ptg_measure (CASE SIZE)..
CASE is space, size, size_of_square, size_with_sum, body, tokens, long_tiles, short_tiles, ints, names, job, edges,
star, chain_lists, checked_chain, checked_cycle, turns, turns_of_three, turns_in_threads, unopened, opened, close,
outcome, ready, best, by_task, first_edges, last_edges, reserved, fired, trapped, written, deque, deep_deque or
thieves";

// The case and the size that two arguments name.
fn wanted(case: &String, size: &String) -> Option<(Case, u32)> {
    Some((Case::of(case.as_str())?, size.as_str().parse().ok()?))
}

// What the case and size that two arguments name count, if they name any.
fn counts<R: Threads + Wait + Sync>(
    rt: &R,
    alloc: Global,
    case: &String,
    size: &String,
) -> Option<Result<Counts, Failure>> {
    let (case, size) = wanted(case, size)?;
    Some(measure(rt, alloc, case, size))
}

// Prints what the case and size that two arguments name count. False if they name none, or if the case failed.
fn print_counts<R: Print + Threads + Wait + Sync>(
    rt: &R,
    alloc: Global,
    case: &String,
    size: &String,
) -> io::Result<bool> {
    match counts(rt, alloc, case, size) {
        Some(Ok(counts)) => {
            for count in counts.each().iter().flatten() {
                println!(rt; "{count}")?;
            }
            Ok(true)
        }
        Some(Err(failure)) => {
            println!(rt; "failed,{failure:?}")?;
            Ok(false)
        }
        None => {
            println!(rt; "{USAGE}")?;
            Ok(false)
        }
    }
}

// Measures the cases that these arguments name in pairs, up to the first one that fails. Returns whether none failed.
fn print_all<R: Print + Threads + Wait + Sync>(
    rt: &R,
    alloc: Global,
    words: &[String],
) -> io::Result<bool> {
    if words.len() % 2 == 0 {
        println!(rt; "{USAGE}")?;
        return Ok(false);
    }
    for number in 0..words.len() / 2 {
        let (case, size) = (&words[2 * number + 1], &words[2 * number + 2]);
        if !print_counts(rt, alloc, case, size)? {
            return Ok(false);
        }
    }
    Ok(true)
}

fn main(rt: HostRuntime) -> io::Result<ExitCode> {
    let words: Vec<String> = env::args(&rt)?.collect(rt.alloc())?;
    if print_all(&rt, rt.alloc(), words.as_slice())? {
        Ok(ExitCode::SUCCESS)
    } else {
        Ok(ExitCode::FAILURE)
    }
}
