//! Runs jobs in orders other than the program's, on one thread and in worlds of ranks, and prints how they end.
//!
//! A broadcast is run by the calls of one run, and compared with the answer of one thread. It is also run in worlds of
//! ranks, whose messages come late, in other orders and again. Other jobs are run in worlds that are driven in the
//! orders of several seeds. For small jobs the whole answers are printed, by one thread and by the calls of one run.
#![tactic(auto)]

mod answers;
mod broadcast;
mod comparing;
mod driven;
mod jobs;
mod orders;
mod steps;
mod stepwise;

ghost use Rattle.ptg_base.specs.Limits.{IsRankCount};

use crate::answers::{of_a_run_backwards, of_one_thread};
use crate::broadcast::{EARLY, LATE, LEFT, REFUSED, THRICE};
use crate::driven::agreed;
use crate::jobs::{answered_jobs, driven_jobs};
use crate::orders::End;
use crate::stepwise::Step;
use ptg_base::OutOfMemory;
use sample_jobs::Job;
use std::alloc::Global;
use std::io;

// Prints how the broadcast ends on one thread, in one order of steps.
fn print_order<R: Print>(
    rt: &R,
    alloc: Global,
    name: &str,
    steps: &[(Step, bool)],
) -> io::Result<()> {
    match orders::end_of(alloc, steps) {
        Ok(End::Numbers(n)) => println!(rt; "{name},{},{},{}", n[0], n[1], n[2]),
        Ok(End::Otherwise(number)) => println!(rt; "{name}: step {number} was answered otherwise"),
        Ok(End::NotComplete) => println!(rt; "{name}: not all tasks ran"),
        Ok(End::Differs) => println!(rt; "{name}: one thread answers otherwise"),
        Ok(End::NoJob) => println!(rt; "{name}: the job is not consistent"),
        Err(_) => println!(rt; "{name}: out of memory"),
    }
}

// Prints how the broadcast ends in this many ranks, in one order of steps.
fn print_order_of_ranks<R: Print>(
    rt: &R,
    alloc: Global,
    name: &str,
    ranks: u32,
    steps: &[(steps::Step, bool)],
) -> io::Result<()>
    requires { IsRankCount ranks }
{
    match broadcast::end_of(alloc, ranks, steps) {
        Ok(end) => println!(rt; "{name},{ranks},{end}"),
        Err(_) => println!(rt; "{name}: out of memory"),
    }
}

// Prints what several seeds have in common for a job in this many ranks.
fn print_agreed<R: Print>(rt: &R, alloc: Global, job: &Job, ranks: u32) -> io::Result<()>
    requires { IsRankCount ranks }
{
    match agreed(alloc, job, ranks) {
        Ok(finding) => println!(rt; "{},{ranks},{finding}", job.name),
        Err(_) => println!(rt; "{}: out of memory", job.name),
    }
}

// Prints the whole answer of a job, or why there is none.
fn print_answer<R: Print>(
    rt: &R,
    name: &str,
    how: &str,
    text: Result<Option<String>, OutOfMemory>,
) -> io::Result<()> {
    match text {
        Ok(Some(text)) => print!(rt; "{name}, {how}:\n{text}"),
        Ok(None) => println!(rt; "{name}, {how}: no answer"),
        Err(OutOfMemory) => println!(rt; "{name}, {how}: out of memory"),
    }
}

fn main(rt: HostRuntime) -> io::Result<()> {
    let alloc = rt.alloc();
    print_order(&rt, alloc, "between", orders::BETWEEN)?;
    print_order(&rt, alloc, "after", orders::AFTER)?;
    print_order(&rt, alloc, "refused", orders::REFUSED)?;
    print_order_of_ranks(&rt, alloc, "thrice", 3, THRICE)?;
    print_order_of_ranks(&rt, alloc, "late", 3, LATE)?;
    print_order_of_ranks(&rt, alloc, "early", 3, EARLY)?;
    print_order_of_ranks(&rt, alloc, "refused", 4, REFUSED)?;
    print_order_of_ranks(&rt, alloc, "left", 3, LEFT)?;
    for job in driven_jobs() {
        print_agreed(&rt, alloc, &job, 1)?;
        print_agreed(&rt, alloc, &job, 3)?;
        print_agreed(&rt, alloc, &job, 64)?;
    }
    for job in answered_jobs() {
        print_answer(&rt, job.name, "one thread", of_one_thread(alloc, &job))?;
        print_answer(
            &rt,
            job.name,
            "last task first",
            of_a_run_backwards(alloc, &job),
        )?;
    }
    Ok(())
}
