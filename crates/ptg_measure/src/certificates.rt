//! Checks of certificates of a given size, whose lists are made here and not by a run.
use crate::count::{Count, Counts, Failure};
use crate::jobs::{line, ring};
use cert_check::{check_chain, check_cycle};
use dep_iter::Matched;
use edge_match::{MatchRefusal, match_edges};
use plan_core::Plan;
use ptg_base::TaskId;
use std::alloc::Global;

// The plan, checked to be consistent.
fn matched(alloc: Global, plan: Plan) -> Result<Matched, Failure> {
    match match_edges(alloc, plan) {
        Ok(matched) => Ok(matched),
        Err((MatchRefusal::OutOfMemory, _)) => Err(Failure::OutOfMemory),
        Err((MatchRefusal::Fault(_), _)) => Err(Failure::NotWellMade),
    }
}

// The tasks of class 0 with one parameter below a count.
fn tasks_below(alloc: Global, count: u32) -> Result<Vec<TaskId>, Failure> {
    let mut tasks = Vec::new(alloc);
    for k in 0..count {
        tasks.push(TaskId::new(0, &[i64::from(k)]))?;
    }
    Ok(tasks)
}

// The same tasks with the levels 1, 2 and so on.
fn rising(alloc: Global, count: u32) -> Result<Vec<(TaskId, u64)>, Failure> {
    let mut rows = Vec::new(alloc);
    for k in 0..count {
        rows.push((TaskId::new(0, &[i64::from(k)]), u64::from(k) + 1))?;
    }
    Ok(rows)
}

// What a check counts: 1 if it accepts, else 0.
fn accepted_count(accepted: bool) -> Counts {
    Counts::one(Count::of("accepted", u64::from(accepted)))
}

/// Checks that this many tasks in a line, each the source of an edge into the next, are a heaviest chain.
pub fn checked_chain(alloc: Global, size: u32) -> Result<Counts, Failure> {
    let m = matched(alloc, line(alloc, size)?)?;
    let chain = tasks_below(alloc, size)?;
    let levels = rising(alloc, size)?;
    let is_heaviest = check_chain(&m, &[1], chain.as_slice(), levels.as_slice())?;
    Ok(accepted_count(is_heaviest))
}

/// Makes the same lists, without the check. Counts their members.
pub fn chain_lists(alloc: Global, size: u32) -> Result<Counts, Failure> {
    let m = matched(alloc, line(alloc, size)?)?;
    let chain = tasks_below(alloc, size)?;
    let levels = rising(alloc, size)?;
    Ok(Counts::three(
        Count::of("tasks", m.tasks()),
        Count::of("links", chain.len() as u64),
        Count::of("levels", levels.len() as u64),
    ))
}

/// Checks that this many tasks in a ring are a cycle.
pub fn checked_cycle(alloc: Global, size: u32) -> Result<Counts, Failure> {
    let m = matched(alloc, ring(alloc, size)?)?;
    let cycle = tasks_below(alloc, size)?;
    Ok(accepted_count(check_cycle(&m, cycle.as_slice())))
}
