//! The certificate of a job, and what the checkers say of it and of lists that differ from it in one entry, as text.

ghost use Rattle.plan_data.specs.Fit.{DataFit};
ghost use Rattle.chain_cert.specs.Checking.{AreWeights};

use crate::edits::{Edit, edited};
use crate::names::add_task;
use cert_check::{check_chain, check_cycle};
use chain_cert::{Certificate, certify, weights};
use coll_data::Given;
use dep_iter::Matched;
use flow_core::run_one;
use ptg_base::{OutOfMemory, TaskId};
use row_files::{Printed, Why};
use std::alloc::Global;

/// The certificate of a job, whether the checker accepts it, and how many lists that differ in one entry it accepts.
pub fn shown(alloc: Global, m: &Matched, given: Given) -> Result<Printed, Why>
    requires { DataFit m.now given }
{
    let weights = weights(alloc, m.plan(), &given)?;
    let outcome = run_one(alloc, m, given)?;
    let mut text = String::new(alloc);
    match certify(alloc, m, &outcome, weights.as_slice())? {
        Certificate::Chain(chain, levels) => {
            add_tasks(&mut text, m, "chain", chain.as_slice())?;
            add_levels(&mut text, m, levels.as_slice())?;
            let chain = rows_of(alloc, chain.as_slice())?;
            let (weights, chain, levels) = (
                weights.as_slice(),
                chain.as_slice(),
                levels.as_slice(),
            );
            let tried = chains_tried(alloc, m, weights, chain, levels)?;
            add_tried(
                &mut text,
                "chain",
                is_accepted(alloc, m, weights, chain, levels)?,
                tried,
            )?;
            let tried = levels_tried(alloc, m, weights, chain, levels)?;
            add_tried(
                &mut text,
                "levels",
                is_accepted(alloc, m, weights, chain, levels)?,
                tried,
            )?;
        }
        Certificate::Cycle(cycle) => {
            add_tasks(&mut text, m, "cycle", cycle.as_slice())?;
            let tried = cycles_tried(alloc, m, cycle.as_slice())?;
            add_tried(&mut text, "cycle", check_cycle(m, cycle.as_slice()), tried)?;
        }
        Certificate::Trapped => text.push_str("trapped\n")?,
    }
    Ok(Printed {
        text: text.into_bytes(),
        status: 0,
    })
}

// The tasks of rows.
fn tasks_of(alloc: Global, rows: &[(TaskId, u64)]) -> Result<Vec<TaskId>, OutOfMemory> {
    let mut tasks = Vec::new(alloc);
    for row in rows {
        tasks.push(row.0.copy())?;
    }
    Ok(tasks)
}

// Tasks as rows, each with the level 0.
fn rows_of(alloc: Global, tasks: &[TaskId]) -> Result<Vec<(TaskId, u64)>, OutOfMemory> {
    let mut rows = Vec::new(alloc);
    for t in tasks {
        rows.push((t.copy(), 0))?;
    }
    Ok(rows)
}

// A line with these tasks.
fn add_tasks(text: &mut String, m: &Matched, word: &str, tasks: &[TaskId]) -> Result<(), Why> {
    text.push_str(word)?;
    for t in tasks {
        text.push(' ')?;
        add_task(text, m.plan(), t)?;
    }
    text.push('\n')?;
    Ok(())
}

// A line with these tasks and their levels.
fn add_levels(text: &mut String, m: &Matched, levels: &[(TaskId, u64)]) -> Result<(), Why> {
    text.push_str("levels")?;
    for row in levels {
        text.push(' ')?;
        add_task(text, m.plan(), &row.0)?;
        write!(text, "={}", row.1)?;
    }
    text.push('\n')?;
    Ok(())
}

// How many lists were tried, and how many of them were accepted.
#[derive(Clone, Copy)]
struct Tried {
    tried: u64,
    accepted: u64,
}

impl Tried {
    // The counts after one more list.
    fn after(self, accepted: bool) -> Tried {
        Tried {
            tried: self.tried.wrapping_add(1),
            accepted: self.accepted.wrapping_add(u64::from(accepted)),
        }
    }
}

// No list was tried.
const NONE_TRIED: Tried = Tried {
    tried: 0,
    accepted: 0,
};

// The edits that are tried at each place of a list.
const EDITS: [Edit; 5] = [
    Edit::Changed,
    Edit::Dropped,
    Edit::Doubled,
    Edit::Exchanged,
    Edit::Lowered,
];

// A line with the verdict on a list, and how many of the lists that differ from it were accepted.
fn add_tried(text: &mut String, word: &str, itself: bool, tried: Tried) -> Result<(), Why> {
    let verdict = if itself { "accepted" } else { "refused" };
    write!(
        text,
        "{word} {verdict}, and of {} others {}\n",
        tried.tried, tried.accepted
    )?;
    Ok(())
}

// Tries the cycle with one entry edited.
fn cycles_tried(alloc: Global, m: &Matched, cycle: &[TaskId]) -> Result<Tried, OutOfMemory> {
    let rows = rows_of(alloc, cycle)?;
    let mut tried = NONE_TRIED;
    for edit in EDITS {
        for at in 0..rows.len() {
            if let Some(other) = edited(alloc, rows.as_slice(), edit, at)? {
                let other = tasks_of(alloc, other.as_slice())?;
                tried = tried.after(check_cycle(m, other.as_slice()));
            }
        }
    }
    Ok(tried)
}

// Whether a chain, as rows, is accepted with these levels.
fn is_accepted(
    alloc: Global,
    m: &Matched,
    weights: &[u64],
    chain: &[(TaskId, u64)],
    levels: &[(TaskId, u64)],
) -> Result<bool, OutOfMemory>
    requires { AreWeights weights.now }
{
    let chain = tasks_of(alloc, chain)?;
    check_chain(m, weights, chain.as_slice(), levels)
}

// Tries the chain with one entry edited.
fn chains_tried(
    alloc: Global,
    m: &Matched,
    weights: &[u64],
    chain: &[(TaskId, u64)],
    levels: &[(TaskId, u64)],
) -> Result<Tried, OutOfMemory>
    requires { AreWeights weights.now }
{
    let mut tried = NONE_TRIED;
    for edit in EDITS {
        for at in 0..chain.len() {
            if let Some(other) = edited(alloc, chain, edit, at)? {
                tried = tried.after(is_accepted(alloc, m, weights, other.as_slice(), levels)?);
            }
        }
    }
    Ok(tried)
}

// Tries the levels with one entry edited.
fn levels_tried(
    alloc: Global,
    m: &Matched,
    weights: &[u64],
    chain: &[(TaskId, u64)],
    levels: &[(TaskId, u64)],
) -> Result<Tried, OutOfMemory>
    requires { AreWeights weights.now }
{
    let mut tried = NONE_TRIED;
    for edit in EDITS {
        for at in 0..levels.len() {
            if let Some(other) = edited(alloc, levels, edit, at)? {
                tried = tried.after(is_accepted(alloc, m, weights, chain, other.as_slice())?);
            }
        }
    }
    Ok(tried)
}
