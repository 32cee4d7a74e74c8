//! Jobs that are driven in the orders of several seeds.

ghost use Rattle.ptg_base.specs.Limits.{IsRankCount};

use crate::comparing::same;
use crate::stepwise::answer_of_run_one;
use flow_meaning::Outcome;
use job_stages::job_of_texts;
use ptg_base::OutOfMemory;
use rank_core::ranks_of;
use sample_jobs::Job;
use std::alloc::Global;
use std::fmt;

// The seeds that are tried.
const SEEDS: &[u64] = &[0, 1, 7, 8, 4294967296, 18446744073709551615];

/// How an answer ends, without its rows.
#[derive(Drop)]
pub enum End {
    /// This many tasks ran, and that is all.
    Complete(u64),
    /// This many tasks trapped.
    Trapped(usize),
    /// This many tasks ran, of this many in all.
    Stalled(u64, u64),
}

/// What several seeds have in common.
#[derive(Drop)]
pub enum Finding {
    /// Each sent this many messages, and gave the answer of one thread.
    Agreed(u64, End),
    /// This seed sent another number of messages than the first.
    OtherMessages(u64),
    /// This seed gave another answer than one thread.
    OtherAnswer(u64),
    /// The job is not consistent.
    NoJob,
}

impl fmt::Display for Finding {
    fn fmt<W: fmt::Write>(&self, f: &mut fmt::Formatter<W>) -> fmt::Result {
        match self {
            Finding::Agreed(messages, End::Complete(n)) => write!(f, "{messages},complete,{n}"),
            Finding::Agreed(messages, End::Trapped(n)) => write!(f, "{messages},trapped,{n}"),
            Finding::Agreed(messages, End::Stalled(n, all)) => {
                write!(f, "{messages},stalled,{n},{all}")
            }
            Finding::OtherMessages(seed) => write!(f, "seed {seed} sent other messages"),
            Finding::OtherAnswer(seed) => write!(f, "seed {seed} gave another answer"),
            Finding::NoJob => write!(f, "the job is not consistent"),
        }
    }
}

// How an answer ends.
fn ending(outcome: &Outcome) -> End {
    match outcome {
        Outcome::Complete(count, _given) => End::Complete(*count),
        Outcome::Trapped(rows) => End::Trapped(rows.len()),
        Outcome::Stalled(ran, all, _rows) => End::Stalled(*ran, *all),
    }
}

// How many messages a job sends in this many ranks, and its answer, in the order of a seed; `None` if the job is not
// consistent.
fn driven(
    alloc: Global,
    job: &Job,
    ranks: u32,
    seed: u64,
) -> Result<Option<(u64, Outcome)>, OutOfMemory>
    requires { IsRankCount ranks }
{
    match job_of_texts(alloc, job.jdf, job.data)? {
        Some((matched, given)) => Ok(Some(ranks_of(alloc, &matched, given, ranks, seed)?)),
        None => Ok(None),
    }
}

/// What the seeds have in common for a job in this many ranks.
pub fn agreed(alloc: Global, job: &Job, ranks: u32) -> Result<Finding, OutOfMemory>
    requires { IsRankCount ranks }
{
    let Some(answer) = answer_of_run_one(alloc, job)? else {
        return Ok(Finding::NoJob);
    };
    let mut first = None;
    for seed in SEEDS {
        let Some((messages, outcome)) = driven(alloc, job, ranks, *seed)? else {
            return Ok(Finding::NoJob);
        };
        if *first.get_or_insert(messages) != messages {
            return Ok(Finding::OtherMessages(*seed));
        }
        if !same(&outcome, &answer) {
            return Ok(Finding::OtherAnswer(*seed));
        }
    }
    Ok(Finding::Agreed(first.unwrap_or(0), ending(&answer)))
}
