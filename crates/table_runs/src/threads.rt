//! Runs of jobs by several workers, each in a thread of its own.

ghost use Rattle.std.specs.Prelude.{IsTrue};
ghost use Rattle.ptg_base.specs.Limits.{AreRunCounts};

use crate::answer::{Answer, answer_of};
use dep_table::Closed;
use job_stages::job_of_texts;
use ptg_base::{MOST_SHARDS, MOST_WORKERS, OutOfMemory, TaskId};
use run_pool::{PrepareFault, Settings, lay_out, prepare, run, run_traced};
use sample_jobs::Job;
use std::alloc::Global;
use std::sync::Wait;
use std::thread::Threads;
use worker_core::Always;

// Whether the settings are within their limits.
fn are_settings(settings: Settings) -> bool
    ensures { IsTrue result → AreRunCounts settings.workers settings.shards }
{
    if settings.workers == 0 || settings.workers > MOST_WORKERS {
        return false;
    }
    if settings.shards == 0 || settings.shards > MOST_SHARDS {
        return false;
    }
    true
}

/// The answer of a job. None if the settings are not within their limits, the job is not consistent, or its preload is
/// too large.
pub fn answer_by<R: Threads + Wait + Sync>(
    rt: &R,
    alloc: Global,
    texts: &Job,
    settings: Settings,
) -> Result<Option<Answer>, OutOfMemory> {
    if !are_settings(settings) {
        return Ok(None);
    }
    let Some((matched, given)) = job_of_texts(alloc, texts.jdf, texts.data)? else {
        return Ok(None);
    };
    match prepare(alloc, matched, given, settings, 0) {
        Ok(prepared) => Ok(Some(answer_of(run(rt, prepared, &Always)?)?)),
        Err(PrepareFault::PreloadTooLarge(_bytes)) => Ok(None),
        Err(PrepareFault::OutOfMemory) => Err(OutOfMemory),
    }
}

/// The claims of a run by four workers over 16 shards.
#[derive(Clone, Copy)]
pub struct Claims {
    /// The number of claims.
    pub count: usize,
    /// How many of them claim a task that was claimed already.
    pub again: usize,
    /// The answer of the closed table.
    pub answer: Answer,
}

// How many of these tasks are the same as the one before them.
fn repeats(tasks: &[TaskId]) -> usize {
    let mut again: usize = 0;
    for k in 1..tasks.len() {
        if tasks[k] == tasks[k - 1] {
            again = again.saturating_add(1);
        }
    }
    again
}

// The numbers of the claims of a run, with its answer.
fn claims_of(tasks: Vec<TaskId>, closed: Closed) -> Result<Claims, OutOfMemory> {
    let mut tasks = tasks;
    tasks.sort_unstable();
    Ok(Claims {
        count: tasks.len(),
        again: repeats(tasks.as_slice()),
        answer: answer_of(closed)?,
    })
}

/// Runs a job by four workers over 16 shards, and returns its claims. None if the job is not consistent.
pub fn traced<R: Threads + Wait + Sync>(
    rt: &R,
    alloc: Global,
    texts: &Job,
) -> Result<Option<Claims>, OutOfMemory> {
    let Some((matched, given)) = job_of_texts(alloc, texts.jdf, texts.data)? else {
        return Ok(None);
    };
    let settings = Settings {
        workers: 4,
        shards: 16,
        preload: false,
    };
    let prepared = lay_out(alloc, matched, given, settings, 0)?;
    let (tasks, closed) = run_traced(alloc, rt, prepared, &Always)?;
    Ok(Some(claims_of(tasks, closed)?))
}
