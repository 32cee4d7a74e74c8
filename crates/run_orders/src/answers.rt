//! The whole answers of small jobs, as they are printed: by one thread, and by the calls of one run from the last task
//! to the first.

use crate::stepwise::Stepwise;
use dep_iter::Matched;
use flow_core::run_one;
use flow_meaning::Outcome;
use job_stages::job_of_texts;
use ptg_base::{OutOfMemory, Seq};
use ptg_io::{Failed, MemSink};
use report_text::report;
use sample_jobs::Job;
use std::alloc::Global;

/// The text of the answer that one thread finds; `None` if the job is not consistent.
pub fn of_one_thread(alloc: Global, texts: &Job) -> Result<Option<String>, OutOfMemory> {
    match job_of_texts(alloc, texts.jdf, texts.data)? {
        Some((job, given)) => {
            let outcome = run_one(alloc, &job, given)?;
            text_of(alloc, &job, &outcome)
        }
        None => Ok(None),
    }
}

/// The text of the answer of a run in which the last task that may be claimed always comes first; `None` if the job is
/// not consistent, or if more can happen in the end.
pub fn of_a_run_backwards(alloc: Global, texts: &Job) -> Result<Option<String>, OutOfMemory> {
    let Some(mut run) = Stepwise::start(alloc, texts)? else {
        return Ok(None);
    };
    run.run_backwards(alloc)?;
    match run.job_and_answer()? {
        Some((job, outcome)) => text_of(alloc, &job, &outcome),
        None => Ok(None),
    }
}

// What is printed of an answer.
fn text_of(alloc: Global, job: &Matched, outcome: &Outcome) -> Result<Option<String>, OutOfMemory> {
    let mut sink = MemSink::new(alloc, Seq::new(alloc));
    match report(job.plan(), outcome, &mut sink) {
        Ok(()) => match str::from_utf8(sink.bytes()) {
            Ok(text) => Ok(Some(String::from_str(alloc, text)?)),
            Err(_) => Ok(None),
        },
        Err(Failed) => Err(OutOfMemory),
    }
}
