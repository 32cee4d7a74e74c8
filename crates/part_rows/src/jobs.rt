//! Parts that are called with a job: its JDF, its data, and for some a text that is read as its trace.

ghost use Rattle.std.specs.Prelude.{IfOk};
ghost use Rattle.plan_data.specs.Fit.{DataFit};

use crate::{accepted, certificates, replays, spaces, tasks};
use coll_data::Given;
use dep_iter::Matched;
use job_stages::{job_of_texts, judge_texts};
use ptg_base::Text;
use row_files::{Printed, RowCall, Why};
use std::alloc::Global;

/// What is called with a job.
#[derive(Clone, Copy)]
pub enum JobPart {
    Edges,
    Accepts,
    Certificate,
    Replay,
    List,
    Ranges,
    HasTask,
}

impl JobPart {
    /// The part that this word names, if it names one.
    pub fn of(word: &str) -> Option<JobPart> {
        match word {
            "edges" => Some(JobPart::Edges),
            "accepts" => Some(JobPart::Accepts),
            "certificate" => Some(JobPart::Certificate),
            "replay" => Some(JobPart::Replay),
            "list" => Some(JobPart::List),
            "ranges" => Some(JobPart::Ranges),
            "has-task" => Some(JobPart::HasTask),
            _ => None,
        }
    }

    /// What a call of it prints, with the files that these words name.
    pub fn printed(
        self,
        alloc: Global,
        row_call: &RowCall,
        words: &[Text],
    ) -> Result<Printed, Why> {
        match (self, words) {
            (JobPart::Edges, [jdf, table]) => {
                edges(alloc, row_call.file(jdf)?, row_call.file(table)?)
            }
            (JobPart::Accepts, [jdf, table]) => {
                accepts(alloc, row_call.file(jdf)?, row_call.file(table)?)
            }
            (JobPart::Certificate, [jdf, table]) => {
                certificate(alloc, row_call.file(jdf)?, row_call.file(table)?)
            }
            (JobPart::Replay, [jdf, table, trace]) => replay(
                alloc,
                row_call.file(jdf)?,
                row_call.file(table)?,
                row_call.file(trace)?,
            ),
            (JobPart::List, [jdf, table, trace]) => list(
                alloc,
                row_call.file(jdf)?,
                row_call.file(table)?,
                row_call.file(trace)?,
            ),
            (JobPart::Ranges, [jdf, table]) => {
                ranges(alloc, row_call.file(jdf)?, row_call.file(table)?)
            }
            (JobPart::HasTask, [jdf, table, class, params @ ..]) => {
                let verdict = judge_texts(alloc, row_call.file(jdf)?, row_call.file(table)?)?;
                spaces::has_task(alloc, &verdict, class, params)
            }
            _ => Err(Why("words that call nothing")),
        }
    }
}

// The job of two texts, which is consistent.
fn job_of(alloc: Global, jdf: &[u8], table: &[u8]) -> Result<(Matched, Given), Why>
    ensures { IfOk result (λ (matched, given). DataFit matched given) }
{
    job_of_texts(alloc, jdf, table)?.ok_or(Why("a job that is not consistent"))
}

// The tasks of a job with their edges, if one walk accepts it.
fn edges(alloc: Global, jdf: &[u8], table: &[u8]) -> Result<Printed, Why> {
    let (matched, _given) = job_of(alloc, jdf, table)?;
    if !accepted::is_accepted(alloc, matched.plan())? {
        return Err(Why("a consistent job that one walk does not accept"));
    }
    tasks::shown(alloc, &matched)
}

// Whether one walk accepts the job, beside the verdict on it.
fn accepts(alloc: Global, jdf: &[u8], table: &[u8]) -> Result<Printed, Why> {
    let verdict = judge_texts(alloc, jdf, table)?;
    accepted::shown(alloc, &verdict)
}

// The certificate of a job, and what the checkers say of it.
fn certificate(alloc: Global, jdf: &[u8], table: &[u8]) -> Result<Printed, Why> {
    let (matched, given) = job_of(alloc, jdf, table)?;
    certificates::shown(alloc, &matched, given)
}

// The verdict on a text as the trace of a job.
fn replay(alloc: Global, jdf: &[u8], table: &[u8], trace: &[u8]) -> Result<Printed, Why> {
    let (matched, given) = job_of(alloc, jdf, table)?;
    replays::replayed(alloc, &matched, given, trace)
}

// The same for a text that is first read as a list of tasks.
fn list(alloc: Global, jdf: &[u8], table: &[u8], trace: &[u8]) -> Result<Printed, Why> {
    let (matched, given) = job_of(alloc, jdf, table)?;
    replays::listed(alloc, &matched, given, trace)
}

// The ranges of the classes of a job, consistent or not.
fn ranges(alloc: Global, jdf: &[u8], table: &[u8]) -> Result<Printed, Why> {
    let verdict = judge_texts(alloc, jdf, table)?;
    spaces::ranges(alloc, &verdict)
}
