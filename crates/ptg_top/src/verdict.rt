//! The verdict: the result for arguments and files, before it is printed.

use dep_iter::Matched;
use dep_table::Receipt;
use flow_meaning::Outcome;
use job_stages::JobVerdict;
use ptg_base::Text;
use report_text::{FoundCycle, HeaviestChain, RankedAnswer, Summary};
use trace_core::TraceFault;

/// The result for arguments and files, before it is printed.
#[derive(Drop)]
pub enum Verdict {
    /// The arguments form no command.
    Usage,
    /// The file of this name could not be read.
    Unread(Text),
    /// The refusal of a job or of a JDF, or a job that was found consistent.
    Job(JobVerdict),
    /// A job was run: by whom, and what the command found from its answer.
    Ran(RanBy, Finding),
    /// The canonical spelling of a JDF.
    Spelling(Text),
    /// A preload was asked for that is over 2^30 bytes.
    PreloadTooLarge,
    /// The trace was refused: its first fault.
    TraceRefused(TraceFault),
}

/// By whom a job was run, with the job's plan.
#[derive(Drop)]
pub enum RanBy {
    /// By the workers of a table with this receipt.
    Table(Receipt),
    /// By one thread, in the order of a trace, or as ranks that send one another messages.
    OneThread(Matched),
}

/// What a command finds from the answer of a job that was run.
#[derive(Drop)]
pub enum Finding {
    /// The answer itself.
    Answer(Outcome),
    /// The summary of a made job that is complete.
    Summary(Summary),
    /// A heaviest chain of a complete job, with the level of each task.
    Chain(HeaviestChain),
    /// A cycle of a job that stalled.
    Cycle(FoundCycle),
    /// The text of the tasks that ran, in an order in which they may run.
    Trace(Text),
    /// The answer, with the number of messages that the ranks that ran the job sent one another.
    Ranked(RankedAnswer),
}
