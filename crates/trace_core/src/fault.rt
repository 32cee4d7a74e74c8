//! Faults of traces.

ghost use Rattle.std.specs.Prelude.{◌≡◌};
ghost use Rattle.trace_core.specs.Reading.{too_long};

use ptg_base::Refusal;

/// What is wrong with a text as a trace of a job.
#[derive(Clone, Copy, Debug, PartialEq, Eq)]
pub enum TraceCode {
    /// It is longer than 16 MiB.
    TooLong,
    /// A row is missing, is not spelled as one, or is one too many.
    BadTrace,
    /// The job has no task of this name.
    UnknownTask,
    /// The task has an earlier row.
    RanTwice,
    /// A source of an edge into the task has no earlier row, or traps.
    TooEarly,
    /// A task that runs has no row.
    Unfinished,
}

/// The first fault of a text as a trace of a job.
#[derive(Clone, Copy, Debug, PartialEq, Eq)]
pub struct TraceFault {
    /// The row of the text, counted from 1; 0 for a text that is too long.
    pub row: u64,
    pub code: TraceCode,
}

/// Why a trace is refused.
pub type TraceRefusal = Refusal<TraceFault>;

/// The fault of a text that was not read to its end, since it has more than 16 MiB.
pub fn trace_too_long() -> TraceFault
    ensures { result ≡ too_long }
{
    TraceFault {
        row: 0,
        code: TraceCode::TooLong,
    }
}
