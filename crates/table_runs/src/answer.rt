//! The answer of a closed table, in numbers.

use dep_table::Closed;
use flow_meaning::Outcome;
use ptg_base::OutOfMemory;
use std::fmt;

/// The answer of a job in numbers.
#[derive(Clone, Copy, PartialEq, Eq)]
pub enum Answer {
    /// The run had not ended when the table was closed.
    NotQuiet,
    /// All tasks ran: how many, and the sum of all elements of the data after their write-backs.
    Complete(u64, i64),
    /// How many tasks trapped.
    Trapped(usize),
    /// How many tasks ran, how many there are, and how many wait.
    Stalled(u64, u64, usize),
}

impl fmt::Display for Answer {
    fn fmt<W: fmt::Write>(&self, f: &mut fmt::Formatter<W>) -> fmt::Result {
        match self {
            Answer::NotQuiet => write!(f, "not quiet"),
            Answer::Complete(count, sum) => write!(f, "complete {count} sum {sum}"),
            Answer::Trapped(count) => write!(f, "trapped {count}"),
            Answer::Stalled(ran, total, waits) => write!(
                f,
                "stalled {ran} of {total}, {waits} waits"
            ),
        }
    }
}

/// The answer of a closed table.
pub fn answer_of(closed: Closed) -> Result<Answer, OutOfMemory> {
    if !closed.quiet() {
        return Ok(Answer::NotQuiet);
    }
    let (outcome, _receipt) = closed.outcome()?;
    Ok(match outcome {
        Outcome::Complete(count, given) => {
            Answer::Complete(count, i64::try_from(given.element_sum()).unwrap_or(-1))
        }
        Outcome::Trapped(rows) => Answer::Trapped(rows.len()),
        Outcome::Stalled(ran, total, rows) => Answer::Stalled(ran, total, rows.len()),
    })
}
