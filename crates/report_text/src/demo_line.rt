//! The line of the summary of a made job.

ghost use Rattle.report_text.specs.Puts.{PrintsText, Puts};
ghost use Rattle.report_text.specs.Found.{summary_text};

use crate::fields::{Field, put_line};
use crate::pieces::{Pieces, flush};
use ptg_io::{Failed, Sink};

/// What is found about a made job that is complete.
#[derive(Clone, Copy, Debug, PartialEq, Eq)]
pub struct Summary {
    /// How many rows of tiles it has.
    pub rows: u32,
    /// How many tasks it has.
    pub tasks: u64,
    /// The sum of all elements of its collections at the end.
    pub sum: i128,
}

/// Prints the summary of a made job. On `Err` a prefix of it was written.
pub fn summary_line<O: Sink>(found: &Summary, sink: &mut O) -> Result<(), Failed>
    ensures { PrintsText O.bytes O.faults result sink.old sink.new (summary_text found.now) }
{
    let mut out = Pieces::new();
    put_summary(sink, &mut out, found)?;
    flush(sink, &mut out)
}

// Puts the summary of a made job.
fn put_summary<O: Sink>(sink: &mut O, out: &mut Pieces, found: &Summary) -> Result<(), Failed>
    ensures { Puts O.bytes O.faults result sink.old out.old sink.new out.new (summary_text found.now) }
{
    let counts = [
        Field::Number(u64::from(found.rows)),
        Field::Number(found.tasks),
        Field::Integer(found.sum),
    ];
    put_line(sink, out, b"demo", &counts)
}
