//! The answer of a job that was run by ranks, after the line of the ranks.

ghost use Rattle.report_text.specs.Puts.{PrintsText, Puts};
ghost use Rattle.report_text.specs.Ranked.{ranked_head, ranked_text};

use crate::answer::put_outcome;
use crate::fields::{Field, put_line};
use crate::pieces::{Pieces, flush};
use flow_meaning::Outcome;
use plan_core::Plan;
use ptg_io::{Failed, Sink};

/// What is found about a job that was run by ranks.
#[derive(Drop)]
pub struct RankedAnswer {
    /// How many ranks there were.
    pub ranks: u32,
    /// How many messages they sent one another.
    pub messages: u64,
    /// The answer of the job.
    pub outcome: Outcome,
}

/// Prints the line of the ranks, which goes out as a piece of its own, and the answer of the job. On `Err` a prefix of
/// both was written.
pub fn ranked_answer<O: Sink>(plan: &Plan, found: &RankedAnswer, sink: &mut O) -> Result<(), Failed>
    ensures { PrintsText O.bytes O.faults result sink.old sink.new (ranked_text plan.now found.now) }
{
    let mut out = Pieces::new();
    put_ranked(sink, &mut out, plan, found)?;
    flush(sink, &mut out)
}

// Puts the line of the ranks and the answer.
fn put_ranked<O: Sink>(
    sink: &mut O,
    out: &mut Pieces,
    plan: &Plan,
    found: &RankedAnswer,
) -> Result<(), Failed>
    ensures { Puts O.bytes O.faults result sink.old out.old sink.new out.new (ranked_text plan.now found.now) }
{
    put_head(sink, out, found)?;
    put_outcome(sink, out, plan, &found.outcome)
}

// Puts the line of the ranks, and writes it out.
fn put_head<O: Sink>(sink: &mut O, out: &mut Pieces, found: &RankedAnswer) -> Result<(), Failed>
    ensures { Puts O.bytes O.faults result sink.old out.old sink.new out.new (ranked_head found.now) }
{
    put_counts(sink, out, found)?;
    flush(sink, out)
}

// Puts the line of the ranks.
fn put_counts<O: Sink>(sink: &mut O, out: &mut Pieces, found: &RankedAnswer) -> Result<(), Failed>
    ensures { Puts O.bytes O.faults result sink.old out.old sink.new out.new (ranked_head found.now) }
{
    let counts = [
        Field::Number(u64::from(found.ranks)),
        Field::Number(found.messages),
    ];
    put_line(sink, out, b"ranks", &counts)
}
