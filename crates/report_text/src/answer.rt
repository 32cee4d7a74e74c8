//! The text of an answer.

ghost use Rattle.report_text.specs.Puts.{PrintsText, Puts};
ghost use Rattle.report_text.specs.Printed.{complete_line, consistent_text, first_line, outcome_text, row_lines, stalled_line};

use crate::fields::{Field, put_line};
use crate::pieces::{Pieces, flush};
use crate::row_list::put_list;
use crate::tiles::put_colls;
use flow_meaning::Outcome;
use plan_core::Plan;
use ptg_io::{Failed, Sink};

/// Prints the answer of a job. On `Err` a prefix of it was written.
pub fn report<O: Sink>(plan: &Plan, outcome: &Outcome, sink: &mut O) -> Result<(), Failed>
    ensures { PrintsText O.bytes O.faults result sink.old sink.new (outcome_text plan.now outcome.now) }
{
    let mut out = Pieces::new();
    put_outcome(sink, &mut out, plan, outcome)?;
    flush(sink, &mut out)
}

/// Prints that a job is consistent, with its numbers of tasks, of edges and of write-backs. On `Err` a prefix of it was
/// written.
pub fn consistent<O: Sink>(tasks: u64, edges: u64, writes: u64, sink: &mut O) -> Result<(), Failed>
    ensures { PrintsText O.bytes O.faults result sink.old sink.new (consistent_text tasks edges writes) }
{
    let mut out = Pieces::new();
    let counts = [
        Field::Number(tasks),
        Field::Number(edges),
        Field::Number(writes),
    ];
    put_line(sink, &mut out, b"consistent", &counts)?;
    flush(sink, &mut out)
}

/// Puts the text of an answer.
pub fn put_outcome<O: Sink>(
    sink: &mut O,
    out: &mut Pieces,
    plan: &Plan,
    outcome: &Outcome,
) -> Result<(), Failed>
    ensures { Puts O.bytes O.faults result sink.old out.old sink.new out.new (outcome_text plan.now outcome.now) }
{
    put_first_line(sink, out, outcome)?;
    put_rows(sink, out, plan, outcome)
}

// Puts what became of the job, with its counts.
fn put_first_line<O: Sink>(sink: &mut O, out: &mut Pieces, outcome: &Outcome) -> Result<(), Failed>
    ensures { Puts O.bytes O.faults result sink.old out.old sink.new out.new (first_line outcome.now) }
{
    match outcome {
        Outcome::Complete(count, _) => put_complete(sink, out, *count),
        Outcome::Trapped(rows) => {
            put_line(sink, out, b"trapped", &[Field::Number(rows.len() as u64)])
        }
        Outcome::Stalled(ran, total, _) => put_stalled(sink, out, *ran, *total),
    }
}

/// Puts the line of a complete job.
pub fn put_complete<O: Sink>(sink: &mut O, out: &mut Pieces, tasks: u64) -> Result<(), Failed>
    ensures { Puts O.bytes O.faults result sink.old out.old sink.new out.new (complete_line tasks) }
{
    put_line(sink, out, b"complete", &[Field::Number(tasks)])
}

/// Puts the line of a job that stalled.
pub fn put_stalled<O: Sink>(
    sink: &mut O,
    out: &mut Pieces,
    ran: u64,
    tasks: u64,
) -> Result<(), Failed>
    ensures { Puts O.bytes O.faults result sink.old out.old sink.new out.new (stalled_line ran tasks) }
{
    let counts = [Field::Number(ran), Field::Number(tasks)];
    put_line(sink, out, b"stalled", &counts)
}

// Puts the lines of the tiles, or of the tasks that trapped or wait.
fn put_rows<O: Sink>(
    sink: &mut O,
    out: &mut Pieces,
    plan: &Plan,
    outcome: &Outcome,
) -> Result<(), Failed>
    ensures { Puts O.bytes O.faults result sink.old out.old sink.new out.new (row_lines plan.now outcome.now) }
{
    match outcome {
        Outcome::Complete(_, given) => put_colls(sink, out, given.colls()),
        Outcome::Trapped(rows) => put_list(sink, out, plan, rows.as_slice()),
        Outcome::Stalled(_, _, rows) => put_list(sink, out, plan, rows.as_slice()),
    }
}
