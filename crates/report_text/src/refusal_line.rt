//! The line of a refusal.

ghost use Rattle.std.specs.Prelude.{◌≡◌};
ghost use Rattle.report_text.specs.Puts.{PrintsText, Puts};
ghost use Rattle.report_text.specs.Refusal.{flow_text, inconsistent_line, refusal_text};

use crate::codes::{data_code, jdf_code, match_code, trace_code};
use crate::fields::{Field, put_line};
use crate::pieces::{Pieces, flush};
use coll_data::DataFault;
use edge_match::MatchFault;
use jdf_lex::JdfFault;
use ptg_io::{Failed, Sink};
use trace_core::TraceFault;

/// A refusal, as it is printed.
#[derive(Clone, Copy)]
pub enum Line<'a> {
    /// The arguments form no valid command.
    Usage,
    /// The JDF is refused.
    Jdf(JdfFault),
    /// The data file is refused.
    Data(DataFault),
    /// The job is not consistent: its fault, the name of the fault's class, and that of its flow, if the fault is at a
    /// flow.
    Match(&'a MatchFault, &'a [u8], &'a [u8]),
    /// The file with this name could not be read.
    Unread(&'a [u8]),
    /// The tiles that were to be reserved take too much memory.
    Preload,
    /// The trace is refused.
    Trace(TraceFault),
}

/// Prints a refusal. On `Err` a prefix of it was written.
pub fn refusal<O: Sink>(line: &Line, sink: &mut O) -> Result<(), Failed>
    ensures { PrintsText O.bytes O.faults result sink.old sink.new (refusal_text line.now) }
{
    let mut out = Pieces::new();
    put_refusal(sink, &mut out, line)?;
    flush(sink, &mut out)
}

// Puts the text of a refusal.
fn put_refusal<O: Sink>(sink: &mut O, out: &mut Pieces, line: &Line) -> Result<(), Failed>
    ensures { Puts O.bytes O.faults result sink.old out.old sink.new out.new (refusal_text line.now) }
{
    match line {
        Line::Usage => put_line(sink, out, b"usage", &[]),
        Line::Jdf(fault) => {
            let fields = [
                Field::Number(u64::from(fault.spot.line)),
                Field::Number(u64::from(fault.spot.column)),
                Field::Word(jdf_code(fault.code)),
            ];
            put_line(sink, out, b"refused", &fields)
        }
        Line::Data(fault) => {
            let fields = [Field::Number(fault.row), Field::Word(data_code(fault.code))];
            put_line(sink, out, b"data", &fields)
        }
        Line::Match(fault, class, flow) => put_inconsistent(sink, out, fault, class, flow),
        Line::Unread(name) => put_line(sink, out, b"unread", &[Field::Word(name)]),
        Line::Preload => put_line(sink, out, b"preload", &[]),
        Line::Trace(fault) => {
            let fields = [
                Field::Number(fault.row),
                Field::Word(trace_code(fault.code)),
            ];
            put_line(sink, out, b"trace", &fields)
        }
    }
}

// Puts the line of a job that is not consistent.
fn put_inconsistent<'a, O: Sink>(
    sink: &mut O,
    out: &mut Pieces,
    fault: &'a MatchFault,
    class: &'a [u8],
    flow: &'a [u8],
) -> Result<(), Failed>
    ensures { Puts O.bytes O.faults result sink.old out.old sink.new out.new
        (inconsistent_line fault.now class.now flow.now) }
{
    let fields = [
        Field::Word(match_code(fault.code)),
        Field::Word(class),
        Field::Integers(fault.numbers.as_slice()),
        Field::Word(flow_text(fault.flow, flow)),
    ];
    put_line(sink, out, b"inconsistent", &fields)
}

// The flow of a fault: its name, or `-` if the fault is at no flow.
fn flow_text(flow: Option<u8>, name: &[u8]) -> &[u8]
    ensures { result.now ≡ flow_text flow name.now }
{
    match flow {
        None => b"-",
        Some(_) => name,
    }
}
