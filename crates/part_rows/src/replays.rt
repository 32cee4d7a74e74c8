//! The verdict on a text as the trace of a job, as it is printed.

ghost use Rattle.plan_data.specs.Fit.{DataFit};

use coll_data::Given;
use dep_iter::Matched;
use flow_meaning::Outcome;
use plan_core::Plan;
use ptg_base::{OutOfMemory, Refusal, Seq};
use ptg_io::{Failed, MemSink};
use report_text::{Line, refusal, report};
use row_files::{Printed, Why};
use std::alloc::Global;
use trace_core::{TraceFault, TraceRefusal, read_trace, trace_text};
use trace_replay::{judge_trace, replay};

// The status of an answer if all tasks ran.
const COMPLETE: u8 = 0;

// The status of an answer if a task trapped.
const TRAPPED: u8 = 5;

// The status of an answer if a task never ran.
const STALLED: u8 = 6;

// The status of a fault of a trace.
const TRACE_REFUSED: u8 = 11;

/// The answer of a job, if the text is that of its tasks in an order in which they may run; otherwise the text's first
/// fault.
pub fn replayed(alloc: Global, m: &Matched, given: Given, trace: &[u8]) -> Result<Printed, Why>
    requires { DataFit m.now given }
{
    let verdict = judge_trace(alloc, m, given, trace)?;
    match verdict {
        Ok(outcome) => answered(alloc, m.plan(), &outcome),
        Err(fault) => refused(alloc, fault),
    }
}

/// The text of the tasks that were read, and the result of running them in this order: the answer of the job, or the
/// list's first fault. If the text is no list of different tasks of the job, its first fault as such a list.
pub fn listed(alloc: Global, m: &Matched, given: Given, trace: &[u8]) -> Result<Printed, Why>
    requires { DataFit m.now given }
{
    let tasks = match read_trace(alloc, m, trace) {
        Ok(tasks) => tasks,
        Err(stopped) => return unread(alloc, stopped),
    };
    let written = trace_text(alloc, m.plan(), tasks.as_slice())?;
    let answer = replay(alloc, m, given, tasks.as_slice());
    let come = match answer {
        Ok(outcome) => answered(alloc, m.plan(), &outcome)?,
        Err(stopped) => unread(alloc, stopped)?,
    };
    let mut text = written.bytes().to_vec(alloc)?;
    text.extend_from_slice(come.text.as_slice())?;
    Ok(Printed {
        text,
        status: come.status,
    })
}

// What is printed of an answer, with its status.
fn answered(alloc: Global, plan: &Plan, outcome: &Outcome) -> Result<Printed, Why> {
    let mut sink = MemSink::new(alloc, Seq::new(alloc));
    let printing = report(plan, outcome, &mut sink);
    printed(alloc, printing, &sink, status_of(outcome))
}

// What a call printed, with its status.
fn printed(
    alloc: Global,
    printing: Result<(), Failed>,
    sink: &MemSink,
    status: u8,
) -> Result<Printed, Why> {
    match printing {
        Ok(()) => Ok(Printed {
            text: sink.bytes().to_vec(alloc)?,
            status,
        }),
        Err(Failed) => Err(Why("a text that was not printed")),
    }
}

// The status of an outcome.
fn status_of(outcome: &Outcome) -> u8 {
    match outcome {
        Outcome::Complete(_, _) => COMPLETE,
        Outcome::Trapped(_) => TRAPPED,
        Outcome::Stalled(_, _, _) => STALLED,
    }
}

// What is printed of what stopped a reading or a replay.
fn unread(alloc: Global, stopped: TraceRefusal) -> Result<Printed, Why> {
    match stopped {
        Refusal::Fault(fault) => refused(alloc, fault),
        Refusal::OutOfMemory => Err(Why::from(OutOfMemory)),
    }
}

// What is printed of a fault, with its status.
fn refused(alloc: Global, fault: TraceFault) -> Result<Printed, Why> {
    let mut sink = MemSink::new(alloc, Seq::new(alloc));
    let printing = refusal(&Line::Trace(fault), &mut sink);
    printed(alloc, printing, &sink, TRACE_REFUSED)
}
