//! The verdict on a text as a trace of a job.

ghost use Rattle.std.specs.Prelude.{◌≡◌, ◌⊎◌, List, Ok, Err, IfErr, IfOk, IsErr, OnOk, map};
ghost use Rattle.std.specs.List.{AllByRecursion};
ghost use Rattle.ptg_base.specs.Lists.{HasNoRepeats};
ghost use Rattle.ptg_base.specs.Task.{Task};
ghost use Rattle.ptg_base.specs.declared.refusal.Refusal.TheVariants.{Fault};
ghost use Rattle.ptg_base.specs.declared.refusal.Refusal.TheVariants as refusals;
ghost use Rattle.plan_data.specs.Fit.{DataFit};
ghost use Rattle.dep_iter.specs.Tasks.{IsTask};
ghost use Rattle.flow_meaning.specs.Answer as meaning;
ghost use Rattle.trace_core.specs.Faults.{IsFaultOfRow, IsTraceFault, IsUnfinished};
ghost use Rattle.flow_meaning.specs.Order.{IsWholeOrder};
ghost use Rattle.trace_core.specs.Reading.{IsListOf, IsReadAs};
ghost use Rattle.trace_core.specs.Text.{TraceRow, row_of};
ghost use Rattle.trace_core.specs.declared.fault.TraceFault.{TraceFault as TraceFaultValue};
ghost use Rattle.trace_replay.specs.Replaying.{IsVerdictOn};

use crate::running::{judge_end, run_in_order};
use coll_data::Given;
use dep_iter::Matched;
use flow_meaning::Outcome;
use ptg_base::{OutOfMemory, Refusal, TaskId};
use std::alloc::Global;
use trace_core::{TraceCode, TraceFault, TraceRefusal, read_rows};

// The verdict on rows, from the tasks that were read from them: those of all rows, or of the rows before the one with
// this fault.
fn judge_tasks(
    alloc: Global,
    m: &Matched,
    given: Given,
    tasks: &[TaskId],
    fault: Option<TraceFault>,
) -> Result<Result<Outcome, TraceFault>, OutOfMemory>
    requires tasks { AllByRecursion (IsTask m.now) tasks.now }
    requires once { HasNoRepeats tasks.now }
    requires fit { DataFit m.now given }
    ensures { IfOk result (λ v.
        (es : List TraceRow) → IsReadAs m.now es tasks.now fault → IsVerdictOn m.now given es tasks.now v) }
{
    m.plan_is_consistent();
    let (world, early) = run_in_order(alloc, m, given, tasks)?;
    if let Some(index) = early {
        return Ok(Err(TraceFault {
            row: index as u64 + 2,
            code: TraceCode::TooEarly,
        }));
    }
    if let Some(fault) = fault {
        return Ok(Err(fault));
    }
    let unfinished = TraceFault {
        row: tasks.len() as u64 + 2,
        code: TraceCode::Unfinished,
    };
    let verdict = judge_end(world, m, unfinished)?;
    Ok(verdict)
}

// The result for a text that could not be read.
fn unread(refusal: TraceRefusal) -> Result<Result<Outcome, TraceFault>, OutOfMemory>
    ensures fault { (f : TraceFaultValue) → refusal ≡ Fault f → result ≡ Ok (Err f) }
    ensures memory { refusal ≡ refusals.OutOfMemory → IsErr result }
{
    match refusal {
        Refusal::Fault(fault) => Ok(Err(fault)),
        Refusal::OutOfMemory => Err(OutOfMemory),
    }
}

/// Runs the tasks of a list in its order, on one thread. Returns the answer of the job if the list is a whole order.
/// Otherwise returns the first fault of the list, with the row that its task would have in a trace.
pub fn replay(
    alloc: Global,
    m: &Matched,
    given: Given,
    list: &[TaskId],
) -> Result<Outcome, TraceRefusal>
    requires tasks { AllByRecursion (IsTask m.now) list.now }
    requires once { HasNoRepeats list.now }
    requires fit { DataFit m.now given }
    ensures answer { IfOk result (λ outcome. outcome ≡ meaning.answer m.now given) }
    ensures whole { OnOk result (IsWholeOrder m.now given list.now) }
    ensures fault { (f : TraceFaultValue) → result ≡ Err (Fault f)
        → IsFaultOfRow m.now given (map (row_of m.now) list.now) f
        ⊎ IsUnfinished m.now given (map (row_of m.now) list.now) f }
{
    let verdict = judge_tasks(alloc, m, given, list, None)?;
    match verdict {
        Ok(outcome) => Ok(outcome),
        Err(fault) => Err(Refusal::Fault(fault)),
    }
}

/// The verdict on a text as a trace of a job: its first fault, or the answer of the job if it is the text of a whole
/// order.
pub fn judge_trace(
    alloc: Global,
    m: &Matched,
    given: Given,
    bytes: &[u8],
) -> Result<Result<Outcome, TraceFault>, OutOfMemory>
    requires { DataFit m.now given }
    // A fault that is named is the first one of the text.
    ensures fault { IfOk result (λ v. IfErr v (λ f. IsTraceFault m.now given bytes.now f)) }
    // A text with a fault is refused with its first one, unless memory runs out.
    ensures refused { (f : TraceFaultValue) → IsTraceFault m.now given bytes.now f → IfOk result (λ v. v ≡ Err f) }
    // A text that is accepted is that of a whole order within 16 MiB, and the answer is that of the job.
    ensures whole { IfOk result (λ v.
        OnOk v ((tasks : List Task) × IsListOf m.now bytes.now tasks × IsWholeOrder m.now given tasks)) }
    ensures answer { IfOk result (λ v. IfOk v (λ outcome. outcome ≡ meaning.answer m.now given)) }
{
    m.plan_is_consistent();
    let reading = match read_rows(alloc, m, bytes) {
        Ok(reading) => reading,
        Err(refusal) => return unread(refusal),
    };
    let verdict = judge_tasks(alloc, m, given, reading.tasks.as_slice(), reading.fault)?;
    Ok(verdict)
}
