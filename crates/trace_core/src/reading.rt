//! The tasks of the rows of a text.

ghost use Rattle.std.specs.Prelude.{◌≡◌, [], List, Err, None, IfOk};
ghost use Rattle.std.specs.List.{AllByRecursion};
ghost use Rattle.ptg_base.specs.Returns.{FindsOrRefuses};
ghost use Rattle.ptg_base.specs.declared.refusal.Refusal.TheVariants.{Fault};
ghost use Rattle.trace_core.specs.Reading.{IsListOf, IsReadAs, IsReadFault, IsReading, IsSpellingFault};
ghost use Rattle.trace_core.specs.Reading as reading;
ghost use Rattle.trace_core.specs.Spelling.{IsSpelled};
ghost use Rattle.trace_core.specs.Text.{TraceRow, rows_text};
ghost use Rattle.trace_core.specs.declared.fault.TraceFault.{TraceFault as TraceFaultValue};

use crate::fault::{TraceCode, TraceFault, TraceRefusal, trace_too_long};
use crate::naming::task_of;
use crate::rows::next_row;
use crate::spelling::spelled_rows;
use dep_iter::Matched;
use indexmap::IndexSet;
use plan_core::Plan;
use ptg_base::{MOST_BYTES, OutOfMemory, Refusal, Seq, TaskId};
use std::alloc::Global;

// Adds the tasks of the rows of a text, up to the first row that names no task or repeats one. Returns the code of that
// row.
pub(crate) fn add_tasks(
    plan: &Plan,
    rows: &[u8],
    tasks: &mut IndexSet<TaskId>,
) -> Result<Option<TraceCode>, OutOfMemory>
    requires { tasks.old.keys ≡ [] }
    ensures { IfOk result (λ code.
        (es : List TraceRow) → AllByRecursion IsSpelled es → rows.now ≡ rows_text es
        → IsReadAs plan.now es tasks.new.keys (reading.fault_after tasks.new.keys code)) }
{
    let mut left = rows;
    'rows: while let Some((row, later)) = next_row(left) {
        let Some(t) = task_of(plan, &row) else {
            return Ok(Some(TraceCode::UnknownTask));
        };
        let new = tasks.insert(t)?;
        if !new {
            return Ok(Some(TraceCode::RanTwice));
        }
        left = later;
    }
    Ok(None)
}

/// The tasks of the rows of a text, up to the first row that names no task of the job or repeats one.
#[derive(Drop)]
pub struct Reading {
    /// The tasks of the rows before it, or of all rows.
    pub tasks: Seq<TaskId>,
    /// The fault of that row, if there is one.
    pub fault: Option<TraceFault>,
}

// The tasks of a set, in its order.
fn tasks_of(alloc: Global, set: IndexSet<TaskId>) -> Result<Seq<TaskId>, OutOfMemory>
    ensures { IfOk result (λ tasks. tasks ≡ set.keys) }
{
    let mut tasks = Vec::new(alloc);
    for t in set {
        tasks.push(t)?;
    }
    Ok(Seq::of(tasks))
}

// The fault with this code, if there is one, of the row after those of these tasks.
fn fault_after(tasks: &Seq<TaskId>, code: Option<TraceCode>) -> Option<TraceFault>
    ensures { result ≡ reading.fault_after tasks.now code }
{
    let row = tasks.as_slice().len() as u64 + 2;
    match code {
        Some(code) => Some(TraceFault { row, code }),
        None => None,
    }
}

// The tasks of the rows of a text that is well spelled.
fn read_tasks(alloc: Global, plan: &Plan, rows: &[u8]) -> Result<Reading, OutOfMemory>
    ensures { IfOk result (λ r.
        (es : List TraceRow) → AllByRecursion IsSpelled es → rows.now ≡ rows_text es
        → IsReadAs plan.now es r.tasks r.fault) }
{
    let mut set = IndexSet::new(alloc);
    let code = add_tasks(plan, rows, &mut set)?;
    let tasks = tasks_of(alloc, set)?;
    let fault = fault_after(&tasks, code);
    Ok(Reading { tasks, fault })
}

// Refuses a text with this fault.
fn refused<T>(row: u64, code: TraceCode) -> Result<T, TraceRefusal>
    ensures { result ≡ Err (Fault (record { row = row; code = code })) }
{
    Err(Refusal::Fault(TraceFault { row, code }))
}

/// Reads the tasks of the rows of a text, if it is spelled as a trace. Otherwise the fault is that of its length or of
/// its spelling.
pub fn read_rows(alloc: Global, m: &Matched, bytes: &[u8]) -> Result<Reading, TraceRefusal>
    ensures read { IfOk result (λ r. IsReading m.now bytes.now r.tasks r.fault) }
    ensures fault { (f : TraceFaultValue) → result ≡ Err (Fault f) → IsSpellingFault bytes.now f }
{
    if bytes.len() > MOST_BYTES {
        return Err(Refusal::Fault(trace_too_long()));
    }
    let rows = match spelled_rows(bytes) {
        Ok(rows) => rows,
        Err(row) => return refused(row, TraceCode::BadTrace),
    };
    let reading = read_tasks(alloc, m.plan(), rows)?;
    Ok(reading)
}

/// Reads a text as a list of different tasks of the job. Returns the tasks, or the text's first fault as such a list.
pub fn read_trace(alloc: Global, m: &Matched, bytes: &[u8]) -> Result<Seq<TaskId>, TraceRefusal>
    ensures exact { FindsOrRefuses (λ tasks. IsReading m.now bytes.now tasks None)
        (IsReadFault m.now bytes.now) result }
    ensures found { IfOk result (λ tasks. IsListOf m.now bytes.now tasks) }
{
    let reading = match read_rows(alloc, m, bytes) {
        Ok(reading) => reading,
        Err(refusal) => return Err(refusal),
    };
    match reading.fault {
        Some(fault) => Err(Refusal::Fault(fault)),
        None => Ok(reading.tasks),
    }
}
