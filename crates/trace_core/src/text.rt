//! The text of a trace.

ghost use Rattle.std.specs.Prelude.{◌≡◌, ◌++◌, ◌∷◌, IfOk, OnOk, flat_map};
ghost use Rattle.std.specs.List.{AllByRecursion};
ghost use Rattle.std.specs.Fmt.{signed_decimal};
ghost use Rattle.dep_iter.specs.Tasks.{IsTask};
ghost use Rattle.trace_core.specs.Text as spelling;
ghost use Rattle.trace_core.specs.Text.{row_of, head_line, row_line};

use itoa::Buffer;
use plan_core::Plan;
use ptg_base::{OutOfMemory, Seq, TaskId, Text};
use std::alloc::Global;

// Appends a comma and a number.
fn put_number(out: &mut Seq<u8>, n: i64) -> Result<(), OutOfMemory>
    ensures { OnOk result (out.new ≡ out.old ++ 44 ∷ signed_decimal n) }
{
    let mut buffer = Buffer::new();
    out.append(b",")?;
    out.append(buffer.format(n).as_bytes())
}

// Appends numbers, a comma before each.
fn put_numbers(out: &mut Seq<u8>, numbers: &[i64]) -> Result<(), OutOfMemory>
    ensures { OnOk result (out.new ≡ out.old ++ flat_map (λ n. 44 ∷ signed_decimal n) numbers.now) }
{
    for n in numbers {
        put_number(out, *n)?;
    }
    Ok(())
}

// Appends the first line of a text with this many rows.
fn put_head(out: &mut Seq<u8>, rows: usize) -> Result<(), OutOfMemory>
    ensures { OnOk result (out.new ≡ out.old ++ head_line rows) }
{
    let mut buffer = Buffer::new();
    out.append(b"trace,")?;
    out.append(buffer.format(rows).as_bytes())?;
    out.append(b"\n")
}

// Appends the row of a task of the job.
fn put_row(out: &mut Seq<u8>, plan: &Plan, t: &TaskId) -> Result<(), OutOfMemory>
    requires { IsTask plan.now t.now }
    ensures { OnOk result (out.new ≡ out.old ++ row_line (row_of plan.now t.now)) }
{
    out.append(b"ran,")?;
    out.append(plan.class(t.class()).name.bytes())?;
    put_numbers(out, t.params())?;
    out.append(b"\n")?;
    Ok(())
}

/// The text of these tasks of a job in this order. It may be longer than a trace that can be read.
pub fn trace_text(alloc: Global, plan: &Plan, list: &[TaskId]) -> Result<Text, OutOfMemory>
    requires { AllByRecursion (IsTask plan.now) list.now }
    ensures { IfOk result (λ text. text ≡ spelling.trace_text plan.now list.now) }
{
    let mut out = Seq::new(alloc);
    put_head(&mut out, list.len())?;
    for t in list {
        put_row(&mut out, plan, t)?;
    }
    let text = Text::of(alloc, out.as_slice())?;
    Ok(text)
}
