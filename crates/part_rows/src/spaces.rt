//! The spaces of a job's classes: how many values a range has, and whether a class has a task.

use crate::names::add_name;
use dep_iter::is_task;
use job_stages::JobVerdict;
use plan_core::Plan;
use ptg_base::{MOST_PARAMS, TaskId, Text};
use range_space::{SpanFault, steps_of};
use row_files::{Printed, Why};
use std::alloc::Global;
use term_core::{ClassSpace, Def, Range};

// At most this many values of a range are shown.
const SHOWN: usize = 6;

/// For each class, how many values the range of its first definition has, and the first six of them. The job need not
/// be consistent.
pub fn ranges(alloc: Global, verdict: &JobVerdict) -> Result<Printed, Why> {
    let plan = plan_of(verdict)?;
    let mut text = String::new(alloc);
    for (class, space) in plan.classes.as_slice().iter().zip(plan.spaces.as_slice()) {
        add_name(&mut text, &class.name)?;
        add_first(&mut text, space)?;
        text.push('\n')?;
    }
    Ok(Printed {
        text: text.into_bytes(),
        status: 0,
    })
}

/// Whether the class with this number has a task with these parameters: `yes` or `no`.
pub fn has_task(
    alloc: Global,
    verdict: &JobVerdict,
    class: &Text,
    params: &[Text],
) -> Result<Printed, Why> {
    let plan = plan_of(verdict)?;
    let class = u32::try_from(number(class)?).map_err(|_| Why("no number of a class"))?;
    let mut numbers = Vec::new(alloc);
    for param in params {
        numbers.push(number(param)?)?;
    }
    if numbers.len() > MOST_PARAMS {
        return Err(Why("more parameters than a class can have"));
    }
    let task = TaskId::new(class, numbers.as_slice());
    let answer = if is_task(plan, &task) { "yes" } else { "no" };
    Ok(Printed {
        text: format!(in alloc; "{answer}\n")?.into_bytes(),
        status: 0,
    })
}

// The plan of a job, consistent or not.
fn plan_of(verdict: &JobVerdict) -> Result<&Plan, Why> {
    match verdict {
        JobVerdict::Consistent(matched, _) => Ok(matched.plan()),
        JobVerdict::Inconsistent(plan, _) => Ok(plan),
        _ => Err(Why("a job without a plan")),
    }
}

// Adds the values of the first definition of a class, if it is a range.
fn add_first(text: &mut String, space: &ClassSpace) -> Result<(), Why> {
    match space.defs.as_slice().first() {
        Some(Def::Span(range)) => add_range(text, range),
        _ => Err(Why("a class whose first definition is no range")),
    }
}

// Adds how many values a range has and the first of them, or why it has none.
fn add_range(text: &mut String, range: &Range) -> Result<(), Why> {
    match steps_of(range, &[]) {
        Ok(steps) => {
            write!(text, " count {}", steps.count())?;
            for v in steps.values().take(SHOWN) {
                write!(text, " {v}")?;
            }
        }
        Err(SpanFault::ZeroStep) => text.push_str(" zero step")?,
        Err(SpanFault::Expr(fault)) => write!(text, " {fault:?}")?,
    }
    Ok(())
}

// A word as a number.
fn number(word: &Text) -> Result<i64, Why> {
    let text = str::from_utf8(word.bytes()).map_err(|_| Why("a number that is no text"))?;
    text.parse::<i64>().map_err(|_| Why("no number"))
}
