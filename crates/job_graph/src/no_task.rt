//! Why a job has no task: the first definition of the class that does not allow it.

use crate::dependence::class_of;
use crate::failure::Failure;
use crate::lines::Lines;
use crate::names::{add_task, name_of};
use jdf_tree::{DefTree, Jdf};
use plan_core::Plan;
use ptg_base::{MOST_LOCALS, TaskId};
use range_space::{Numbers, param_value, steps_of};
use std::io::Write;
use term_core::{ClassSpace, Def, Range, eval};

/// The lines of a task that the job does not have: itself, and the first definition that does not allow it.
pub fn add_no_task<W: Write + Drop>(
    lines: &mut Lines<W>,
    tree: &Jdf,
    plan: &Plan,
    task: &TaskId,
) -> Result<(), Failure> {
    lines.begin("none")?;
    add_task(lines, plan, task)?;
    lines.end()?;
    let Some(class) = class_of(tree, task.class()) else {
        return Ok(());
    };
    let Some(space) = plan.spaces.as_slice().get(task.class() as usize) else {
        return Ok(());
    };
    if space.defs.len() > MOST_LOCALS || space.params.as_slice().len() != task.params().len() {
        return Ok(());
    }
    let mut locals = Numbers::<MOST_LOCALS>::new();
    for (definition, named) in space.defs.as_slice().iter().zip(class.defs.as_slice()) {
        match value_of(lines, space, definition, named, (task, locals.as_slice()))? {
            Some(value) if locals.as_slice().len() < MOST_LOCALS => locals.push(value),
            _ => return Ok(()),
        }
    }
    Ok(())
}

// The value of a definition in a task with these locals before it. If there is none, adds the line that says why.
fn value_of<W: Write + Drop>(
    lines: &mut Lines<W>,
    space: &ClassSpace,
    definition: &Def,
    named: &DefTree,
    (task, locals): (&TaskId, &[i64]),
) -> Result<Option<i64>, Failure> {
    let given = param_value(space.params.as_slice(), task.params(), locals.len());
    match definition {
        Def::Span(range) => ranged_value(lines, range, named, given, locals),
        Def::Value(e) => match eval(e, locals) {
            Ok(value) if given.is_none() || given == Some(value) => Ok(Some(value)),
            Ok(value) => {
                begin(lines, "value", named)?;
                lines.field(&value)?;
                lines.end()?;
                Ok(None)
            }
            Err(_) => without_value(lines, named),
        },
    }
}

// The value of a local that has a range: the given one, if the range has it.
fn ranged_value<W: Write + Drop>(
    lines: &mut Lines<W>,
    range: &Range,
    named: &DefTree,
    given: Option<i64>,
    locals: &[i64],
) -> Result<Option<i64>, Failure> {
    let Ok(steps) = steps_of(range, locals) else {
        return without_value(lines, named);
    };
    match given {
        Some(value) if steps.has(value) => Ok(Some(value)),
        _ => {
            begin(lines, "range", named)?;
            for part in [steps.lo, steps.hi, steps.step] {
                lines.field(&part)?;
            }
            lines.end()?;
            Ok(None)
        }
    }
}

// The line of a definition that has no value.
fn without_value<W: Write + Drop>(
    lines: &mut Lines<W>,
    named: &DefTree,
) -> Result<Option<i64>, Failure> {
    begin(lines, "faulty", named)?;
    lines.end()?;
    Ok(None)
}

// Begins a line about a definition.
fn begin<W: Write + Drop>(
    lines: &mut Lines<W>,
    word: &str,
    named: &DefTree,
) -> Result<(), Failure> {
    lines.begin(word)?;
    lines.field(&named.name.spot.line)?;
    lines.field(&name_of(&named.name.text))
}
