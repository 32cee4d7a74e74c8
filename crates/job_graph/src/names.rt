//! Classes, flows, tasks and places by their names.

use crate::failure::Failure;
use crate::lines::Lines;
use plan_core::Plan;
use ptg_base::{Place, TaskId, Text};
use std::io::Write;

// A name as text, or `-` for none and for one that is no text.
fn shown(name: &[u8]) -> &str {
    if name.is_empty() {
        return "-";
    }
    str::from_utf8(name).unwrap_or("-")
}

/// A name, or `-` for an empty one and for one that is no text.
pub fn name_of(name: &Text) -> &str {
    shown(name.bytes())
}

/// The name of a class, or `-` if there is none.
pub fn class_name(plan: &Plan, class: u32) -> &str {
    shown(plan_core::class_name(plan, class))
}

/// The name of a flow of a class, or `-` if there is none.
pub fn flow_name(plan: &Plan, class: u32, flow: u8) -> &str {
    shown(plan_core::flow_name(plan, class, Some(flow)))
}

/// Adds the class and the parameters of a task.
pub fn add_task<W: Write + Drop>(
    lines: &mut Lines<W>,
    plan: &Plan,
    task: &TaskId,
) -> Result<(), Failure> {
    lines.field(&class_name(plan, task.class()))?;
    for value in task.params() {
        lines.field(value)?;
    }
    Ok(())
}

/// Adds the collection and the indices of a place.
pub fn add_place<W: Write + Drop>(
    lines: &mut Lines<W>,
    plan: &Plan,
    place: &Place,
) -> Result<(), Failure> {
    let Some(shape) = plan.colls.as_slice().get(place.coll as usize) else {
        return lines.field(&"-");
    };
    lines.field(&name_of(&shape.name))?;
    lines.field(&place.i)?;
    match shape.cols {
        Some(_) => lines.field(&place.j),
        None => Ok(()),
    }
}
