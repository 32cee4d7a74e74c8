//! Tasks, flows and places by their names.

use plan_core::Plan;
use ptg_base::{Place, TaskId, Text};
use row_files::Why;

// Why a class could not be named.
const NO_CLASS: Why = Why("a class that does not exist");

/// A task, as `T(0,1)`.
pub fn add_task(text: &mut String, plan: &Plan, task: &TaskId) -> Result<(), Why> {
    let Some(class) = plan.classes.as_slice().get(task.class() as usize) else {
        return Err(NO_CLASS);
    };
    add_name(text, &class.name)?;
    add_numbers(text, task.params())
}

/// The name of a flow of a class.
pub fn add_flow(text: &mut String, plan: &Plan, class: u32, flow: u8) -> Result<(), Why> {
    let Some(class) = plan.classes.as_slice().get(class as usize) else {
        return Err(NO_CLASS);
    };
    let Some(flow) = class.flows.as_slice().get(flow as usize) else {
        return Err(Why("a flow that does not exist"));
    };
    add_name(text, &flow.name)
}

/// A place, as `D(3)`, or `D(3,4)` in a collection of two dimensions.
pub fn add_place(text: &mut String, plan: &Plan, place: &Place) -> Result<(), Why> {
    let Some(coll) = plan.colls.as_slice().get(place.coll as usize) else {
        return Err(Why("a collection that does not exist"));
    };
    add_name(text, &coll.name)?;
    match coll.cols {
        None => add_numbers(text, &[place.i]),
        Some(_) => add_numbers(text, &[place.i, place.j]),
    }
}

/// Adds a name.
pub fn add_name(text: &mut String, name: &Text) -> Result<(), Why> {
    let name = str::from_utf8(name.bytes()).map_err(|_| Why("a name that is no text"))?;
    text.push_str(name)?;
    Ok(())
}

// Adds numbers in parentheses.
fn add_numbers(text: &mut String, numbers: &[i64]) -> Result<(), Why> {
    text.push('(')?;
    for (at, number) in numbers.iter().enumerate() {
        if at > 0 {
            text.push(',')?;
        }
        write!(text, "{number}")?;
    }
    text.push(')')?;
    Ok(())
}
