//! What the tasks of a job start from, wait for and send, as text.

ghost use Rattle.dep_iter.specs.Tasks.{IsTask};

use crate::names::{add_flow, add_place, add_task};
use dep_iter::{Matched, Source, affinity, all_tasks, data_source, flows_of, is_task, priority};
use edge_walk::{Far, ties_of};
use goal_count::goal;
use plan_core::Plan;
use ptg_base::TaskId;
use row_files::{Printed, Why};
use std::alloc::Global;
use term_core::Direction;

/// The tasks of a job in walk order, each with its goal, its priority and the place of its affinity. Below a task is a
/// line for each source of a data flow that is no task, for each edge into it, for each edge out of it, and for each
/// write-back.
pub fn shown(alloc: Global, matched: &Matched) -> Result<Printed, Why> {
    let mut text = String::new(alloc);
    let plan = matched.plan();
    for task in all_tasks(plan) {
        if !is_task(plan, &task) {
            return Err(Why("a walk that came to no task"));
        }
        add_head(&mut text, matched, &task)?;
        add_sources(&mut text, plan, &task)?;
        add_edges(&mut text, plan, &task, Direction::In)?;
        add_edges(&mut text, plan, &task, Direction::Out)?;
        add_writes(&mut text, plan, &task)?;
    }
    Ok(Printed {
        text: text.into_bytes(),
        status: 0,
    })
}

// The task with its goal, its priority and the place of its affinity.
fn add_head(text: &mut String, matched: &Matched, task: &TaskId) -> Result<(), Why>
    requires { IsTask matched.now task.now }
{
    let plan = matched.plan();
    add_task(text, plan, task)?;
    write!(text, " goal {}", goal(matched, task))?;
    write!(text, " priority {} at ", priority(plan, task))?;
    add_place(text, plan, &affinity(plan, task))?;
    text.push('\n')?;
    Ok(())
}

// A line for each data flow whose source is no task.
fn add_sources(text: &mut String, plan: &Plan, task: &TaskId) -> Result<(), Why>
    requires { IsTask plan.now task.now }
{
    for number in 0..flows_of(plan, task).len() as u8 {
        add_source(text, plan, task, number)?;
    }
    Ok(())
}

// Adds where the tile of a data flow comes from.
fn add_source(text: &mut String, plan: &Plan, task: &TaskId, number: u8) -> Result<(), Why>
    requires { IsTask plan.now task.now }
{
    let Some(flow) = flows_of(plan, task).get(number as usize) else {
        return Ok(());
    };
    if flow.kind.is_control() {
        return Ok(());
    }
    let source = data_source(plan, task, number);
    if let Source::Task(_) = source {
        return Ok(());
    }
    text.push_str("  ")?;
    add_flow(text, plan, task.class(), number)?;
    text.push_str(" <- ")?;
    match source {
        Source::Place(place) => add_place(text, plan, &place)?,
        Source::New => text.push_str("NEW")?,
        Source::Null => text.push_str("NULL")?,
        _ => text.push_str("nothing")?,
    }
    text.push('\n')?;
    Ok(())
}

// A line for each edge into the task, or for each edge out of it.
fn add_edges(text: &mut String, plan: &Plan, task: &TaskId, direction: Direction) -> Result<(), Why>
    requires { IsTask plan.now task.now }
{
    let arrow = match direction {
        Direction::In => " <- ",
        Direction::Out => " -> ",
    };
    for tie in ties_of(plan, task, direction) {
        if let Far::Flow(other, flow) = &tie.far {
            text.push_str("  ")?;
            add_flow(text, plan, task.class(), tie.flow)?;
            text.push_str(arrow)?;
            add_flow(text, plan, other.class(), *flow)?;
            text.push(' ')?;
            add_task(text, plan, other)?;
            text.push('\n')?;
        }
    }
    Ok(())
}

// A line for each write-back of the task.
fn add_writes(text: &mut String, plan: &Plan, task: &TaskId) -> Result<(), Why>
    requires { IsTask plan.now task.now }
{
    for tie in ties_of(plan, task, Direction::Out) {
        if let Far::Place(place) = &tie.far {
            text.push_str("  ")?;
            add_flow(text, plan, task.class(), tie.flow)?;
            text.push_str(" -> ")?;
            add_place(text, plan, place)?;
            text.push('\n')?;
        }
    }
    Ok(())
}
