//! The lines of a task: itself, its affinity, and its ties in both directions.

ghost use Rattle.dep_iter.specs.Tasks.{IsTask};

use crate::dependence::{InText, class_of, in_text};
use crate::failure::Failure;
use crate::ill::ill_dependence;
use crate::lines::Lines;
use crate::names::{add_place, add_task, class_name, flow_name};
use crate::no_task::add_no_task;
use crate::request::TaskName;
use dep_iter::{affinity, flows_of, is_task, locals_of, well_task};
use edge_walk::{Far, Tie, ties_of};
use jdf_tree::{FlowTree, Jdf};
use plan_core::Plan;
use ptg_base::{MOST_PARAMS, TaskId};
use std::io::Write;
use term_core::{Direction, FlowKind};

/// The lines of all tasks, in walk order.
pub fn all_tasks<W: Write + Drop>(
    lines: &mut Lines<W>,
    tree: &Jdf,
    plan: &Plan,
) -> Result<(), Failure> {
    for task in dep_iter::all_tasks(plan) {
        if is_task(plan, &task) {
            add_lines(lines, tree, plan, &task)?;
        }
    }
    Ok(())
}

/// The lines of one task, or why the job has no such task.
pub fn one_task<W: Write + Drop>(
    lines: &mut Lines<W>,
    tree: &Jdf,
    plan: &Plan,
    name: &TaskName,
) -> Result<(), Failure> {
    let Some(class) = class_named(plan, name.class) else {
        return Err(Failure::Usage);
    };
    let params = name.params.as_slice();
    if params.len() > MOST_PARAMS {
        return Err(Failure::Usage);
    }
    let task = TaskId::new(class, params);
    if is_task(plan, &task) {
        add_lines(lines, tree, plan, &task)
    } else {
        add_no_task(lines, tree, plan, &task)
    }
}

// The number of the class of this name, if there is one.
fn class_named(plan: &Plan, name: &str) -> Option<u32> {
    for class in 0..plan.classes.len() {
        if class_name(plan, class as u32) == name {
            return Some(class as u32);
        }
    }
    None
}

// Adds the lines of a task.
fn add_lines<W: Write + Drop>(
    lines: &mut Lines<W>,
    tree: &Jdf,
    plan: &Plan,
    task: &TaskId,
) -> Result<(), Failure>
    requires { IsTask plan.now task.now }
{
    lines.begin("task")?;
    add_task(lines, plan, task)?;
    lines.end()?;
    add_affinity(lines, tree, plan, task)?;
    add_ill(lines, tree, plan, task)?;
    for tie in ties_of(plan, task, Direction::In) {
        add_tie(lines, tree, plan, task, (Direction::In, &tie))?;
    }
    for tie in ties_of(plan, task, Direction::Out) {
        add_tie(lines, tree, plan, task, (Direction::Out, &tie))?;
    }
    Ok(())
}

// The line of the place of its affinity.
fn add_affinity<W: Write + Drop>(
    lines: &mut Lines<W>,
    tree: &Jdf,
    plan: &Plan,
    task: &TaskId,
) -> Result<(), Failure>
    requires { IsTask plan.now task.now }
{
    let Some(class) = class_of(tree, task.class()) else {
        return Ok(());
    };
    lines.begin("at")?;
    lines.field(&class.affinity.spot.line)?;
    add_place(lines, plan, &affinity(plan, task))?;
    lines.end()
}

// The line of a task that needs an expression without a value.
fn add_ill<W: Write + Drop>(
    lines: &mut Lines<W>,
    tree: &Jdf,
    plan: &Plan,
    task: &TaskId,
) -> Result<(), Failure>
    requires { IsTask plan.now task.now }
{
    let Err(ill) = well_task(plan, task) else {
        return Ok(());
    };
    lines.begin("ill")?;
    match ill.flow {
        Some(flow) => {
            lines.field(&flow_name(plan, task.class(), flow))?;
            if let Some(it) = ill_in_text(tree, plan, task, flow) {
                lines.field(&it.number)?;
                lines.field(&it.line)?;
            }
        }
        None => lines.field(&"-")?,
    }
    lines.end()
}

// Where in the text the dependence of a flow is that needs an expression without a value.
fn ill_in_text(tree: &Jdf, plan: &Plan, task: &TaskId, flow: u8) -> Option<InText>
    requires { IsTask plan.now task.now }
{
    let number = flow as usize;
    let locals = locals_of(plan, task);
    let (way, dependence) = ill_dependence(flows_of(plan, task).get(number)?, locals.as_slice())?;
    let class = class_of(tree, task.class())?;
    in_text(class.flows.as_slice().get(number)?, way, dependence)
}

// The line of a tie in one direction.
fn add_tie<W: Write + Drop>(
    lines: &mut Lines<W>,
    tree: &Jdf,
    plan: &Plan,
    task: &TaskId,
    (way, tie): (Direction, &Tie),
) -> Result<(), Failure> {
    let Some(class) = class_of(tree, task.class()) else {
        return Ok(());
    };
    let Some(flow) = class.flows.as_slice().get(tie.flow as usize) else {
        return Ok(());
    };
    lines.begin(match way {
        Direction::In => "in",
        Direction::Out => "out",
    })?;
    lines.field(&flow_name(plan, task.class(), tie.flow))?;
    lines.field(&kind_name(flow))?;
    if let Some(it) = in_text(flow, way, tie.dependence) {
        lines.field(&it.number)?;
        lines.field(&it.line)?;
    }
    add_far(lines, plan, &tie.far)?;
    lines.end()
}

// The word of a flow's kind.
fn kind_name(flow: &FlowTree) -> &'static str {
    match flow.kind {
        FlowKind::Read => "READ",
        FlowKind::Write => "WRITE",
        FlowKind::Rw => "RW",
        FlowKind::Ctl => "CTL",
    }
}

// What a dependence names.
fn add_far<W: Write + Drop>(lines: &mut Lines<W>, plan: &Plan, far: &Far) -> Result<(), Failure> {
    match far {
        Far::Flow(task, flow) => {
            lines.field(&"flow")?;
            lines.field(&flow_name(plan, task.class(), *flow))?;
            add_task(lines, plan, task)
        }
        Far::Place(place) => {
            lines.field(&"place")?;
            add_place(lines, plan, place)
        }
        Far::New => lines.field(&"new"),
        Far::Null => lines.field(&"null"),
    }
}
