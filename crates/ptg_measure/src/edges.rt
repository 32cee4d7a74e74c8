//! Walks over the edges of jobs in both directions, and checks that an edge has its other end.
ghost use Rattle.std.specs.Prelude.{◌<◌, length};
ghost use Rattle.dep_iter.specs.Tasks.{IsTask};

use crate::count::{Count, Counts, Failure};
use crate::jobs::{cholesky, star};
use dep_iter::{LentEdge, has_other_end, in_edges, is_task, out_edges};
use plan_core::Plan;
use ptg_base::{MOST_LOCALS, TaskId};
use range_space::Space;
use std::alloc::Global;
use term_core::Direction;

// The numbers of tasks and of edges that were walked.
#[derive(Clone, Copy, Drop)]
struct Walked {
    tasks: u64,
    ins: u64,
    outs: u64,
}

impl Walked {
    // Nothing was walked.
    fn none() -> Walked {
        Walked {
            tasks: 0,
            ins: 0,
            outs: 0,
        }
    }

    // Walks the edges of a task.
    fn add(&mut self, plan: &Plan, task: &TaskId)
        requires { IsTask plan.now task.now }
    {
        self.tasks = self.tasks.wrapping_add(1);
        for _edge in in_edges(plan, task) {
            self.ins = self.ins.wrapping_add(1);
        }
        for _edge in out_edges(plan, task) {
            self.outs = self.outs.wrapping_add(1);
        }
    }

    // Walks the edges of the tasks of a class.
    fn add_class(&mut self, plan: &Plan, class: u32) -> Result<(), Failure>
        requires { class < length plan.now.classes }
    {
        let space = plan.space(class);
        if space.defs.len() > MOST_LOCALS {
            return Err(Failure::NotWellMade);
        }
        for params in Space::new(space) {
            let task = TaskId::new(class, params.as_slice());
            if !is_task(plan, &task) {
                return Err(Failure::NotWellMade);
            }
            self.add(plan, &task);
        }
        Ok(())
    }
}

/// Walks over the edges into and out of each task of a job with the shape of a tiled Cholesky factorization with this
/// many rows of tiles. Counts the tasks and the edges.
pub fn edges(alloc: Global, size: u32) -> Result<Counts, Failure> {
    let plan = cholesky(alloc, size)?;
    let mut walked = Walked::none();
    for class in 0..plan.classes.len() {
        walked.add_class(&plan, class as u32)?;
    }
    Ok(Counts::three(
        Count::of("tasks", walked.tasks),
        Count::of("in", walked.ins),
        Count::of("out", walked.outs),
    ))
}

// How many of the edges out of a task are in edges of their targets.
fn received(plan: &Plan, task: &TaskId) -> u64
    requires { IsTask plan.now task.now }
{
    let mut count: u64 = 0;
    for edge in out_edges(plan, task) {
        if has_other_end(plan, Direction::Out, &LentEdge::of(&edge)) {
            count = count.wrapping_add(1);
        }
    }
    count
}

// How many of the edges into a task are out edges of their sources.
fn sent(plan: &Plan, task: &TaskId) -> u64
    requires { IsTask plan.now task.now }
{
    let mut count: u64 = 0;
    for edge in in_edges(plan, task) {
        if has_other_end(plan, Direction::In, &LentEdge::of(&edge)) {
            count = count.wrapping_add(1);
        }
    }
    count
}

/// Makes the plan of such a job from its texts. Counts its classes.
pub fn job(alloc: Global, size: u32) -> Result<Counts, Failure> {
    let plan = cholesky(alloc, size)?;
    Ok(Counts::one(Count::of("classes", plan.classes.len() as u64)))
}

/// One task with an edge to and an edge from each of this many others. Counts the edges that the others have too.
pub fn star_edges(alloc: Global, size: u32) -> Result<Counts, Failure> {
    let plan = star(alloc, size)?;
    let task = TaskId::new(0, &[0]);
    if !is_task(&plan, &task) {
        return Err(Failure::NotWellMade);
    }
    Ok(Counts::two(
        Count::of("received", received(&plan, &task)),
        Count::of("sent", sent(&plan, &task)),
    ))
}
