//! What is asked of a world, step by step.

use ptg_base::{OutOfMemory, TaskId};
use rank_core::World;

/// What is asked of a world. A task is its class and its parameter.
#[derive(Clone, Copy)]
pub enum Step {
    /// Run a task.
    Run(u32, i64),
    /// Deliver the message with this number.
    Deliver(u64),
    /// Whether there is a task of this rank that may run.
    HasReady(u32),
    /// Whether the task of this rank that may run is this one.
    Ready(u32, u32, i64),
    /// Whether this many messages were sent.
    Sent(u64),
    /// Whether nothing more can happen.
    IsQuiescent,
}

// A task of this rank that may run, if there are the rank and the task.
fn ready(world: &mut World<'_>, rank: u32) -> Option<TaskId> {
    if rank >= world.ranks() {
        return None;
    }
    world.ready(rank)
}

// Whether the task of this rank that may run is this one.
fn is_ready(world: &mut World<'_>, rank: u32, task: &TaskId) -> bool {
    match ready(world, rank) {
        Some(found) => found == *task,
        None => false,
    }
}

// Delivers a message, if it was sent.
fn deliver(world: &mut World<'_>, number: u64) -> Result<bool, OutOfMemory> {
    if number >= world.messages() {
        return Ok(false);
    }
    world.deliver(number)
}

// Whether the world allows the step, or whether what is asked is so.
fn take(world: &mut World<'_>, step: Step) -> Result<bool, OutOfMemory> {
    match step {
        Step::Run(class, i) => world.run(&TaskId::new(class, &[i])),
        Step::Deliver(number) => deliver(world, number),
        Step::HasReady(rank) => Ok(ready(world, rank).is_some()),
        Step::Ready(rank, class, i) => Ok(is_ready(world, rank, &TaskId::new(class, &[i]))),
        Step::Sent(count) => Ok(world.messages() == count),
        Step::IsQuiescent => Ok(world.quiescent()),
    }
}

/// The number of the first of these steps that does not return what stands beside it, if there is one.
pub fn first_other(
    world: &mut World<'_>,
    steps: &[(Step, bool)],
) -> Result<Option<usize>, OutOfMemory> {
    for (n, (step, answer)) in steps.iter().enumerate() {
        if take(world, *step)? != *answer {
            return Ok(Some(n));
        }
    }
    Ok(None)
}
