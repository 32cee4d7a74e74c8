//! The hands of workers, with ids of tasks in their deques.

use ptg_base::{OutOfMemory, TaskId};
use ready_deques::{Hands, make};
use std::alloc::Global;

// Pushes the ids of the tasks of class 0 with these parameters. An id that a push returns is dropped: a new deque has
// room for 16.
fn push_all(hands: &mut Hands, parameters: &[i64]) {
    for parameter in parameters {
        let _pushed = hands.push(TaskId::new(0, &[*parameter]));
    }
}

/// The hands of one worker that pushed the tasks of class 0 with these parameters, in this order.
pub fn one_worker(alloc: Global, parameters: &[i64]) -> Result<Hands, OutOfMemory> {
    let Some(mut hands) = make(alloc, 1)?.pop() else {
        return Err(OutOfMemory);
    };
    push_all(&mut hands, parameters);
    Ok(hands)
}

/// The hands of worker 1 of two, which are empty, and those of worker 0, which pushed these tasks. Its slot holds the
/// last one.
pub fn two_workers(alloc: Global, parameters: &[i64]) -> Result<(Hands, Hands), OutOfMemory> {
    let mut team = make(alloc, 2)?;
    let (Some(second), Some(mut first)) = (team.pop(), team.pop()) else {
        return Err(OutOfMemory);
    };
    push_all(&mut first, parameters);
    Ok((second, first))
}
