//! The gate that a worker passes before each body.

ghost use Rattle.ptg_base.specs.Task.{Task};

use ptg_base::TaskId;
use std::marker::Sync;
use std::sync::Wait;
use std::thread::Threads;

/// What a worker passes before it runs the body of a task. A gate may wait. It changes nothing that contracts see.
pub trait Gate: Sync {
    ghost use Rattle.std.specs.Prelude.{ℕ};
    ghost use Rattle.ptg_base.specs.Task.{Task};

    /// The gate has let this worker run this task. Only `before_body` tells a worker so.
    ghost lets: { Self → ℕ → Task → Type 0 } = { λ _ _ _. Unit {0} };

    /// A worker calls it before it runs the body of a task.
    fn before_body<R: Threads + Wait + Sync>(&self, rt: &R, worker: u32, task: &TaskId)
        ensures { lets self.now worker task.now };
}

/// The gate that is always open.
#[derive(Drop)]
pub struct Always;

impl Gate for Always {
    fn before_body<R: Threads + Wait + Sync>(&self, _rt: &R, _worker: u32, _task: &TaskId) {}
}
