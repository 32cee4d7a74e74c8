//! The order of two tasks, and the weight of a task.

ghost use Rattle.std.specs.Prelude.{◌≡◌};
ghost use Rattle.ptg_base.specs.TaskOrder.{task_before};
ghost use Rattle.chain_cert.specs.Weights as weighing;

use ptg_base::TaskId;
use std::cmp::Ordering;

/// Whether a task is before another in task order.
pub fn is_before(t: &TaskId, u: &TaskId) -> bool
    ensures { result ≡ task_before t.now u.now }
{
    match t.cmp(u) {
        Ordering::Less => true,
        Ordering::Equal => false,
        Ordering::Greater => false,
    }
}

/// The weight of a task, which is that of its class; 0 if there is no such class.
pub fn weight_of(weights: &[u64], t: &TaskId) -> u64
    ensures { result ≡ weighing.weight weights.now t.now }
{
    match weights.get(t.class() as usize) {
        Some(w) => *w,
        None => 0,
    }
}
