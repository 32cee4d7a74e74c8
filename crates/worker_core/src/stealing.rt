//! The next id of a task that may be ready: the worker's own newest, or the oldest of another worker.

ghost use Rattle.std.specs.Prelude.{◌≤◌, length};
ghost use Rattle.ready_deques.specs.Hands.{SameWorker};

use ptg_base::TaskId;
use ready_deques::{Hands, Stolen};
use std::sync::Wait;
use std::thread::Threads;

// Steals from the first of the workers `first..end`, except this one, that has an id.
fn steal_among<R: Threads + Wait + Sync>(
    rt: &R,
    hands: &mut Hands,
    first: u32,
    end: u32,
) -> Option<TaskId>
    requires { end ≤ length hands.old.deques }
    ensures { SameWorker hands.old hands.new }
{
    for from in first..end {
        if from == hands.number() {
            continue;
        }
        if let Stolen::Task(id) = hands.steal(rt, from) {
            return Some(id);
        }
    }
    None
}

// The worker's own newest id or, if it has none, the oldest id of the next worker by number that has one.
pub(crate) fn take_id<R: Threads + Wait + Sync>(rt: &R, hands: &mut Hands) -> Option<TaskId>
    ensures { SameWorker hands.old hands.new }
{
    if let Some(id) = hands.pop() {
        return Some(id);
    }
    let workers = hands.workers();
    let own = hands.number().min(workers);
    if let Some(id) = steal_among(rt, hands, own, workers) {
        return Some(id);
    }
    steal_among(rt, hands, 0, own)
}
