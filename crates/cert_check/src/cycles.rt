//! Checks, without memory, whether tasks are a cycle.

ghost use Rattle.std.specs.Prelude.{◌≡◌, ◌↔◌, ◌∷◌, List, IsTrue, None};
ghost use Rattle.ptg_base.specs.Lists.{HasNoRepeats, IsIn};
ghost use Rattle.ptg_base.specs.Task.{Task};
ghost use Rattle.coll_data.specs.Data.{Data};
ghost use Rattle.flow_meaning.specs.Backward.{ended};
ghost use Rattle.chain_cert.specs.Chains.{IsCycle};

use crate::chains::{is_chain, is_link};
use dep_iter::Matched;
use ptg_base::TaskId;

// Whether a task is one of these.
fn is_among(t: &TaskId, tasks: &[TaskId]) -> bool
    ensures { IsTrue result ↔ IsIn t.now tasks.now }
{
    tasks.contains(t)
}

// Whether the first of these tasks comes again.
fn first_comes_again(tasks: &[TaskId]) -> bool
    ensures { IsTrue result ↔ ((t : Task) × (ts : List Task) × (tasks.now ≡ t ∷ ts) × IsIn t ts) }
{
    match tasks.split_first() {
        Some((first, later)) => is_among(first, later),
        None => false,
    }
}

// Whether no task comes twice. Compares each pair of tasks.
fn are_different(tasks: &[TaskId]) -> bool
    ensures { IsTrue result ↔ HasNoRepeats tasks.now }
{
    for at in 0..tasks.len() {
        if first_comes_again(&tasks[at..]) {
            return false;
        }
    }
    true
}

/// Whether tasks are a cycle of the job: a chain of different tasks whose last is the source of an edge into its first.
/// None of them ever ends. It takes no memory, and compares each pair of tasks.
pub fn check_cycle(m: &Matched, cycle: &[TaskId]) -> bool
    ensures exact { IsTrue result ↔ IsCycle m.now cycle.now }
    ensures dead { IsTrue result → (G : Data) (t : Task) → IsIn t cycle.now → ended m.now G t ≡ None }
{
    let plan = m.plan();
    let Some((first, _)) = cycle.split_first() else {
        return false;
    };
    let Some((last, _)) = cycle.split_last() else {
        return false;
    };
    if !is_link(plan, last, first) {
        return false;
    }
    if !is_chain(plan, cycle) {
        return false;
    }
    are_different(cycle)
}
