//! Finds levels of tasks by binary search, and checks whether they are high enough, without memory.

ghost use Rattle.std.specs.Prelude.{◌≡◌, ◌↔◌, ℕ, IsTrue, MatchOption};
ghost use Rattle.std.specs.Map.{keys_of};
ghost use Rattle.ptg_base.specs.Lists.{IsIn};
ghost use Rattle.ptg_base.specs.Task.{Task};
ghost use Rattle.dep_iter.specs.Tasks.{IsTask};
ghost use Rattle.chain_cert.specs.Certificates.{HasTasksInOrder};
ghost use Rattle.chain_cert.specs.Chains.{IsSourceOf};
ghost use Rattle.cert_check.specs.Checking.{AreHighEnough, AreInPlace, IsAboveSource, IsHighEnough, IsInPlace};
ghost use Rattle.chain_cert.specs.Checking.{IsRising};

use chain_cert::{is_before, weight_of};
use dep_iter::{Matched, in_edges, is_task};
use plan_core::Plan;
use ptg_base::TaskId;
use std::cmp::Ordering;

// Whether the first of these rows is for a task of the job that comes before the task of the second row, if there is
// one.
fn is_in_place(plan: &Plan, rows: &[(TaskId, u64)]) -> bool
    ensures { IsTrue result ↔ IsInPlace plan.now (keys_of rows.now) }
{
    let Some((row, later)) = rows.split_first() else {
        return true;
    };
    if !is_task(plan, &row.0) {
        return false;
    }
    let Some((next, _)) = later.split_first() else {
        return true;
    };
    is_before(&row.0, &next.0)
}

// Whether the rows are for different tasks of the job, in task order.
fn are_in_place(plan: &Plan, rows: &[(TaskId, u64)]) -> bool
    ensures { IsTrue result ↔ AreInPlace plan.now (keys_of rows.now) }
{
    for at in 0..rows.len() {
        if !is_in_place(plan, &rows[at..]) {
            return false;
        }
    }
    true
}

// Whether the rows have each task of the job, in task order.
pub(crate) fn has_tasks_in_order(m: &Matched, rows: &[(TaskId, u64)]) -> bool
    ensures { IsTrue result ↔ HasTasksInOrder m.now rows.now }
{
    if rows.len() as u64 != m.tasks() {
        return false;
    }
    are_in_place(m.plan(), rows)
}

// The level in the row of a task, if it has one, among rows in task order.
fn level_of(rows: &[(TaskId, u64)], t: &TaskId) -> Option<u64>
    requires { IsRising (keys_of rows.now) }
    ensures { MatchOption result ((k : ℕ) → IsIn (t.now, k) rows.now → ⊥) (λ n.
        (k : ℕ) → IsIn (t.now, k) rows.now ↔ (k ≡ n)) }
{
    let (before, after) = rows.split_at(rows.len() / 2);
    let Some((row, later)) = after.split_first() else {
        return None;
    };
    match t.cmp(&row.0) {
        Ordering::Less => level_of(before, t),
        Ordering::Equal => Some(row.1),
        Ordering::Greater => level_of(later, t),
    }
}

// Whether a level n is at least the level of the source s plus a weight. True if s has no row.
fn is_above_source(levels: &[(TaskId, u64)], w: u64, n: u64, s: &TaskId) -> bool
    requires { IsRising (keys_of levels.now) }
    ensures { IsTrue result ↔ IsAboveSource levels.now w n s.now }
{
    match level_of(levels, s) {
        Some(level) => u128::from(level) + u128::from(w) <= u128::from(n),
        None => true,
    }
}

// Whether the level of a row is at least a weight plus the level of each source of its task.
fn is_above_sources(plan: &Plan, levels: &[(TaskId, u64)], row: &(TaskId, u64), w: u64) -> bool
    requires task { IsTask plan.now row.now.0 }
    requires rising { IsRising (keys_of levels.now) }
    ensures { IsTrue result ↔ ((s : Task) → IsSourceOf plan.now s row.now.0 → IsAboveSource levels.now w row.now.1 s) }
{
    for edge in in_edges(plan, &row.0) {
        if !is_above_source(levels, w, row.1, &edge.from) {
            return false;
        }
    }
    true
}

// Whether the level of a row is high enough.
fn is_high_enough(
    plan: &Plan,
    weights: &[u64],
    levels: &[(TaskId, u64)],
    row: &(TaskId, u64),
) -> bool
    requires task { IsTask plan.now row.now.0 }
    requires rising { IsRising (keys_of levels.now) }
    ensures { IsTrue result ↔ IsHighEnough plan.now weights.now levels.now row.now }
{
    let w = weight_of(weights, &row.0);
    if row.1 < w {
        return false;
    }
    is_above_sources(plan, levels, row, w)
}

// Whether the levels of all rows are high enough.
pub(crate) fn are_high_enough(m: &Matched, weights: &[u64], levels: &[(TaskId, u64)]) -> bool
    requires { HasTasksInOrder m.now levels.now }
    ensures { IsTrue result ↔ AreHighEnough m.now weights.now levels.now levels.now }
{
    let plan = m.plan();
    for row in levels {
        if !is_high_enough(plan, weights, levels, row) {
            return false;
        }
    }
    true
}
