//! The printed chain, built from its end back.

ghost use Rattle.std.specs.Prelude.{◌≡◌, ◌<◌, ◌⊎◌, ◌↔◌, ◌∷◌, ◌++◌, [], ℕ, List, IsTrue, IfOk, MatchOption, true};
ghost use Rattle.ptg_base.specs.Task.{Task};
ghost use Rattle.ptg_base.specs.TaskOrder.{task_before};
ghost use Rattle.dep_iter.specs.Tasks.{IsTask, all_tasks};
ghost use Rattle.dep_iter.specs.Edges.{sources};
ghost use Rattle.chain_cert.specs.Certificates.{AreLevels};
ghost use Rattle.chain_cert.specs.Chains.{HasNoCycle};
ghost use Rattle.chain_cert.specs.Finding as finding;
ghost use Rattle.chain_cert.specs.Finding.{HasAllLevels, IsHeaviestRow, IsLeastWhere};
ghost use Rattle.chain_cert.specs.Levels.{IsLevel};
ghost use Rattle.chain_cert.specs.Printed.{HasGreatestLevel, IsHeaviestSource, IsLeast, IsPrintedChain};
ghost use Rattle.chain_cert.specs.Weights as weighing;

use crate::leveling::level_in;
use crate::tasks::{is_before, weight_of};
use dep_iter::{Matched, in_edges};
use indexmap::IndexMap;
use plan_core::Plan;
use ptg_base::{OutOfMemory, Seq, TaskId};
use std::alloc::Global;

// Whether a row has a greater level than another, or the same level and a lesser task.
fn is_heavier(row: &(TaskId, u64), best: &(TaskId, u64)) -> bool
    ensures { IsTrue result
        ↔ ((best.now.1 < row.now.1) ⊎ ((row.now.1 ≡ best.now.1) × (task_before row.now.0 best.now.0 ≡ true))) }
{
    row.1 > best.1 || (row.1 == best.1 && is_before(&row.0, &best.0))
}

// The heaviest row so far, after one more.
fn heavier(best: Option<(TaskId, u64)>, row: &(TaskId, u64)) -> Option<(TaskId, u64)>
    ensures { (rows : List (Task × ℕ)) → IsHeaviestRow rows best → IsHeaviestRow (rows ++ row.now ∷ []) result }
{
    let Some(old) = best else {
        return Some((row.0.copy(), row.1));
    };
    if is_heavier(row, &old) {
        return Some((row.0.copy(), row.1));
    }
    Some(old)
}

// The row with the greatest level; among several, the one with the least task.
fn heaviest_row(rows: &[(TaskId, u64)]) -> Option<(TaskId, u64)>
    ensures { IsHeaviestRow rows.now result }
{
    let mut best = None;
    for row in rows {
        best = heavier(best, row);
    }
    best
}

// The task with which the printed chain ends, if there is a task.
fn last_task(m: &Matched, weights: &[u64], rows: &[(TaskId, u64)]) -> Option<TaskId>
    requires { AreLevels m.now weights.now rows.now }
    ensures { MatchOption result (all_tasks m.now ≡ []) (IsLeast (HasGreatestLevel m.now weights.now)) }
{
    m.plan_is_consistent();
    let Some((last, _)) = heaviest_row(rows) else {
        return None;
    };
    Some(last)
}

// Whether a heaviest chain to a task of level `n` and weight `w` comes by this source.
fn is_heaviest_source(table: &IndexMap<TaskId, u64>, s: &TaskId, w: u64, n: u64) -> bool
    ensures { result ≡ finding.is_heaviest_source table.now.entries w n s.now }
{
    u128::from(level_in(table, s)) + u128::from(w) == u128::from(n)
}

// The least source by which a heaviest chain comes to a task of level `n` and weight `w`, if there is one.
fn least_heaviest_source(
    table: &IndexMap<TaskId, u64>,
    plan: &Plan,
    t: &TaskId,
    w: u64,
    n: u64,
) -> Option<TaskId>
    requires { IsTask plan.now t.now }
    ensures { IsLeastWhere (finding.is_heaviest_source table.now.entries w n) (sources plan.now t.now) result }
{
    in_edges(plan, t)
        .map(|edge| edge.from)
        .filter(|s| is_heaviest_source(table, s, w, n))
        .min()
}

// The task before one in the printed chain, if there is one.
fn step_back(
    table: &IndexMap<TaskId, u64>,
    m: &Matched,
    weights: &[u64],
    t: &TaskId,
) -> Option<TaskId>
    requires levels { HasAllLevels m.now weights.now table.now.entries }
    requires task { IsTask m.now t.now }
    ensures { MatchOption result (IsLevel m.now weights.now t.now (weighing.weight weights.now t.now)) (λ s.
        (IsLevel m.now weights.now t.now (weighing.weight weights.now t.now) → ⊥)
        × IsLeast (IsHeaviestSource m.now weights.now t.now) s) }
{
    let plan = m.plan();
    let w = weight_of(weights, t);
    let n = level_in(table, t);
    if n == w {
        return None;
    }
    least_heaviest_source(table, plan, t, w, n)
}

// The printed chain, from the rows of all tasks with their levels, which a table has too.
pub(crate) fn printed_chain(
    alloc: Global,
    table: &IndexMap<TaskId, u64>,
    m: &Matched,
    weights: &[u64],
    rows: &[(TaskId, u64)],
) -> Result<Seq<TaskId>, OutOfMemory>
    requires table { HasAllLevels m.now weights.now table.now.entries }
    requires rows { AreLevels m.now weights.now rows.now }
    requires no_cycle { HasNoCycle m.now }
    ensures { IfOk result (IsPrintedChain m.now weights.now) }
{
    m.plan_is_consistent();
    let mut back = Vec::new(alloc);
    let mut next = last_task(m, weights, rows);
    while let Some(t) = next {
        next = step_back(table, m, weights, &t);
        back.push(t)?;
    }
    back.reverse();
    Ok(Seq::of(back))
}
