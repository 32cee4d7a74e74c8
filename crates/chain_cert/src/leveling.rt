//! The levels of the tasks of an order, from those of their sources.

ghost use Rattle.std.specs.Prelude.{◌≡◌, ◌∷◌, ◌++◌, [], List, IfOk, OnOk};
ghost use Rattle.ptg_base.specs.Task.{Task};
ghost use Rattle.dep_iter.specs.Tasks.{IsTask};
ghost use Rattle.dep_iter.specs.Edges.{sources};
ghost use Rattle.flow_meaning.specs.Order.{IsLegalOrder};
ghost use Rattle.chain_cert.specs.Checking.{AreWeights};
ghost use Rattle.chain_cert.specs.Finding as finding;
ghost use Rattle.chain_cert.specs.Finding.{HasLevels, IsNextTask};
ghost use Rattle.flow_meaning.specs.Numbers.{number_for};

use crate::tasks::weight_of;
use dep_iter::{Matched, in_edges};
use indexmap::IndexMap;
use plan_core::Plan;
use ptg_base::{OutOfMemory, TaskId};
use std::alloc::Global;

// The level that a table has for a task, or 0 if it has none.
pub(crate) fn level_in(table: &IndexMap<TaskId, u64>, t: &TaskId) -> u64
    ensures { result ≡ number_for table.now.entries t.now }
{
    match table.get(t) {
        Some(level) => *level,
        None => 0,
    }
}

// The greatest level that a table has for a source of a task, or 0 if it has none.
fn greatest_before(table: &IndexMap<TaskId, u64>, plan: &Plan, t: &TaskId) -> u64
    requires { IsTask plan.now t.now }
    ensures { result ≡ finding.greatest_among table.now.entries (sources plan.now t.now) }
{
    let mut greatest = 0;
    for edge in in_edges(plan, t) {
        greatest = level_in(table, &edge.from).max(greatest);
    }
    greatest
}

// Notes the level of a task that may follow those of a table.
fn note_level(
    table: &mut IndexMap<TaskId, u64>,
    m: &Matched,
    weights: &[u64],
    t: &TaskId,
) -> Result<(), OutOfMemory>
    requires weights { AreWeights weights.now }
    requires next { (before : List Task) × IsNextTask m.now weights.now before table.old.entries t.now }
    ensures { OnOk result
        ((before : List Task) → IsNextTask m.now weights.now before table.old.entries t.now
        → HasLevels m.now weights.now (before ++ t.now ∷ []) table.new.entries) }
{
    let level = weight_of(weights, t) + greatest_before(table, m.plan(), t);
    table.insert(t.copy(), level)?;
    Ok(())
}

// A table with the levels of the tasks of a legal order.
pub(crate) fn levels_along(
    alloc: Global,
    m: &Matched,
    weights: &[u64],
    order: &[TaskId],
) -> Result<IndexMap<TaskId, u64>, OutOfMemory>
    requires weights { AreWeights weights.now }
    requires legal { IsLegalOrder m.now order.now }
    ensures { IfOk result (λ table. HasLevels m.now weights.now order.now table.entries) }
{
    m.plan_is_consistent();
    let mut table = IndexMap::new(alloc);
    for t in order {
        note_level(&mut table, m, weights, t)?;
    }
    Ok(table)
}

// Tasks with the levels that a table has for them.
pub(crate) fn rows_by(
    alloc: Global,
    table: &IndexMap<TaskId, u64>,
    tasks: &[TaskId],
) -> Result<Vec<(TaskId, u64)>, OutOfMemory>
    ensures { IfOk result (λ rows. rows.items ≡ finding.rows_by table.now.entries tasks.now) }
{
    let mut rows = Vec::with_capacity(alloc, tasks.len())?;
    for t in tasks {
        rows.push((t.copy(), level_in(table, t)))?;
    }
    Ok(rows)
}
