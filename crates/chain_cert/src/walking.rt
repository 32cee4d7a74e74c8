//! The printed cycle, by a walk back over the tasks that are left.

ghost use Rattle.std.specs.Prelude.{◌≡◌, List, IfOk, reverse};
ghost use Rattle.ptg_base.specs.Task.{Task};
ghost use Rattle.chain_cert.specs.Finding.{LacksTasks};
ghost use Rattle.chain_cert.specs.Printed.{IsPrintedCycle};

use crate::leftover::{least_source_left, least_task_left};
use dep_iter::Matched;
use indexmap::{IndexMap, IndexSet};
use ptg_base::{OutOfMemory, Seq, TaskId};
use std::alloc::Global;

// Copies of tasks, in reverse order.
fn turned(alloc: Global, tasks: &[TaskId]) -> Result<Seq<TaskId>, OutOfMemory>
    ensures { IfOk result (λ ts. ts ≡ reverse tasks.now) }
{
    let mut turned = Vec::with_capacity(alloc, tasks.len())?;
    for t in tasks {
        turned.push(t.copy())?;
    }
    turned.reverse();
    Ok(Seq::of(turned))
}

// The printed cycle, given a table with the tasks of a greatest legal order, which are not all. Each task that is left
// has a source that is left, so the walk back comes to some task again.
pub(crate) fn printed_cycle(
    alloc: Global,
    table: &IndexMap<TaskId, u64>,
    m: &Matched,
) -> Result<Seq<TaskId>, OutOfMemory>
    requires { (order : List Task) × LacksTasks m.now order table.now.entries }
    ensures { IfOk result (λ cycle.
        (order : List Task) → LacksTasks m.now order table.now.entries → IsPrintedCycle m.now order cycle) }
{
    let plan = m.plan();
    let mut met: IndexSet<TaskId> = IndexSet::new(alloc);
    let mut next = least_task_left(table, m);
    while let Some(t) = next {
        if let Some((at, _)) = met.get_full(&t) {
            return turned(alloc, &met.as_slice()[at..]);
        }
        next = least_source_left(table, plan, &t);
        met.insert(t)?;
    }
    Ok(Seq::new(alloc))
}
