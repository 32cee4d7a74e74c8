//! The least task that a table does not have.

ghost use Rattle.std.specs.Prelude.{◌≡◌};
ghost use Rattle.dep_iter.specs.Tasks as tasks;
ghost use Rattle.dep_iter.specs.Tasks.{IsTask};
ghost use Rattle.dep_iter.specs.Edges.{sources};
ghost use Rattle.chain_cert.specs.Finding as finding;
ghost use Rattle.chain_cert.specs.Finding.{IsLeastWhere};

use dep_iter::{Matched, all_tasks, in_edges};
use indexmap::IndexMap;
use plan_core::Plan;
use ptg_base::TaskId;

// Whether a table does not have a task.
fn is_left(table: &IndexMap<TaskId, u64>, t: &TaskId) -> bool
    ensures { result ≡ finding.is_left table.now.entries t.now }
{
    !table.contains_key(t)
}

// The least task that a table does not have, if there is one.
pub(crate) fn least_task_left(table: &IndexMap<TaskId, u64>, m: &Matched) -> Option<TaskId>
    ensures { IsLeastWhere (finding.is_left table.now.entries) (tasks.all_tasks m.now) result }
{
    all_tasks(m.plan()).filter(|t| is_left(table, t)).min()
}

// The least source of a task that a table does not have, if there is one.
pub(crate) fn least_source_left(
    table: &IndexMap<TaskId, u64>,
    plan: &Plan,
    t: &TaskId,
) -> Option<TaskId>
    requires { IsTask plan.now t.now }
    ensures { IsLeastWhere (finding.is_left table.now.entries) (sources plan.now t.now) result }
{
    in_edges(plan, t)
        .map(|edge| edge.from)
        .filter(|s| is_left(table, s))
        .min()
}
