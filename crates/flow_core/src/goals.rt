//! The goals of the tasks at which edges have arrived.

ghost use Rattle.std.specs.Prelude.{◌≡◌, OnOk};
ghost use Rattle.dep_iter.specs.Edges as edges;
ghost use Rattle.dep_iter.specs.Tasks.{IsTask};
ghost use Rattle.flow_core.specs.Goals.{AreGoals};

use dep_iter::Matched;
use goal_count::goal;
use indexmap::IndexMap;
use ptg_base::{OutOfMemory, TaskId};

// The goal of a task. It is computed only if the table does not have it.
pub(crate) fn goal_by(table: &IndexMap<TaskId, u32>, m: &Matched, t: &TaskId) -> u32
    requires task { IsTask m.now t.now }
    requires goals { AreGoals m.now table.now.entries }
    ensures { result ≡ edges.goal m.now t.now }
{
    match table.get(t) {
        Some(known) => *known,
        None => goal(m, t),
    }
}

// Keeps the goal of a task until it is claimed.
pub(crate) fn keep_goal(
    table: &mut IndexMap<TaskId, u32>,
    m: &Matched,
    t: &TaskId,
    goal: u32,
) -> Result<(), OutOfMemory>
    requires goal { goal ≡ edges.goal m.now t.now }
    requires goals { AreGoals m.now table.old.entries }
    ensures { OnOk result (AreGoals m.now table.new.entries) }
{
    m.plan_is_consistent();
    table.insert(t.copy(), goal)?;
    Ok(())
}

// Forgets the goal of a task.
pub(crate) fn forget_goal(table: &mut IndexMap<TaskId, u32>, m: &Matched, t: &TaskId)
    requires { AreGoals m.now table.old.entries }
    ensures { AreGoals m.now table.new.entries }
{
    m.plan_is_consistent();
    let _goal = table.swap_remove(t);
}
