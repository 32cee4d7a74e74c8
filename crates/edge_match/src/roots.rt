//! The tasks without an edge into them.

ghost use Rattle.std.specs.Prelude.{◌≡◌, ◌==◌, length};
ghost use Rattle.dep_iter.specs.Consistent.{roots};
ghost use Rattle.dep_iter.specs.Edges.{goal};
ghost use Rattle.dep_iter.specs.Tasks.{IsTask, all_tasks};

use dep_iter::{all_tasks, all_tasks_are_listed, in_edges};
use plan_core::Plan;
use ptg_base::TaskId;

// Whether no edge goes into the task. At most one edge is looked for.
fn is_root(plan: &Plan, t: &TaskId) -> bool
    requires { IsTask plan.now t.now }
    ensures { result ≡ (goal plan.now t.now == 0) }
{
    in_edges(plan, t).next().is_none()
}

/// How many of a plan's `tasks` tasks have no edge into them. If there are no tasks, no range is walked.
pub fn root_count(plan: &Plan, tasks: u64) -> u64
    requires { tasks ≡ length (all_tasks plan.now) }
    ensures { result ≡ length (roots plan.now) }
{
    if tasks == 0 {
        return 0;
    }
    all_tasks_are_listed();
    let mut count = 0;
    for t in all_tasks(plan) {
        count += u64::from(is_root(plan, &t));
    }
    count
}
