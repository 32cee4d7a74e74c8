//! The tasks that no edge goes into.

ghost use Rattle.std.specs.Prelude.{◌≡◌, IfOk};
ghost use Rattle.dep_iter.specs.Consistent as consistent;

use dep_iter::{Matched, all_tasks};
use goal_count::goal;
use ptg_base::{OutOfMemory, TaskId};
use std::alloc::Global;

// The tasks that no edge goes into, in walk order.
pub(crate) fn roots_of(alloc: Global, m: &Matched) -> Result<Vec<TaskId>, OutOfMemory>
    ensures { IfOk result (λ roots. roots.items ≡ consistent.roots m.now) }
{
    let mut roots = Vec::new(alloc);
    for t in all_tasks(m.plan()) {
        if goal(m, &t) == 0 {
            roots.push(t)?;
        }
    }
    Ok(roots)
}
