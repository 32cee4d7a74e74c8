//! Whether one walk over the tasks of a plan shows that it is consistent.

ghost use Rattle.std.specs.Prelude.{◌≡◌, ◌≤◌, IfOk, IfSome, length};
ghost use Rattle.std.specs.List.{AllByRecursion};
ghost use Rattle.ptg_base.specs.Limits.{most_prefixes, most_tasks};
ghost use Rattle.range_space.specs.Sound.{IsSound, prefix_total};
ghost use Rattle.dep_iter.specs.Consistent.{HasCounts, IsConsistent};
ghost use Rattle.dep_iter.specs.Tasks.{all_tasks};

use crate::accepting_tasks::accept_all;
use crate::ins::Ins;
use crate::outs::Outs;
use crate::place_set::PlaceSet;
use crate::tally::Tally;
use dep_iter::Counts;
use plan_core::Plan;
use ptg_base::OutOfMemory;
use std::alloc::Global;

/// Accepts a plan and returns its counts, if one walk over its tasks shows that it is consistent. Its spaces are sound
/// and have this many tasks. `None` says nothing about the plan.
///
/// Each edge into a task is looked up among the edges out of its source, and none occurs twice. The edges out of tasks
/// are only counted. If both counts are equal, each edge out of a task is an edge into a task, and none of them occurs
/// twice either.
pub fn accepts(alloc: Global, plan: &Plan, tasks: u64) -> Result<Option<Counts>, OutOfMemory>
    requires sound { AllByRecursion IsSound plan.now.spaces }
    requires tasks { tasks ≡ length (all_tasks plan.now) }
    requires tasks_at_most { tasks ≤ most_tasks }
    requires prefixes_at_most { prefix_total plan.now.spaces ≤ most_prefixes }
    ensures { IfOk result (λ accepted. IfSome accepted (λ counts. IsConsistent plan.now × HasCounts plan.now counts)) }
{
    let mut tally = Tally {
        ins: Ins {
            edges: 0,
            data_edges: 0,
        },
        outs: Outs {
            edges: 0,
            writes: 0,
            written: PlaceSet::new(alloc, plan.colls.as_slice())?,
        },
    };
    let Some(roots) = accept_all(plan, tasks, &mut tally) else {
        return Ok(None);
    };
    if tally.ins.edges != tally.outs.edges {
        return Ok(None);
    }
    Ok(Some(Counts {
        tasks,
        roots,
        edges: tally.ins.edges,
        data_edges: tally.ins.data_edges,
        writes: tally.outs.writes,
    }))
}
