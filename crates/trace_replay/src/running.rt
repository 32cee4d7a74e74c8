//! Tasks of a list, run one after another in a world of one rank.

ghost use Rattle.std.specs.Prelude.{[], IfOk, MatchOption};
ghost use Rattle.std.specs.List.{AllByRecursion};
ghost use Rattle.plan_data.specs.Fit.{DataFit};
ghost use Rattle.dep_iter.specs.Tasks.{IsTask};
ghost use Rattle.trace_replay.specs.Replaying.{HasRunInOrder, IsEndOf, IsOfOneRank, StopsAt};

use coll_data::Given;
use dep_iter::Matched;
use flow_meaning::Outcome;
use ptg_base::{OutOfMemory, TaskId};
use rank_core::World;
use std::alloc::Global;
use trace_core::TraceFault;

// A world of one rank in which nothing has happened. It has no messages.
fn opened<'m>(alloc: Global, m: &'m Matched, given: Given) -> Result<World<'m>, OutOfMemory>
    requires { DataFit m.now given }
    ensures { IfOk result (HasRunInOrder m.now given []) }
{
    m.plan_is_consistent();
    World::new(alloc, m, given, 1)
}

// Runs the tasks of a list one after another, up to the first that may not run. Returns the index of that task, if
// there is one.
pub(crate) fn run_in_order<'m>(
    alloc: Global,
    m: &'m Matched,
    given: Given,
    list: &[TaskId],
) -> Result<(World<'m>, Option<usize>), OutOfMemory>
    requires tasks { AllByRecursion (IsTask m.now) list.now }
    requires fit { DataFit m.now given }
    ensures { IfOk result (λ r.
        MatchOption r.1 (HasRunInOrder m.now given list.now r.0) (λ index. StopsAt m.now given list.now index)) }
{
    m.plan_is_consistent();
    let mut world = opened(alloc, m, given)?;
    let mut index = 0;
    'tasks: for t in list {
        let ran = world.run(t)?;
        if !ran {
            return Ok((world, Some(index)));
        }
        index += 1;
    }
    Ok((world, None))
}

// The verdict on a world between two runs: the answer, if each task that runs has run there, else this fault.
pub(crate) fn judge_end(
    world: World<'_>,
    m: &Matched,
    unfinished: TraceFault,
) -> Result<Result<Outcome, TraceFault>, OutOfMemory>
    requires { IsOfOneRank m.now world.given world }
    ensures { IfOk result (IsEndOf m.now world.entry.given world.entry.state.machine.claims unfinished) }
{
    m.plan_is_consistent();
    if !world.quiescent() {
        return Ok(Err(unfinished));
    }
    let outcome = world.answer()?;
    Ok(Ok(outcome))
}
