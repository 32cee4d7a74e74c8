//! Runs a job on one thread.

ghost use Rattle.std.specs.Prelude.{◌≡◌, ◌∷◌, ◌++◌, ◌+◌, [], OnOk, IfOk};
ghost use Rattle.plan_data.specs.Fit.{DataFit};
ghost use Rattle.flow_meaning.specs.Answer as meaning;
ghost use Rattle.flow_core.specs.Fits.{Fits};
ghost use Rattle.flow_core.specs.Goals.{AreGoals};
ghost use Rattle.flow_core.specs.OneThread.{IsBetweenTasks, MayClaimOnly, OwesOnly, ended_count, running_tasks};

use crate::claiming::claim_roots;
use crate::runner::Runner;
use crate::sending::send_items;
use crate::state::State;
use coll_data::Given;
use dep_iter::Matched;
use flow_meaning::Outcome;
use indexmap::IndexMap;
use ptg_base::{OutOfMemory, TaskId};
use std::alloc::Global;

// Runs the task that was claimed last, sends what it has left, and claims the tasks that may be claimed then.
fn run_one_task(
    runner: &mut Runner,
    m: &Matched,
    given: &Given,
    t: &TaskId,
) -> Result<(), OutOfMemory>
    requires fits { Fits m.now given.now runner.old.run }
    requires running { runner.old.running.items ++ t.now ∷ [] ≡ running_tasks runner.old.run }
    requires none_ready { MayClaimOnly m.now [] runner.old.run }
    requires nothing_owed { OwesOnly m.now [] runner.old.run }
    requires goals { AreGoals m.now runner.old.goals.entries }
    ensures between { OnOk result (IsBetweenTasks m.now given.now runner.new.run runner.new.running.items) }
    ensures goals { OnOk result (AreGoals m.now runner.new.goals.entries) }
    ensures ended { OnOk result (ended_count runner.new.run ≡ ended_count runner.old.run + 1) }
{
    m.plan_is_consistent();
    if runner.run.finish(m, given, t)?.is_some() {
        return Ok(());
    }
    send_items(runner, m, t)?;
    runner.run.let_go(t);
    Ok(())
}

// Runs tasks until none is left.
fn run_tasks(runner: &mut Runner, m: &Matched, given: &Given) -> Result<(), OutOfMemory>
    requires between { IsBetweenTasks m.now given.now runner.old.run runner.old.running.items }
    requires goals { AreGoals m.now runner.old.goals.entries }
    ensures { OnOk result (IsBetweenTasks m.now given.now runner.new.run []) }
{
    while let Some(t) = runner.running.pop() {
        run_one_task(runner, m, given, &t)?;
    }
    Ok(())
}

// A run in which every task without an edge into it is claimed.
fn opened(alloc: Global, m: &Matched, given: &Given) -> Result<Runner, OutOfMemory>
    ensures between { IfOk result (λ runner. IsBetweenTasks m.now given.now runner.run runner.running.items) }
    ensures goals { IfOk result (λ runner. AreGoals m.now runner.goals.entries) }
{
    let mut runner = Runner {
        run: State::start(alloc),
        running: Vec::new(alloc),
        goals: IndexMap::new(alloc),
    };
    claim_roots(&mut runner, m)?;
    Ok(runner)
}

/// Runs a job on one thread, and returns its answer.
pub fn run_one(alloc: Global, m: &Matched, given: Given) -> Result<Outcome, OutOfMemory>
    requires { DataFit m.now given }
    ensures { IfOk result (λ outcome. outcome ≡ meaning.answer m.now given) }
{
    let mut runner = opened(alloc, m, &given)?;
    run_tasks(&mut runner, m, &given)?;
    m.plan_is_consistent();
    runner.run.answer(m, given)
}
