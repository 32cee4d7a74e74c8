//! Claims of the tasks that may be claimed.

ghost use Rattle.std.specs.Prelude.{◌≡◌, ◌∷◌, [], IsTrue, OnOk};
ghost use Rattle.dep_iter.specs.Tasks as tasks;
ghost use Rattle.dep_iter.specs.Tasks.{IsTask};
ghost use Rattle.flow_core.specs.Fits.{FitsSome};
ghost use Rattle.flow_core.specs.Goals.{AreGoals};
ghost use Rattle.flow_core.specs.OneThread.{HasDone, IsOpening, MayClaimOnly, running_tasks};

use crate::goals::{forget_goal, goal_by, keep_goal};
use crate::runner::Runner;
use dep_iter::{Matched, all_tasks};
use ptg_base::{OutOfMemory, TaskId};

// Claims a task of the job if it may be claimed.
pub(crate) fn claim_if_ready(
    runner: &mut Runner,
    m: &Matched,
    t: &TaskId,
) -> Result<(), OutOfMemory>
    requires task { IsTask m.now t.now }
    requires fits { FitsSome m.now runner.old.run }
    requires running { runner.old.running.items ≡ running_tasks runner.old.run }
    ensures done { OnOk result (HasDone m.now (t.now ∷ []) [] runner.old.run runner.new.run) }
    ensures running { OnOk result (runner.new.running.items ≡ running_tasks runner.new.run) }
    ensures opening { OnOk result (IsOpening runner.old.run → IsOpening runner.new.run) }
    ensures goals { runner.new.goals ≡ runner.old.goals }
{
    if !runner.run.claim_task(m, t)? {
        return Ok(());
    }
    runner.running.push(t.copy())?;
    Ok(())
}

// Claims a task at which an edge has arrived, if it may be claimed. Its goal is computed when the first edge arrives.
pub(crate) fn claim_if_come(runner: &mut Runner, m: &Matched, t: &TaskId) -> Result<(), OutOfMemory>
    requires task { IsTask m.now t.now }
    requires fits { FitsSome m.now runner.old.run }
    requires running { runner.old.running.items ≡ running_tasks runner.old.run }
    requires goals { AreGoals m.now runner.old.goals.entries }
    ensures done { OnOk result (HasDone m.now (t.now ∷ []) [] runner.old.run runner.new.run) }
    ensures running { OnOk result (runner.new.running.items ≡ running_tasks runner.new.run) }
    ensures goals { OnOk result (AreGoals m.now runner.new.goals.entries) }
{
    let goal = goal_by(&runner.goals, m, t);
    if !runner.run.claim_by(m, t, goal)? {
        keep_goal(&mut runner.goals, m, t, goal)?;
        return Ok(());
    }
    runner.running.push(t.copy())?;
    forget_goal(&mut runner.goals, m, t);
    Ok(())
}

// Whether a run that only opens has claimed as many tasks as have no edge into them. Then no other task may be claimed.
fn is_open(runner: &Runner, m: &Matched) -> bool
    requires fits { FitsSome m.now runner.now.run }
    requires running { runner.now.running.items ≡ running_tasks runner.now.run }
    requires opening { IsOpening runner.now.run }
    ensures { IsTrue result → MayClaimOnly m.now [] runner.now.run }
{
    m.plan_is_consistent();
    runner.running.len() as u64 == m.roots()
}

// Claims the tasks that may be claimed, in a run that only opens.
pub(crate) fn claim_roots(runner: &mut Runner, m: &Matched) -> Result<(), OutOfMemory>
    requires fits { FitsSome m.now runner.old.run }
    requires running { runner.old.running.items ≡ running_tasks runner.old.run }
    requires opening { IsOpening runner.old.run }
    ensures done { OnOk result (HasDone m.now (tasks.all_tasks m.now) [] runner.old.run runner.new.run) }
    ensures running { OnOk result (runner.new.running.items ≡ running_tasks runner.new.run) }
    ensures goals { runner.new.goals ≡ runner.old.goals }
{
    for t in all_tasks(m.plan()) {
        if is_open(runner, m) {
            return Ok(());
        }
        claim_if_ready(runner, m, &t)?;
    }
    Ok(())
}
