//! Sends of the items of a task that has ended.

ghost use Rattle.std.specs.Prelude.{◌≡◌, ◌∷◌, [], IsTrue, OnOk};
ghost use Rattle.dep_iter.specs.Items as items;
ghost use Rattle.dep_iter.specs.Tasks.{IsTask};
ghost use Rattle.flow_meaning.specs.Ending.{has_outputs};
ghost use Rattle.flow_core.specs.RunState.{end_of};
ghost use Rattle.flow_core.specs.Fits.{FitsSome};
ghost use Rattle.flow_core.specs.Possible.{IsOutputItem};
ghost use Rattle.flow_core.specs.Goals.{AreGoals};
ghost use Rattle.flow_core.specs.OneThread.{HasDone, running_tasks};

use crate::claiming::claim_if_come;
use crate::runner::Runner;
use dep_iter::{Matched, TaskAt};
use ptg_base::{Item, OutOfMemory, TaskId};
use range_space::Numbers;

// Sends an item of a task that has ended without a trap. If it is an edge whose target may be claimed then, claims that
// task.
fn send_item(runner: &mut Runner, m: &Matched, item: &Item) -> Result<(), OutOfMemory>
    requires output { IsOutputItem m.now runner.old.run item.now }
    requires fits { FitsSome m.now runner.old.run }
    requires running { runner.old.running.items ≡ running_tasks runner.old.run }
    requires goals { AreGoals m.now runner.old.goals.entries }
    ensures done { OnOk result (HasDone m.now [] (item.now ∷ []) runner.old.run runner.new.run) }
    ensures running { OnOk result (runner.new.running.items ≡ running_tasks runner.new.run) }
    ensures goals { OnOk result (AreGoals m.now runner.new.goals.entries) }
{
    m.plan_is_consistent();
    let _sent = runner.run.send_output(m, item)?;
    match item {
        Item::Edge(edge) => claim_if_come(runner, m, &edge.to),
        Item::Write(_) => Ok(()),
    }
}

// Sends all items of a task that has ended without a trap, given its locals, and claims the tasks that may be claimed
// then.
fn send_all(runner: &mut Runner, m: &Matched, at: &TaskAt) -> Result<(), OutOfMemory>
    requires plan { at.now.plan.now ≡ m.now }
    requires outputs { IsTrue (has_outputs (end_of runner.old.run at.now.task.now)) }
    requires fits { FitsSome m.now runner.old.run }
    requires running { runner.old.running.items ≡ running_tasks runner.old.run }
    requires goals { AreGoals m.now runner.old.goals.entries }
    ensures done { OnOk result
        (HasDone m.now [] (items.items m.now at.now.task.now) runner.old.run runner.new.run) }
    ensures running { OnOk result (runner.new.running.items ≡ running_tasks runner.new.run) }
    ensures goals { OnOk result (AreGoals m.now runner.new.goals.entries) }
{
    for item in at.items() {
        send_item(runner, m, &item)?;
    }
    Ok(())
}

// Sends all items of a task that has ended without a trap, and claims the tasks that may be claimed then.
pub(crate) fn send_items(runner: &mut Runner, m: &Matched, t: &TaskId) -> Result<(), OutOfMemory>
    requires task { IsTask m.now t.now }
    requires outputs { IsTrue (has_outputs (end_of runner.old.run t.now)) }
    requires fits { FitsSome m.now runner.old.run }
    requires running { runner.old.running.items ≡ running_tasks runner.old.run }
    requires goals { AreGoals m.now runner.old.goals.entries }
    ensures done { OnOk result (HasDone m.now [] (items.items m.now t.now) runner.old.run runner.new.run) }
    ensures running { OnOk result (runner.new.running.items ≡ running_tasks runner.new.run) }
    ensures goals { OnOk result (AreGoals m.now runner.new.goals.entries) }
{
    let mut room = Numbers::new();
    let at = TaskAt::of(m.plan(), t, &mut room);
    send_all(runner, m, &at)
}
