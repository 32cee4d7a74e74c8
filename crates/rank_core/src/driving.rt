//! Drives a world until nothing more can happen.

ghost use Rattle.std.specs.Prelude.{◌≡◌, ◌<◌, ◌≤◌, IfNone, IfOk, IfSome, IsFalse, IsTrue, OnOk};
ghost use Rattle.ptg_base.specs.Lists.{IsIn};
ghost use Rattle.ptg_base.specs.Task.{Task};
ghost use Rattle.flow_meaning.specs.Machine.{MayClaim};
ghost use Rattle.rank_core.specs.declared.message.Message.{Message};
ghost use Rattle.rank_core.specs.World.{IsQuiet, rank_of, is_delivered};
ghost use Rattle.rank_core.specs.Driving.{IsLaterWorld, turns_left};

use crate::choices::{next_choice, pick_of, prefers_task, repeats};
use crate::world::World;
use ptg_base::{OutOfMemory, TaskId};

// A task that may run, of the ranks from `first` up to, but not including, `end`.
fn ready_among(world: &mut World<'_>, first: u32, end: u32) -> Option<TaskId>
    requires { end ≤ world.old.ranks }
    ensures same { world.new ≡ world.old }
    ensures some { IfSome result (λ t. MayClaim world.old.plan world.old.state.machine t) }
    ensures none { IfNone result
        ((t : Task) → first ≤ rank_of world.old.plan world.old.ranks t → rank_of world.old.plan world.old.ranks t < end
        → MayClaim world.old.plan world.old.state.machine t → ⊥) }
{
    for rank in first..end {
        let task = world.ready(rank);
        if task.is_some() {
            return task;
        }
    }
    None
}

// A task that may run. The ranks are searched in a circle that begins at `first`.
fn ready_from(world: &mut World<'_>, first: u32) -> Option<TaskId>
    requires { first < world.old.ranks }
    ensures same { world.new ≡ world.old }
    ensures some { IfSome result (λ t. MayClaim world.old.plan world.old.state.machine t) }
    ensures none { IfNone result ((t : Task) → MayClaim world.old.plan world.old.state.machine t → ⊥) }
{
    let ranks = world.ranks();
    let task = ready_among(world, first, ranks);
    if task.is_some() {
        return task;
    }
    ready_among(world, 0, first)
}

// Runs a task that may run, if there is one, and returns whether there is.
fn run_some(world: &mut World<'_>, pick: u64) -> Result<bool, OutOfMemory>
    ensures events { IsLaterWorld world.old world.new }
    ensures fewer { IfOk result (λ ran. IsTrue ran → turns_left world.new < turns_left world.old) }
    ensures same { IfOk result (λ ran. IsFalse ran → world.new ≡ world.old) }
    ensures none { IfOk result (λ ran.
        IsFalse ran → (t : Task) → MayClaim world.old.plan world.old.state.machine t → ⊥) }
{
    let first = (pick % u64::from(world.ranks())) as u32;
    match ready_from(world, first) {
        Some(t) => world.run(&t),
        None => Ok(false),
    }
}

// Delivers a message that was not delivered before, if there is one, and returns whether there is.
fn deliver_some(world: &mut World<'_>, pick: u64) -> Result<bool, OutOfMemory>
    ensures events { IsLaterWorld world.old world.new }
    ensures fewer { IfOk result (λ came. IsTrue came → turns_left world.new < turns_left world.old) }
    ensures same { IfOk result (λ came. IsFalse came → world.new ≡ world.old) }
    ensures none { IfOk result (λ came.
        IsFalse came → (m : Message) → IsIn m world.old.state.messages
        → IsTrue (is_delivered world.old.state.machine m)) }
{
    match world.late_message(pick) {
        Some(number) => world.deliver(number),
        None => Ok(false),
    }
}

// Now and then delivers any of the messages that were sent, mostly one that was delivered before.
fn deliver_again(world: &mut World<'_>, x: u64) -> Result<(), OutOfMemory>
    ensures events { IsLaterWorld world.old world.new }
    ensures no_more { turns_left world.new ≤ turns_left world.old }
{
    let sent = world.messages();
    if !repeats(x) || sent == 0 {
        return Ok(());
    }
    let _is_first = world.deliver(pick_of(x) % sent)?;
    Ok(())
}

// Delivers a message that was not delivered before; if there is none, runs a task that may run. Returns false only if
// nothing more can happen.
fn message_first(world: &mut World<'_>, pick: u64) -> Result<bool, OutOfMemory>
    ensures events { IsLaterWorld world.old world.new }
    ensures fewer { IfOk result (λ more. IsTrue more → turns_left world.new < turns_left world.old) }
    ensures quiet { IfOk result (λ more. IsFalse more → IsQuiet world.new.plan world.new.state) }
{
    if deliver_some(world, pick)? {
        return Ok(true);
    }
    run_some(world, pick)
}

// Runs a task that may run; if there is none, delivers a message that was not delivered before. Returns false only if
// nothing more can happen.
fn task_first(world: &mut World<'_>, pick: u64) -> Result<bool, OutOfMemory>
    ensures events { IsLaterWorld world.old world.new }
    ensures fewer { IfOk result (λ more. IsTrue more → turns_left world.new < turns_left world.old) }
    ensures quiet { IfOk result (λ more. IsFalse more → IsQuiet world.new.plan world.new.state) }
{
    if run_some(world, pick)? {
        return Ok(true);
    }
    deliver_some(world, pick)
}

// Takes one turn with a number of the generator: now and then delivers an old message again, then runs a task or
// delivers a message for the first time. Returns false only if nothing more can happen.
fn take_turn(world: &mut World<'_>, x: u64) -> Result<bool, OutOfMemory>
    ensures events { IsLaterWorld world.old world.new }
    ensures fewer { IfOk result (λ more. IsTrue more → turns_left world.new < turns_left world.old) }
    ensures quiet { IfOk result (λ more. IsFalse more → IsQuiet world.new.plan world.new.state) }
{
    deliver_again(world, x)?;
    if prefers_task(x) {
        return task_first(world, pick_of(x));
    }
    message_first(world, pick_of(x))
}

/// Runs tasks and delivers messages until the world is quiescent, in an order that a seed chooses; now and then an old
/// message is delivered again. If memory is refused, the world is left as it is after the events so far.
pub fn drive(world: &mut World<'_>, seed: u64) -> Result<(), OutOfMemory>
    ensures events { IsLaterWorld world.old world.new }
    ensures quiet { OnOk result (IsQuiet world.new.plan world.new.state) }
{
    let mut x = next_choice(seed);
    'turns: while take_turn(world, x)? {
        x = next_choice(x);
    }
    Ok(())
}
