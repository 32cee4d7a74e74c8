//! The run of a task.

ghost use Rattle.std.specs.Prelude.{◌≡◌, ◌≢◌, ◌<◌, ◌≤◌, ◌↔◌, [], Err, IfErr, IfOk, IsTrue, OnErr, OnOk, Some, false};
ghost use Rattle.std.specs.Prelude.{if◌then◌else◌, length, slice_get, ℕ};
ghost use Rattle.indexmap.specs.IndexMap.{spare};
ghost use Rattle.dep_iter.specs.Items as items;
ghost use Rattle.rank_core.specs.Sound.{IsSoundWorld};
ghost use Rattle.rank_core.specs.World as world;
ghost use Rattle.dep_shard.specs.Content.{Content};
ghost use Rattle.flow_meaning.specs.Backward.{ended};
ghost use Rattle.flow_meaning.specs.Machine.{MayClaim};
ghost use Rattle.task_run.specs.Bench.{HoldsOutputs, IsBenchOf};
ghost use Rattle.rank_core.specs.Keeping.{IsMailOf, idle_moment};
ghost use Rattle.rank_core.specs.RankRoom.{HasRoomFor};
ghost use Rattle.rank_core.specs.Views.{with_run};
ghost use Rattle.rank_core.specs.RunningTasks.{AreBlank, HoldsAt, IsRunningTask, after, before, data_of};
ghost use Rattle.rank_core.specs.RunningTasks.{its_edges_between, its_edges_within, part_way, plan_of, task_of};

use crate::history::{History, Number};
use crate::leaving::leave_within;
use crate::mail::Mail;
use crate::message::Message;
use crate::posting::post_all;
use crate::room::{Outgoing, count_writes, make_room, outgoing_of};
use crate::running_task::RunningTask;
use crate::world::World;
use dep_iter::TaskAt;
use dep_shard::Shard;
use ptg_base::{OutOfMemory, TaskId};
use range_space::Numbers;
use shard_calls::home_at;
use std::alloc::Global;
use task_run::{Bench, Start};
use term_core::Trap;

// How the body of a task has ended, and the messages to other ranks, whose tiles are still blank.
#[derive(Drop)]
struct Ending {
    body: Result<(), Trap>,
    messages: Vec<Message>,
}

// Runs the body of a running task, which its rank has ready. The task runs from then on.
fn begin(at: &RunningTask, shard: &mut Shard, bench: &mut Bench) -> Result<(), Trap>
    requires runs { IsRunningTask at.now }
    requires bench { IsBenchOf (plan_of at.now) bench.old }
    requires holds { HoldsAt at.now (idle_moment (before at.now).machine) shard.old }
    ensures holds { HoldsAt at.now (part_way at.now []) shard.new }
    ensures room { (n m : ℕ) → HasRoomFor n m shard.old → HasRoomFor n m shard.new }
    ensures elems { bench.new.elems ≡ bench.old.elems }
    ensures ok { OnOk result (HoldsOutputs (plan_of at.now) (data_of at.now) (task_of at.now) bench.new) }
    ensures trap { IfErr result (λ cause. ended (plan_of at.now) (data_of at.now) (task_of at.now) ≡ Some (Err cause)) }
{
    let arrivals = shard.take_ready(at.task.task).unwrap();
    let start = Start {
        at: at.task,
        given: at.given,
    };
    bench.run(&start, arrivals)
}

// Leaves and posts the items of a running task that has outputs, and ends it.
fn end_with_outputs(
    at: &RunningTask,
    shard: &mut Shard,
    mail: &mut Mail,
    bench: &Bench,
    messages: Vec<Message>,
)
    requires runs { IsRunningTask at.now }
    requires tiles { HoldsOutputs (plan_of at.now) (data_of at.now) (task_of at.now) bench.now }
    requires holds { HoldsAt at.now (part_way at.now []) shard.old }
    requires room { HasRoomFor (length (its_edges_within at.now))
        (length (items.write_backs (plan_of at.now) (task_of at.now))) shard.old }
    requires blank { AreBlank (plan_of at.now) (its_edges_between at.now) messages.items }
    requires mail { IsMailOf (before at.now) mail.old }
    requires mail_room { length messages.items ≤ spare mail.old.under_way }
    ensures holds { HoldsAt at.now (idle_moment (after at.now).machine) shard.new }
    ensures mail { IsMailOf (after at.now) mail.new }
{
    leave_within(at, shard, bench);
    post_all(at, mail, bench, messages);
    shard.end();
}

// Ends a running task by a trap.
fn end_by_trap(at: &RunningTask, shard: &mut Shard, cause: Trap)
    requires runs { IsRunningTask at.now }
    requires trap { ended (plan_of at.now) (data_of at.now) (task_of at.now) ≡ Some (Err cause) }
    requires holds { HoldsAt at.now (part_way at.now []) shard.old }
    requires room { (n : ℕ) × (m : ℕ) × HasRoomFor n m shard.old }
    ensures { HoldsAt at.now (idle_moment (after at.now).machine) shard.new }
{
    shard.trap(at.task.task, cause).unwrap();
}

// Ends a running task whose body has ended so.
fn end_run(at: &RunningTask, shard: &mut Shard, mail: &mut Mail, bench: &Bench, ending: Ending)
    requires runs { IsRunningTask at.now }
    requires ok { OnOk ending.body
        (HoldsOutputs (plan_of at.now) (data_of at.now) (task_of at.now) bench.now) }
    requires trap { IfErr ending.body (λ cause.
        ended (plan_of at.now) (data_of at.now) (task_of at.now) ≡ Some (Err cause)) }
    requires holds { HoldsAt at.now (part_way at.now []) shard.old }
    requires room { HasRoomFor (length (its_edges_within at.now))
        (length (items.write_backs (plan_of at.now) (task_of at.now))) shard.old }
    requires blank { AreBlank (plan_of at.now) (its_edges_between at.now) ending.messages.items }
    requires mail { IsMailOf (before at.now) mail.old }
    requires mail_room { length ending.messages.items ≤ spare mail.old.under_way }
    ensures holds { HoldsAt at.now (idle_moment (after at.now).machine) shard.new }
    ensures mail { IsMailOf (after at.now) mail.new }
{
    let Ending { body, messages } = ending;
    if let Err(cause) = body {
        end_by_trap(at, shard, cause);
        return;
    }
    end_with_outputs(at, shard, mail, bench, messages);
}

// Runs the body of a running task and ends it. All memory was taken before.
fn run_task(
    at: &RunningTask,
    shard: &mut Shard,
    mail: &mut Mail,
    bench: &mut Bench,
    messages: Vec<Message>,
)
    requires runs { IsRunningTask at.now }
    requires bench { IsBenchOf (plan_of at.now) bench.old }
    requires holds { HoldsAt at.now (idle_moment (before at.now).machine) shard.old }
    requires room { HasRoomFor (length (its_edges_within at.now))
        (length (items.write_backs (plan_of at.now) (task_of at.now))) shard.old }
    requires blank { AreBlank (plan_of at.now) (its_edges_between at.now) messages.items }
    requires mail { IsMailOf (before at.now) mail.old }
    requires mail_room { length messages.items ≤ spare mail.old.under_way }
    ensures holds { HoldsAt at.now (idle_moment (after at.now).machine) shard.new }
    ensures mail { IsMailOf (after at.now) mail.new }
    ensures bench { IsBenchOf (plan_of at.now) bench.new }
{
    let ending = Ending {
        body: begin(at, shard, bench),
        messages,
    };
    end_run(at, shard, mail, bench, ending);
    let _spent = bench.clear();
}

// Takes the memory for a running task, and runs it. If memory is refused, nothing but spares changes.
fn run_in_shard(
    alloc: Global,
    at: &RunningTask,
    shard: &mut Shard,
    mail: &mut Mail,
    bench: &mut Bench,
) -> Result<(), OutOfMemory>
    requires runs { IsRunningTask at.now }
    requires bench { IsBenchOf (plan_of at.now) bench.old }
    requires holds { HoldsAt at.now (idle_moment (before at.now).machine) shard.old }
    requires mail { IsMailOf (before at.now) mail.old }
    ensures holds { OnOk result (HoldsAt at.now (idle_moment (after at.now).machine) shard.new) }
    ensures mail { OnOk result (IsMailOf (after at.now) mail.new) }
    ensures same { OnErr result (HoldsAt at.now (idle_moment (before at.now).machine) shard.new) }
    ensures kept { OnErr result (IsMailOf (before at.now) mail.new) }
    ensures bench { IsBenchOf (plan_of at.now) bench.new }
{
    let Outgoing { messages, within } = outgoing_of(alloc, at)?;
    let writes = count_writes(at)?;
    make_room(alloc, at.matched, shard, within, writes)?;
    mail.under_way.reserve(messages.len())?;
    run_task(at, shard, mail, bench, messages);
    Ok(())
}

// Runs the task in the shard of its rank.
fn run_at(
    alloc: Global,
    at: &RunningTask,
    ranks: &mut Vec<Shard>,
    mail: &mut Mail,
    bench: &mut Bench,
) -> Result<(), OutOfMemory>
    requires runs { IsRunningTask at.now }
    requires within { at.now.rank < length ranks.old.items }
    requires bench { IsBenchOf (plan_of at.now) bench.old }
    requires holds { (y : Content) → slice_get ranks.old.items at.now.rank ≡ Some y
        → HoldsAt at.now (idle_moment (before at.now).machine) y }
    requires mail { IsMailOf (before at.now) mail.old }
    ensures others { (i : ℕ) → i ≢ at.now.rank → slice_get ranks.new.items i ≡ slice_get ranks.old.items i }
    ensures count { length ranks.new.items ≡ length ranks.old.items }
    ensures holds { OnOk result
        ((z : Content) → slice_get ranks.new.items at.now.rank ≡ Some z
        → HoldsAt at.now (idle_moment (after at.now).machine) z) }
    ensures mail { OnOk result (IsMailOf (after at.now) mail.new) }
    ensures same { OnErr result
        ((z : Content) → slice_get ranks.new.items at.now.rank ≡ Some z
        → HoldsAt at.now (idle_moment (before at.now).machine) z) }
    ensures kept { OnErr result (IsMailOf (before at.now) mail.new) }
    ensures bench { IsBenchOf (plan_of at.now) bench.new }
{
    run_in_shard(alloc, at, &mut ranks[at.rank], mail, bench)
}

impl<'m> World<'m> {
    // Runs a task of this rank that may run. All memory is taken first.
    fn run_ready(&mut self, task: &TaskAt, rank: usize) -> Result<(), OutOfMemory>
        requires plan { task.now.plan.now ≡ self.old.plan }
        requires may { MayClaim self.old.plan self.old.state.machine task.now.task.now }
        requires rank { rank ≡ world.rank_of self.old.plan self.old.ranks task.now.task.now }
        ensures ok { OnOk result (self.new ≡ with_run task.now.task.now self.old) }
        ensures err { OnErr result (self.new ≡ self.old) }
        ensures sound { IsSoundWorld self.new.plan self.new.given self.new.ranks self.new.state }
    {
        self.given.data_are_well_made();
        let at = RunningTask {
            matched: self.matched,
            given: &self.given,
            history: &self.history,
            ranks: self.ranks.len(),
            task: &*task,
            rank,
        };
        run_at(
            self.alloc,
            &at,
            &mut self.ranks,
            &mut self.mail,
            &mut self.bench,
        )?;
        let ranks = Number {
            value: self.ranks.len() as u64,
        };
        self.history = History::with_run(
            &self.history,
            self.matched,
            &self.given,
            &ranks,
            task.task,
        );
        Ok(())
    }

    // Runs a task of the job if it may run, and returns whether it did.
    fn run_found(&mut self, task: &TaskAt) -> Result<bool, OutOfMemory>
        requires { task.now.plan.now ≡ self.old.plan }
        ensures exact { IfOk result (λ ran.
            IsTrue ran ↔ MayClaim self.old.plan self.old.state.machine task.now.task.now) }
        ensures state { IfOk result (λ ran.
            self.new ≡ (if ran then with_run task.now.task.now self.old else self.old)) }
        ensures err { OnErr result (self.new ≡ self.old) }
        ensures sound { IsSoundWorld self.new.plan self.new.given self.new.ranks self.new.state }
    {
        let rank = home_at(task, self.ranks.len());
        if !self.ranks[rank].is_ready(task.task) {
            return Ok(false);
        }
        self.run_ready(task, rank)?;
        Ok(true)
    }

    /// Runs a task if it may run, and returns whether it did. It may run if and only if it is a task of the job, has
    /// not run, and all edges into it were sent within its rank or delivered. Its body is run on the tiles that came to
    /// it. If it has outputs, its write-backs and its edges to its own rank are sent at once, and its edges to other
    /// ranks become messages in the text's order. If it may not run, or memory is refused, nothing changes.
    pub fn run(&mut self, t: &TaskId) -> Result<bool, OutOfMemory>
        ensures exact { IfOk result (λ ran. IsTrue ran ↔ MayClaim self.old.plan self.old.state.machine t.now) }
        ensures state { IfOk result (λ ran. self.new ≡ (if ran then with_run t.now self.old else self.old)) }
        ensures err { OnErr result (self.new ≡ self.old) }
        ensures sound { IsSoundWorld self.new.plan self.new.given self.new.ranks self.new.state }
    {
        let matched = self.matched;
        let mut room = Numbers::new();
        match TaskAt::find(matched.plan(), t, &mut room) {
            Some(task) => self.run_found(&task),
            None => Ok(false),
        }
    }
}
