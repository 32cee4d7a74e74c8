//! The two kinds of ends of a deque.
ghost use Rattle.std.specs.Prelude.{◌≡◌, ◌+◌, ◌-◌, ◌<◌, ◌≤◌, [], ◌∷◌, ◌++◌, length, IfOk, IfErr, MatchOption, MatchResult, OnErr};
ghost use Rattle.ptg_base.specs.Task.{Task};
ghost use Rattle.crossbeam_deque.specs.Steals.{MatchSteal};
ghost use Rattle.ready_deques.specs.Ends.{Owner, Thief, IsNew, initial_capacity, less, new_thief};
ghost use Rattle.ready_deques.specs.Rule.{times, HeldAtMost, WasEmpty, all_parts};
ghost use Rattle.ready_deques.specs.Stolen.{MatchStolen};

use crate::stolen::Stolen;
use crate::tally::{DequeRule, Partless, Popped, Pushed, Shares, Taken, Tally, Whole};
use crossbeam_deque::{Pass, Steal, Stealer, Worker};
use ptg_base::{OutOfMemory, TaskId};
use std::alloc::Global;
use std::marker::Model;
use std::mem;
use std::sync::Wait;

// The number of ids that a deque has room for from the start.
const INITIAL_CAPACITY: usize = 16;

// The end of a deque where its worker pushes and pops.
#[derive(Drop)]
pub(crate) struct OwnerEnd {
    worker: Worker<TaskId, Global, Tally, DequeRule>,
}

impl Model for OwnerEnd {
    ghost use Rattle.std.specs.Prelude.{◌≡◌, ◌<◌, ◌≤◌, length};
    ghost use Rattle.crossbeam_deque.specs.Handles.{worker_deque, worker_flavor, worker_port, worker_view, worker_capacity, worker_index};
    ghost use Rattle.ready_deques.specs.Ends.{Owner, initial_capacity};

    ghost Value = { Owner };

    ghost view = { λ b. record {
      deque = worker_deque b.worker;
      parts = (worker_view b.worker).parts;
      pushed = (worker_view b.worker).pushed;
      taken = (worker_view b.worker).taken;
    } };

    ghost invariant = { λ b. (worker_flavor b.worker ≡ 1) × (worker_port b.worker ≡ 0)
        × (initial_capacity ≤ worker_capacity b.worker)
        × (worker_index b.worker ≤ length (worker_view b.worker).pushed) × (0 < (worker_view b.worker).parts) };
}

impl OwnerEnd {
    // An empty deque.
    pub(crate) fn new(alloc: Global) -> Result<OwnerEnd, OutOfMemory>
        ensures { IfOk result (IsNew 0) }
    {
        Ok(OwnerEnd {
            worker: Worker::lifo_as(alloc, INITIAL_CAPACITY)?,
        })
    }

    // An end of the same deque for another worker, with one part.
    pub(crate) fn thief(&mut self) -> Result<ThiefEnd, OutOfMemory>
        requires { 1 < self.old.parts }
        ensures ok { IfOk result (λ thief. (thief ≡ new_thief self.old) × (self.new ≡ less 1 self.old)) }
        ensures err { OnErr result (self.new ≡ self.old) }
    {
        let stealer = self.worker.stealer()?;
        let pass = self.worker.another::<Shares>();
        Ok(ThiefEnd { stealer, pass })
    }

    // Adds at the back. The id is returned only if at least `initial_capacity` were pushed before.
    pub(crate) fn push(&mut self, id: TaskId) -> Result<(), TaskId>
        ensures pushed { MatchResult result (λ _. self.new ≡ record self.old { pushed = self.old.pushed ++ id ∷ [] })
            (λ back. (back ≡ id) × (self.new ≡ self.old)) }
        ensures refused { IfErr result (λ _. initial_capacity ≤ length self.old.pushed) }
    {
        self.worker.push_as::<Pushed>(id)
    }

    // Takes at the back. None only if the deque was empty at one moment of this call.
    pub(crate) fn pop(&mut self) -> Option<TaskId>
        ensures { MatchOption result ((self.new ≡ self.old) × WasEmpty self.old.parts self.old.pushed self.old.taken)
            (λ id. self.new ≡ record self.old { taken = self.old.taken ++ id ∷ [] }) }
    {
        self.worker.pop_as::<Popped>()
    }

    // Takes back the part of a thief's end of this deque, which takes nothing from then on.
    pub(crate) fn keep(&mut self, thief: &mut ThiefEnd)
        requires { thief.old.deque ≡ self.old.deque }
        ensures own { self.new
            ≡ record self.old { parts = self.old.parts + thief.old.parts; taken = self.old.taken ++ thief.old.taken } }
        ensures thief { thief.new ≡ record { deque = thief.old.deque; parts = 0; taken = [] } }
    {
        let partless = self.worker.another::<Partless>();
        let pass = mem::replace(&mut thief.pass, partless);
        self.worker.absorb::<Shares>(pass);
    }

    // Takes over a thief's end of this deque, with its part and what it took.
    pub(crate) fn absorb(&mut self, thief: ThiefEnd)
        requires { thief.deque ≡ self.old.deque }
        ensures { self.new
            ≡ record self.old { parts = self.old.parts + thief.parts; taken = self.old.taken ++ thief.taken } }
    {
        let ThiefEnd { stealer: _, pass } = thief;
        self.worker.absorb::<Shares>(pass);
    }

    // With all parts, this end knows of every id that was taken: none was taken more often than it was pushed.
    pub(crate) fn audit(&mut self)
        requires { self.old.parts ≡ all_parts }
        ensures same { self.new ≡ self.old }
        ensures bounded { (id : Task) → times id self.old.taken ≤ times id self.old.pushed }
    {
        self.worker.len_as::<Whole>();
    }
}

// The end of a deque where another worker takes.
#[derive(Drop)]
pub(crate) struct ThiefEnd {
    stealer: Stealer<TaskId, Global, Tally, DequeRule>,
    pass: Pass<TaskId, Tally>,
}

impl Model for ThiefEnd {
    ghost use Rattle.std.specs.Prelude.{◌≡◌, []};
    ghost use Rattle.crossbeam_deque.specs.Handles.{view as tally_of, IsPassOf, stealer_deque};
    ghost use Rattle.ready_deques.specs.Ends.{Thief};

    ghost Value = { Thief };

    ghost view = { λ f.
        record { deque = stealer_deque f.stealer; parts = (tally_of f.pass).parts; taken = (tally_of f.pass).taken } };

    ghost invariant = { λ f. IsPassOf (stealer_deque f.stealer) f.pass × ((tally_of f.pass).pushed ≡ []) };
}

impl ThiefEnd {
    // Takes at the front. `Empty` only if the deque held at most one id at one moment of this call. If another thread
    // was first, it tries again.
    pub(crate) fn take<R: Wait>(&mut self, rt: &R) -> Stolen
        requires { 0 < self.old.parts }
        ensures { MatchStolen result (λ id. self.new ≡ record self.old { taken = self.old.taken ++ id ∷ [] })
            ((self.new ≡ self.old) × HeldAtMost 1 [] self.old.taken) }
    {
        for _ in rt.forever() {
            match self.try_take() {
                Steal::Success(id) => return Stolen::Task(id),
                Steal::Empty => return Stolen::Empty,
                Steal::Retry => {}
            }
        }
        unreachable!()
    }

    // One try. It may return `Retry` if another thread was first.
    fn try_take(&mut self) -> Steal<TaskId>
        requires { 0 < self.old.parts }
        ensures { MatchSteal result ((self.new ≡ self.old) × HeldAtMost 1 [] self.old.taken) (self.new ≡ self.old)
            (λ id. self.new ≡ record self.old { taken = self.old.taken ++ id ∷ [] }) }
    {
        self.stealer.steal_as::<Taken>(&mut self.pass)
    }
}
