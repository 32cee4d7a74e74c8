//! One worker's ends of the deques: where it pushes, pops and steals.
ghost use Rattle.std.specs.Prelude.{◌≡◌, ◌≢◌, ◌+◌, ◌<◌, ◌≤◌, ℕ, [], length, ⊤, All, map, sum_by, slice_get, Some, IfErr, IfNone, MatchOption, MatchResult};
ghost use Rattle.ptg_base.specs.Task.{Task};
ghost use Rattle.ready_deques.specs.Ends.{IsNew, initial_capacity};
ghost use Rattle.ready_deques.specs.Hands.{AreTheOthers, SameWorker, TakenAtMostAsPushed, fresh, taken_from, after_push, after_take};
ghost use Rattle.ready_deques.specs.Rule.{AllTaken, HeldAtMost, WasEmpty, times};
ghost use Rattle.ready_deques.specs.Stolen.{MatchStolen};

use crate::ends::{OwnerEnd, ThiefEnd};
use crate::slot::SlottedEnd;
use crate::stolen::Stolen;
use ptg_base::TaskId;
use std::marker::Model;
use std::sync::Wait;
use std::thread::Threads;

/// One worker's ends of the deques of ready tasks. Each worker pushes and pops at the back of its own deque, and steals
/// at the front of the others'. It keeps its newest id in a slot, where no other worker can steal it. The next push
/// moves that id to the deque.
///
/// Contracts see the ids that the worker pushed and took, whether they went through the deque or only the slot.
///
/// An id is only a hint: the right to run its task comes from the table of dependences.
#[derive(Drop)]
pub struct Hands {
    number: u32,
    own: SlottedEnd,
    // A thief's end of each worker's deque, in order of the workers' numbers. The one of its own deque has no part and
    // takes nothing.
    thieves: Vec<ThiefEnd>,
}

impl Model for Hands {
    ghost use Rattle.std.specs.Prelude.{◌≡◌, ◌+◌, ◌<◌, length, map, slice_get, slice_set, Some};
    ghost use Rattle.ready_deques.specs.Ends.{OthersHaveParts};
    ghost use Rattle.ready_deques.specs.Hands.{Account};
    ghost use Rattle.ready_deques.specs.Rule.{all_parts};

    ghost Value = { Account };

    ghost view = { λ h. record {
      number = h.number;
      deques = map (λ f. f.deque) h.thieves.items;
      pushed = h.own.pushed;
      taken = slice_set (map (λ f. f.taken) h.thieves.items) h.number h.own.taken;
    } };

    ghost invariant = { λ h. (h.number < length h.thieves.items)
        × (h.own.parts + length h.thieves.items ≡ all_parts + 1)
        × (slice_get (map (λ f. f.deque) h.thieves.items) h.number ≡ Some h.own.deque)
        × OthersHaveParts h.number h.thieves.items };
}

impl Hands {
    // The hands of a worker before the first call. The part of the thief's end of its own deque goes to the owner's
    // end.
    pub(crate) fn new(number: u32, mut own: OwnerEnd, mut thieves: Vec<ThiefEnd>) -> Hands
        requires number { number < length thieves.items }
        requires new { IsNew (length thieves.items) own }
        requires deque { slice_get (map (λ f. f.deque) thieves.items) number ≡ Some own.deque }
        requires none { All (λ f. f.taken ≡ []) thieves.items }
        requires parts { All (λ f. f.parts ≡ 1) thieves.items }
        ensures { result ≡ fresh (map (λ f. f.deque) thieves.items) number }
    {
        own.keep(&mut thieves[number as usize]);
        Hands {
            number,
            own: SlottedEnd::new(own),
            thieves,
        }
    }

    /// The worker's number.
    pub fn number(&self) -> u32
        ensures { result ≡ self.now.number }
    {
        self.number
    }

    /// The number of workers.
    pub fn workers(&self) -> u32
        ensures { result ≡ length self.now.deques }
    {
        self.thieves.len() as u32
    }

    /// Whether the worker's slot holds an id, so that its next push leaves an id to thieves. It has no contract, since
    /// an id is only a hint.
    pub fn keeps_id(&self) -> bool {
        self.own.keeps_id()
    }

    /// Puts the id into the worker's slot, and moves the id that was there to the back of its deque. That may need
    /// memory. If it is refused, the older id stays in the slot and the new one is returned. That happens only after
    /// `initial_capacity` pushes.
    pub fn push(&mut self, id: TaskId) -> Result<(), TaskId>
        ensures pushed { MatchResult result (λ _. self.new ≡ after_push self.old id) (λ back.
            (back ≡ id) × (self.new ≡ self.old)) }
        ensures refused { IfErr result (λ _. initial_capacity ≤ length self.old.pushed) }
        ensures same { SameWorker self.old self.new }
    {
        self.own.push(id)
    }

    /// Takes the id in the worker's slot or, if there is none, at the back of its own deque. None only if the slot was
    /// empty and the deque was empty at one moment of this call. In a team of one, each id was then taken as often as
    /// it was pushed.
    pub fn pop(&mut self) -> Option<TaskId>
        ensures taken { MatchOption result (self.new ≡ self.old) (λ id.
            self.new ≡ after_take self.old.number self.old id) }
        ensures empty { IfNone result
            ((parts : ℕ) × WasEmpty parts self.old.pushed (taken_from self.old.number self.old)) }
        ensures alone { length self.old.deques ≡ 1
            → IfNone result (AllTaken self.old.pushed (taken_from self.old.number self.old)) }
        ensures same { SameWorker self.old self.new }
    {
        self.own.pop()
    }

    /// Takes at the front of another worker's deque, never from its slot. `Empty` only if the deque, without the slot,
    /// held at most one id at one moment of this call. If another worker was first, it tries again, and so may wait.
    pub fn steal<R: Threads + Wait + Sync>(&mut self, rt: &R, from: u32) -> Stolen
        requires another { (from < length self.old.deques) × (from ≢ self.old.number) }
        ensures taken { MatchStolen result (λ id. self.new ≡ after_take from self.old id) (self.new ≡ self.old) }
        ensures empty { MatchStolen result (λ _. ⊤) (HeldAtMost 1 [] (taken_from from self.old)) }
        ensures same { SameWorker self.old self.new }
    {
        self.thieves[from as usize].take(rt)
    }

    /// Ends the use of all hands of one `make`: these and the others. It shows that they together took each id from
    /// this worker's deque at most as often as it was pushed there.
    pub fn settle(self, others: Vec<Hands>)
        requires { AreTheOthers self others.items }
        ensures { TakenAtMostAsPushed self others.items }
    {
        let Hands {
            number,
            own,
            thieves: _,
        } = self;
        let mut end = own.into_end();
        gather(&mut end, number, others);
        end.audit();
    }

    // The thief's end of the deque of `worker`.
    fn into_thief(self, worker: u32) -> ThiefEnd
        requires { worker < length self.deques }
        ensures deque { slice_get self.deques worker ≡ Some result.deque }
        ensures taken { worker ≢ self.number → result.taken ≡ taken_from worker self }
        ensures parts { worker ≢ self.number → result.parts ≡ 1 }
    {
        let Hands {
            number: _,
            own: _,
            mut thieves,
        } = self;
        thieves.swap_remove(worker as usize)
    }
}

// The owner's end of the deque of `worker` takes over the others' ends of it.
fn gather(own: &mut OwnerEnd, worker: u32, others: Vec<Hands>)
    requires { All (λ o. (slice_get o.deques worker ≡ Some own.old.deque) × (o.number ≢ worker)) others.items }
    ensures same { (own.new.deque ≡ own.old.deque) × (own.new.pushed ≡ own.old.pushed) }
    ensures parts { own.new.parts ≡ own.old.parts + length others.items }
    ensures taken { (id : Task)
        → times id own.new.taken ≡ times id own.old.taken + sum_by (λ o. times id (taken_from worker o)) others.items }
{
    for hands in others {
        own.absorb(hands.into_thief(worker));
    }
}
