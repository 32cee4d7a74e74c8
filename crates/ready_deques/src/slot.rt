//! The end of a deque where its worker pushes and pops, with a slot for the newest id.

ghost use Rattle.std.specs.Prelude.{◌≡◌, ◌+◌, ◌<◌, ◌≤◌, [], ◌∷◌, ◌++◌, length, true, false, None, Some, IfErr, MatchOption, MatchResult, option_to_list};
ghost use Rattle.ptg_base.specs.Task.{Task};
ghost use Rattle.ready_deques.specs.Ends.{Owner, initial_capacity};
ghost use Rattle.ready_deques.specs.Rule.{times, WasEmpty};

use crate::ends::OwnerEnd;
use crate::history::IdHistory;
use ptg_base::TaskId;
use std::marker::Model;

// The end where a worker pushes and pops. Its newest id stays in a slot, where thieves don't see it, until the next
// push moves it to the deque. Contracts see all ids that were pushed and taken here, also those that never left the
// slot.
#[derive(Drop)]
pub(crate) struct SlottedEnd {
    end: OwnerEnd,
    // The newest id, if it was not taken yet.
    slot: Option<TaskId>,
    pushed: IdHistory,
    taken: IdHistory,
}

impl Model for SlottedEnd {
    ghost use Rattle.std.specs.Prelude.{◌<◌, option_to_list};
    ghost use Rattle.ready_deques.specs.Ends.{CountsWithSlot, Owner};

    ghost Value = { Owner };

    ghost view = { λ s. record {
      deque = s.end.deque;
      parts = s.end.parts;
      pushed = s.pushed.ids;
      taken = s.taken.ids;
    } };

    ghost invariant = { λ s. (0 < s.end.parts)
        × CountsWithSlot s.end (option_to_list s.slot) s.pushed.ids s.taken.ids };
}

// Moves the id in the slot, if there is one, to the deque. False if the deque cannot take it: then it stays.
fn make_way(end: &mut OwnerEnd, slot: &mut Option<TaskId>) -> bool
    ensures moved { result ≡ true → (slot.new ≡ None)
        × (end.new ≡ record end.old { pushed = end.old.pushed ++ option_to_list slot.old }) }
    ensures stays { result ≡ false → (slot.new ≡ slot.old) × (end.new ≡ end.old)
        × (initial_capacity ≤ length end.old.pushed) }
{
    let Some(older) = slot.take() else {
        return true;
    };
    match end.push(older) {
        Ok(()) => true,
        Err(back) => {
            *slot = Some(back);
            false
        }
    }
}

impl SlottedEnd {
    // An end with an empty slot, where nothing was pushed or taken yet.
    pub(crate) fn new(end: OwnerEnd) -> SlottedEnd
        requires parts { 0 < end.parts }
        requires pushed { end.pushed ≡ [] }
        requires taken { end.taken ≡ [] }
        ensures { result ≡ end }
    {
        SlottedEnd {
            end,
            slot: None,
            pushed: IdHistory::new(),
            taken: IdHistory::new(),
        }
    }

    // Puts an id into the slot, and moves the one that was there to the back of the deque. If the deque cannot take it,
    // it stays in the slot, and the new id is returned.
    pub(crate) fn push(&mut self, id: TaskId) -> Result<(), TaskId>
        ensures pushed { MatchResult result (λ _. self.new ≡ record self.old { pushed = self.old.pushed ++ id ∷ [] })
            (λ back. (back ≡ id) × (self.new ≡ self.old)) }
        ensures refused { IfErr result (λ _. initial_capacity ≤ length self.old.pushed) }
    {
        if !make_way(&mut self.end, &mut self.slot) {
            return Err(id);
        }
        self.pushed = IdHistory::with(&self.pushed, &id);
        self.slot = Some(id);
        Ok(())
    }

    // Whether an id is in the slot.
    pub(crate) fn keeps_id(&self) -> bool {
        self.slot.is_some()
    }

    // Takes the id in the slot or, if there is none, at the back of the deque. None only if the slot was empty and the
    // deque was empty at one moment of this call.
    pub(crate) fn pop(&mut self) -> Option<TaskId>
        ensures { MatchOption result ((self.new ≡ self.old) × WasEmpty self.old.parts self.old.pushed self.old.taken)
            (λ id. self.new ≡ record self.old { taken = self.old.taken ++ id ∷ [] }) }
    {
        if let Some(id) = self.slot.take() {
            self.taken = IdHistory::with(&self.taken, &id);
            return Some(id);
        }
        let Some(id) = self.end.pop() else {
            return None;
        };
        self.taken = IdHistory::with(&self.taken, &id);
        Some(id)
    }

    // The end without the slot. By its own counts, at most as many of each id are left, pushed and not taken, as by the
    // counts with the slot.
    pub(crate) fn into_end(self) -> OwnerEnd
        ensures deque { result.deque ≡ self.deque }
        ensures parts { result.parts ≡ self.parts }
        ensures counts { (id : Task)
            → times id self.taken + times id result.pushed ≤ times id self.pushed + times id result.taken }
    {
        let SlottedEnd {
            end,
            slot: _,
            pushed: _,
            taken: _,
        } = self;
        end
    }
}
