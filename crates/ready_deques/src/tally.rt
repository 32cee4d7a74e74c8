//! The rule of a deque of ready tasks, and what each kind of step shows under it.

use crossbeam_deque::protocol::{Join, Lesson, Outcome, Protocol, Split};
use ptg_base::TaskId;
use std::collections::LinkedList;

/// What the holder of an end of a deque pushed to it and took from it, and how many parts it has of the right to know
/// the whole. No value of it is made: only contracts see tallies.
pub struct Tally {
    pub parts: u64,
    pub pushed: LinkedList<TaskId>,
    pub taken: LinkedList<TaskId>,
}

/// The rule: each id was pushed as often as it was taken and is in the deque.
pub struct DequeRule;

impl Protocol<TaskId, Tally> for DequeRule {
    ghost use Rattle.std.specs.Prelude.{[]};
    ghost use Rattle.ready_deques.specs.Rule.{Balanced, all_parts, tally};

    ghost holds = { Balanced };

    ghost first = { tally all_parts [] [] };

    ghost guest = { tally 0 [] [] };
}

/// A part of the right to know the whole is cut off, and put back together with what its holder took.
pub struct Shares;

impl Split<Tally> for Shares {
    ghost use Rattle.std.specs.Prelude.{[], ◌-◌};
    ghost use Rattle.ready_deques.specs.Rule.{tally};

    ghost left = { λ t. tally (t.parts - 1) t.pushed t.taken };

    ghost right = { λ t. tally 1 [] [] };
}

impl Join<Tally> for Shares {
    ghost use Rattle.std.specs.Prelude.{[]};
    ghost use Rattle.ready_deques.specs.Rule.{tally, joined};

    ghost both = { joined };

    ghost spent = { tally 0 [] [] };
}

/// An end that has no part, and so can take nothing.
pub struct Partless;

impl Split<Tally> for Partless {
    ghost use Rattle.std.specs.Prelude.{[]};
    ghost use Rattle.ready_deques.specs.Rule.{tally};

    ghost left = { λ t. t };

    ghost right = { λ t. tally 0 [] [] };
}

/// An id was pushed.
pub struct Pushed;

impl Outcome<TaskId, Tally> for Pushed {
    ghost use Rattle.std.specs.Prelude.{◌≡◌, ◌++◌};
    ghost use Rattle.ready_deques.specs.Rule.{tally};

    ghost then = { λ t ids after. after ≡ tally t.parts (t.pushed ++ ids) t.taken };
}

/// An id was taken at the back, or the deque was empty at one moment.
pub struct Popped;

impl Outcome<TaskId, Tally> for Popped {
    ghost use Rattle.std.specs.Prelude.{◌≡◌, ◌++◌};
    ghost use Rattle.ready_deques.specs.Rule.{tally, WasEmpty};

    ghost then = { λ t ids after. after ≡ tally t.parts t.pushed (t.taken ++ ids) };

    ghost empty = { λ t. WasEmpty t.parts t.pushed t.taken };
}

/// An id was taken at the front, or the deque held at most one id at one moment.
pub struct Taken;

impl Outcome<TaskId, Tally> for Taken {
    ghost use Rattle.std.specs.Prelude.{◌≡◌, ◌++◌};
    ghost use Rattle.ready_deques.specs.Rule.{tally, HeldAtMost};

    ghost then = { λ t ids after. after ≡ tally t.parts t.pushed (t.taken ++ ids) };

    ghost empty = { λ t. HeldAtMost 1 t.pushed t.taken };
}

/// The holder of all parts knows every id that was pushed or taken: each was pushed as often as it was taken and is
/// held.
pub struct Whole;

impl Lesson<TaskId, Tally> for Whole {
    ghost use Rattle.std.specs.Prelude.{◌≡◌, ◌+◌};
    ghost use Rattle.ptg_base.specs.Task.{Task};
    ghost use Rattle.ready_deques.specs.Rule.{times};

    ghost fact = { λ t held. (id : Task) → times id t.pushed ≡ times id t.taken + times id held };
}
