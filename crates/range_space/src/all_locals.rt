//! Iterates over the lists of locals of a class.

ghost use Rattle.std.specs.Prelude.{◌≡◌, ◌≤◌, length};
ghost use Rattle.std.specs.Iterator.{YieldsFirst, item_count};
ghost use Rattle.ptg_base.specs.Limits.{most_locals};
ghost use Rattle.range_space.specs.Tasks.{all_locals};

use crate::numbers::Numbers;
use crate::walk::{advance, first};
use ptg_base::MOST_LOCALS;
use std::marker::Model;
use term_core::ClassSpace;

/// An iterator over the lists of locals of the tasks of a class, in walk order. Contracts see it as the list of those
/// that are still to come. A prefix under which the next definition has no value has no list.
#[derive(Drop)]
pub struct AllLocals<'a> {
    space: &'a ClassSpace,
    locals: Numbers<MOST_LOCALS>,
    live: bool,
}

impl<'a> Model for AllLocals<'a> {
    ghost use Rattle.std.specs.Prelude.{◌≡◌, ◌≤◌, true, List, ℤ, length};
    ghost use Rattle.ptg_base.specs.Limits.{most_locals};
    ghost use Rattle.range_space.specs.RemainingLocals.{remaining_locals};

    ghost Value = { List (List ℤ) };

    ghost view = { λ s. remaining_locals s.live s.space.now s.locals };

    ghost invariant = { λ s.
        (length s.space.now.defs ≤ most_locals) × (s.live ≡ true → length s.locals ≡ length s.space.now.defs) };
}

impl<'a> AllLocals<'a> {
    /// The locals of all tasks of a class.
    pub fn new(space: &'a ClassSpace) -> AllLocals<'a>
        requires { length space.now.defs ≤ most_locals }
        ensures { result ≡ all_locals space.now }
    {
        let mut locals = Numbers::new();
        let live = first(space.defs.as_slice(), &mut locals);
        AllLocals {
            space,
            locals,
            live,
        }
    }
}

impl Iterator for AllLocals<'_> {
    type Item = Numbers<MOST_LOCALS>;

    ghost next_gives = { YieldsFirst (λ rest. rest) };

    ghost remaining = { item_count (λ rest. rest) };

    /// The locals of the next task in walk order, and None after the last one.
    fn next(&mut self) -> Option<Numbers<MOST_LOCALS>> {
        if !self.live {
            return None;
        }
        let given = self.locals.copy();
        self.live = advance(self.space.defs.as_slice(), 0, &mut self.locals);
        Some(given)
    }
}
