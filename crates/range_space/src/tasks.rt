//! Iterates over the tasks of a class.

ghost use Rattle.std.specs.Prelude.{◌≡◌, ◌≤◌, length};
ghost use Rattle.std.specs.Iterator.{YieldsFirst, item_count};
ghost use Rattle.ptg_base.specs.Limits.{most_locals};
ghost use Rattle.range_space.specs.Tasks.{params_of, tasks};

use crate::all_locals::AllLocals;
use crate::numbers::Numbers;
use ptg_base::MOST_PARAMS;
use std::marker::Model;
use term_core::{ClassSpace, local};

/// An iterator over the tasks of a class, each by its parameters, in walk order. Contracts see it as the list of those
/// that are still to come. A prefix under which the next definition has no value has no task.
#[derive(Drop)]
pub struct Space<'a> {
    space: &'a ClassSpace,
    lists: AllLocals<'a>,
}

impl<'a> Model for Space<'a> {
    ghost use Rattle.std.specs.Prelude.{List, ℤ, map};
    ghost use Rattle.range_space.specs.Tasks.{params_of};

    ghost Value = { List (List ℤ) };

    ghost view = { λ s. map (params_of s.space.now.params) s.lists };
}

// The values of the parameters of a class among the locals of a task.
fn params_at(space: &ClassSpace, locals: &[i64]) -> Numbers<MOST_PARAMS>
    ensures { result ≡ params_of space.now.params locals.now }
{
    let mut params = Numbers::new();
    for definition in space.params.as_slice() {
        params.push(local(locals, u16::from(*definition)));
    }
    params
}

impl<'a> Space<'a> {
    /// All tasks of a class.
    pub fn new(space: &'a ClassSpace) -> Space<'a>
        requires { length space.now.defs ≤ most_locals }
        ensures { result ≡ tasks space.now }
    {
        Space {
            space,
            lists: AllLocals::new(space),
        }
    }
}

impl Iterator for Space<'_> {
    type Item = Numbers<MOST_PARAMS>;

    ghost next_gives = { YieldsFirst (λ rest. rest) };

    ghost remaining = { item_count (λ rest. rest) };

    /// The parameters of the next task in walk order, and None after the last one.
    fn next(&mut self) -> Option<Numbers<MOST_PARAMS>> {
        let locals = self.lists.next()?;
        Some(params_at(self.space, locals.as_slice()))
    }
}
