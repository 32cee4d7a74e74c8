//! What is left of a shard at the end of a run.
ghost use Rattle.std.specs.Prelude.{◌≡◌, Some, IfSome, length, slice_get};
ghost use Rattle.std.specs.Option.{option_map};
ghost use Rattle.std.specs.Map.{keys_of};
ghost use Rattle.std.specs.Map.Iter.{deref_pair};
ghost use Rattle.std.specs.List.{IsDistinct};
ghost use Rattle.ptg_base.specs.TaskComparing.{same_task};
ghost use Rattle.dep_shard.specs.Content.{entry_in};

use crate::entry::Entry;
use crate::table::Table;
use ptg_base::{TaskId, Tile, WriteBack};
use std::marker::Model;
use term_core::Trap;

/// The entries that are left of a shard, which can be read, and the write-backs and trapped tasks, which are handed
/// over.
#[derive(Drop)]
pub struct Parts {
    pub entries: Entries,
    pub written: Vec<(WriteBack, Tile)>,
    pub trapped: Vec<(TaskId, Trap)>,
}

/// The entries of a shard, each with its task.
#[derive(Drop)]
pub struct Entries {
    table: Table,
}

impl Model for Entries {
    ghost use Rattle.dep_shard.specs.Content as content;

    ghost Value = { content.Entries };

    ghost view = { λ e. e.table.entries };
}

impl Entries {
    // The entries of this table.
    pub(crate) fn of(table: Table) -> Entries
        ensures { result ≡ table.entries }
    {
        Entries { table }
    }

    /// How many entries there are. No two are for the same task.
    pub fn len(&self) -> usize
        ensures len { result ≡ length self.now }
        ensures distinct { IsDistinct same_task (keys_of self.now) }
    {
        self.table.len()
    }

    /// The entry at this index, with its task.
    pub fn get(&self, index: usize) -> Option<(&TaskId, &Entry)>
        ensures value { option_map deref_pair result ≡ slice_get self.now index }
        ensures entry { IfSome result (λ (t, e). entry_in self.now t.now ≡ Some e.now) }
    {
        self.table.get_index(index)
    }
}
