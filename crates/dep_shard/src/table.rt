//! The entries of a shard by task.
ghost use Rattle.std.specs.Prelude.{◌≡◌, ◌+◌, ◌^◌, ◌<◌, ◌≤◌, length, ◌∷◌, [], ◌++◌, slice_get, swap_remove, position, None, Some, IsOk, OnOk, IfNone, IfSome};
ghost use Rattle.std.specs.Borrow.{sem};
ghost use Rattle.std.specs.List.{IsDistinct};
ghost use Rattle.std.specs.Map.{keys_of};
ghost use Rattle.std.specs.Map.Iter.{deref_pair};
ghost use Rattle.std.specs.Option.{option_copied, option_map};
ghost use Rattle.indexmap.specs.IndexMap.{IsEmpty, index_map_len, spare};
ghost use Rattle.ptg_base.specs.TaskComparing.{same_task};
ghost use Rattle.dep_shard.specs.Content.{Updates, entry_in};
ghost use Rattle.dep_shard.specs.Table.{spare_of};
ghost use Rattle.dep_shard.specs.TableLends.{lends_entry};

use crate::entry::Entry;
use crate::hashing::TaskHashing;
use indexmap::IndexMap;
use ptg_base::{OutOfMemory, TaskId};
use std::alloc::Global;
use std::marker::Model;
use std::mem;

// Entries by their tasks.
type TaskMap = IndexMap<TaskId, Entry, TaskHashing>;

// Room for this many entries is never too much for the map in use.
const SMALL_RESERVE: usize = 64;

// One in this many of the reserved entries is expected at a time.
const EXPECTED_FRACTION: usize = 16;

// The entries of a shard by task: the map in use, and an empty one that is reserved and takes its place once it is
// full. So the map in use stays small, and look-ups fast, while few of the reserved entries are in use.
#[derive(Drop)]
pub(crate) struct Table {
    used: TaskMap,
    // It has room for all entries that were reserved, those in use among them.
    reserved: TaskMap,
}

impl Model for Table {
    ghost use Rattle.std.specs.Prelude.{length};
    ghost use Rattle.indexmap.specs.IndexMap.{IsEmpty, spare};
    ghost use Rattle.dep_shard.specs.Table.{TableContent, spare_of};

    ghost Value = { TableContent };

    ghost view = { λ t.
        record {
          entries = t.used.entries;
          spare = spare_of (length t.used.entries) (spare t.used) (spare t.reserved);
        } };

    ghost invariant = { λ t. IsEmpty t.reserved };
}

impl Table {
    // A table without entries, whose tasks are hashed with this key.
    pub(crate) fn new(alloc: Global, key: u64) -> Table
        ensures { result.entries ≡ [] }
    {
        let hashing = TaskHashing::with_key(key);
        Table {
            used: IndexMap::with_hasher(alloc, hashing),
            reserved: IndexMap::with_hasher(alloc, hashing),
        }
    }

    // How many entries there are. No two are for the same task.
    pub(crate) fn len(&self) -> usize
        ensures len { result ≡ length self.now.entries }
        ensures small { result < 2 ^ 63 }
        ensures distinct { IsDistinct same_task (keys_of self.now.entries) }
    {
        self.used.len()
    }

    // How many more entries can come without memory.
    fn spare(&self) -> usize
        ensures { result ≡ self.now.spare }
    {
        let room = self.used.capacity() - self.used.len();
        let beyond = self.reserved.capacity().saturating_sub(self.used.len());
        room.max(beyond)
    }

    // Takes memory for `n` more entries. An `Err` changes at most the spares, and lowers none.
    pub(crate) fn reserve(&mut self, n: usize) -> Result<(), OutOfMemory>
        ensures ok { OnOk result (n ≤ self.new.spare) }
        ensures entries { self.new.entries ≡ self.old.entries }
        ensures spare { self.old.spare ≤ self.new.spare }
        ensures succeeds { n ≤ self.old.spare → IsOk result }
    {
        if n <= self.spare() {
            return Ok(());
        }
        if n <= SMALL_RESERVE {
            self.used.reserve(n)?;
            return Ok(());
        }
        match self.used.len().checked_add(n) {
            Some(all) => {
                self.reserved.reserve(all)?;
                self.used.reserve(n / EXPECTED_FRACTION)?;
                Ok(())
            }
            None => Err(OutOfMemory),
        }
    }

    // Adds an entry at the end, for a task that has none. It uses a spare.
    pub(crate) fn insert(&mut self, task: TaskId, entry: Entry)
        requires new { entry_in self.old.entries task ≡ None }
        requires room { 0 < self.old.spare }
        ensures entries { self.new.entries ≡ self.old.entries ++ (task, entry) ∷ [] }
        ensures updates { Updates self.old.entries self.new.entries task (Some entry) }
        ensures spare { self.old.spare ≤ self.new.spare + 1 }
    {
        make_room(&mut self.used, &mut self.reserved);
        let _none = self.used.insert(task, entry).unwrap();
    }

    // The entry of a task, if it has one.
    pub(crate) fn get(&self, task: &TaskId) -> Option<&Entry>
        ensures { option_copied result ≡ entry_in self.now.entries task.now }
    {
        self.used.get(task)
    }

    // The index of a task's entry in the list of entries, if the task has one.
    pub(crate) fn get_index_of(&self, task: &TaskId) -> Option<usize>
        ensures index { result ≡ position (same_task task.now) (keys_of self.now.entries) }
        ensures none { IfNone result (entry_in self.now.entries task.now ≡ None) }
    {
        self.used.get_index_of(task)
    }

    // The entry at this index of the list, with its task.
    pub(crate) fn get_index(&self, index: usize) -> Option<(&TaskId, &Entry)>
        ensures entry { option_map deref_pair result ≡ slice_get self.now.entries index }
        ensures value { IfSome result (λ (t, e). entry_in self.now.entries t.now ≡ Some e.now) }
    {
        self.used.get_index(index)
    }

    // The entry at this index, which can be changed, with its task.
    pub(crate) fn pair_mut(&mut self, index: usize) -> (&TaskId, &mut Entry)
        requires { index < length self.old.entries }
        ensures* writes_back { sem 𝓛 (lends_entry self.entry index result.1) }
        ensures value { slice_get self.old.entries index ≡ Some (result.0.now, result.1.now) }
        ensures distinct { IsDistinct same_task (keys_of self.old.entries) }
    {
        self.used.pair_mut(index)
    }

    // Takes the entry at this index out. The last entry takes its place.
    pub(crate) fn swap_remove_index(&mut self, index: usize) -> Option<(TaskId, Entry)>
        ensures entry { result ≡ slice_get self.old.entries index }
        ensures entries { IfSome result (λ e. self.new.entries ≡ swap_remove self.old.entries index e) }
        ensures updates { IfSome result (λ (t, e). Updates self.old.entries self.new.entries t None) }
        ensures unchanged { IfNone result (self.new.entries ≡ self.old.entries) }
        ensures spare { self.old.spare ≤ self.new.spare }
    {
        self.used.swap_remove_index(index)
    }
}

// Makes room for one more entry in the map in use: if it is full, the reserved map takes its place.
fn make_room(used: &mut TaskMap, reserved: &mut TaskMap)
    requires empty { IsEmpty reserved.old }
    requires room { 0 < spare_of (index_map_len used.old) (spare used.old) (spare reserved.old) }
    ensures room { 0 < spare used.new }
    ensures entries { used.new.entries ≡ used.old.entries }
    ensures empty { IsEmpty reserved.new }
    ensures spare { spare_of (index_map_len used.old) (spare used.old) (spare reserved.old)
        ≤ spare_of (index_map_len used.new) (spare used.new) (spare reserved.new) }
{
    if used.len() == used.capacity() {
        take_over(used, reserved);
    }
}

// Moves all entries, in their order, into the reserved map, which is in use from then on. The other map becomes the
// reserved one.
fn take_over(used: &mut TaskMap, reserved: &mut TaskMap)
    requires empty { IsEmpty reserved.old }
    requires room { index_map_len used.old ≤ spare reserved.old }
    ensures entries { used.new.entries ≡ used.old.entries }
    ensures empty { IsEmpty reserved.new }
    ensures spare { spare reserved.old ≤ spare used.new + index_map_len used.old }
    ensures kept { index_map_len used.old + spare used.old ≤ spare reserved.new }
{
    // `len` is called for its clause that the tasks are distinct, which the proof cites.
    let _len = used.len();
    reserved.append(used).unwrap();
    mem::swap(used, reserved);
}
