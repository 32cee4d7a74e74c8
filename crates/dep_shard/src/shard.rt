//! The entries of one shard, its write-backs and its trapped tasks.
ghost use Rattle.std.specs.Prelude.{◌≡◌, ◌+◌, ◌<◌, ◌≤◌, ◌↔◌, length, ◌∷◌, [], ◌++◌, slice_get, slice_index, None, Some, IsOk, IsSome, IsTrue, IfOk, OnOk, OnErr, IfNone, IfSome, is_some, if◌then◌else◌};
ghost use Rattle.std.specs.Option.{option_copied, option_map};
ghost use Rattle.std.specs.Map.{keys_of};
ghost use Rattle.std.specs.Map.Iter.{deref_pair};
ghost use Rattle.std.specs.List.{IsDistinct};
ghost use Rattle.ptg_base.specs.Entry.{Entry as EntryContent};
ghost use Rattle.ptg_base.specs.Limits.{most_flows, most_tasks};
ghost use Rattle.ptg_base.specs.Task.{Task};
ghost use Rattle.ptg_base.specs.TaskComparing.{same_task};
ghost use Rattle.dep_shard.specs.declared.shard.Arrived.TheVariants.{Fired};
ghost use Rattle.dep_shard.specs.Content.{HasSpares, KeepsSpares, Uses, HasNoReady, IsBest, IsReady, IsWaiting, IsNew, IsTileOf, IsUnchanged, KeepsAllButEntries, KeepsAllButWritten, KeepsEntriesAndWritten, Updates, Takes, Ends, IsEntryAt, HasWaitingAt, HasReadyAt, ArrivesAt, entry_of, entry_before, fresh, with_arrival, HasNoReadyOf};

use crate::arrivals::Arrivals;
use crate::entry::Entry;
use crate::parts::{Entries, Parts};
use crate::queue::Queue;
use crate::stock::Stock;
use crate::table::Table;
use crate::tile_list::TileWithNode;
use ptg_base::{Edge, OutOfMemory, TaskId, Tile, WriteBack};
use std::alloc::Global;
use std::marker::Model;
use term_core::Trap;

// This many stale candidates may always stay in the queue.
const STALE_ALLOWANCE: usize = 16;

// Besides, one stale candidate may stay for this many entries. So a walk passes at most this many entries for each
// claim since the last walk, and the new ones.
const ENTRIES_PER_STALE: usize = 8;

/// What has become of the target of an edge that came.
#[derive(Clone, Copy, Debug, PartialEq, Eq)]
pub enum Arrived {
    /// It waits for further edges.
    Waits,
    /// This edge was the last, and the target is ready.
    Fired,
}

/// One shard of the dependency table: the entries of its unclaimed tasks, what its tasks wrote back, and which trapped.
///
/// An addition within the spares cannot be refused. Without spares an addition takes memory as it needs it; one that is
/// refused lowers no spares.
#[derive(Drop)]
pub struct Shard {
    table: Table,
    queue: Queue,
    // How many entries wait. All others are ready.
    waiting: usize,
    stock: Stock,
    written: Vec<(WriteBack, Tile)>,
    trapped: Vec<(TaskId, Trap)>,
    running: u64,
    ended: u64,
}

impl Model for Shard {
    ghost use Rattle.std.specs.Prelude.{◌-◌, vec_len, vec_capacity};
    ghost use Rattle.dep_shard.specs.Content.{Content};
    ghost use Rattle.dep_shard.specs.Queue.{IsQueueOf};

    ghost Value = { Content };

    ghost view = { λ s.
        record {
          entries = s.table.entries;
          written = s.written.items;
          trapped = s.trapped.items;
          running = s.running;
          ended = s.ended;
          elems = s.stock.elems;
          spare = record {
            entries = s.table.spare;
            tiles = s.stock.spare;
            writes = vec_capacity s.written - vec_len s.written;
            traps = vec_capacity s.trapped - vec_len s.trapped;
          };
        } };

    ghost invariant = { λ s. IsQueueOf s.table.entries s.queue s.waiting };
}

impl Shard {
    /// A shard in which nothing has happened. A tile of type k has `elems[k]` numbers. The tasks are hashed without a
    /// key.
    pub fn new(alloc: Global, elems: &[u32]) -> Result<Shard, OutOfMemory>
        ensures { IfOk result (λ shard. IsNew shard elems.now) }
    {
        Shard::keyed(alloc, elems, 0)
    }

    /// As `new`, with a key for the hashes of tasks. If it is secret, whoever writes a job can't choose tasks whose
    /// look-ups take long. No clause speaks of it.
    pub fn keyed(alloc: Global, elems: &[u32], key: u64) -> Result<Shard, OutOfMemory>
        ensures { IfOk result (λ shard. IsNew shard elems.now) }
    {
        Ok(Shard {
            table: Table::new(alloc, key),
            queue: Queue::new(alloc),
            waiting: 0,
            stock: Stock::new(alloc, elems)?,
            written: Vec::new(alloc),
            trapped: Vec::new(alloc),
            running: 0,
            ended: 0,
        })
    }

    /// Takes memory for this many more entries, tiles by type number, write-backs and trapped tasks. After an `Ok` as
    /// many additions cannot be refused. An `Err` changes at most the spares, and lowers none.
    pub fn reserve(
        &mut self,
        entries: u64,
        tiles: &[u64],
        writes: u64,
        traps: u64,
    ) -> Result<(), OutOfMemory>
        requires { length tiles.now ≡ length self.old.elems }
        ensures ok { OnOk result (HasSpares self.new.spare entries tiles.now writes traps) }
        ensures same { IsUnchanged self.old self.new }
        ensures spare { KeepsSpares self.old.spare self.new.spare }
        ensures succeeds { HasSpares self.old.spare entries tiles.now writes traps → IsOk result }
    {
        self.reserve_entries(entries as usize)?;
        self.stock.reserve(tiles)?;
        self.written.reserve(writes as usize)?;
        self.trapped.reserve(traps as usize)?;
        Ok(())
    }

    // Takes memory for `n` more entries.
    fn reserve_entries(&mut self, n: usize) -> Result<(), OutOfMemory>
        ensures ok { OnOk result (n ≤ self.new.spare.entries) }
        ensures same { IsUnchanged self.old self.new }
        ensures spare { KeepsSpares self.old.spare self.new.spare }
        ensures succeeds { n ≤ self.old.spare.entries → IsOk result }
    {
        self.table.reserve(n)
    }

    /// Adds a ready entry for a task that has no entry. It uses a spare entry.
    pub fn add_ready(&mut self, t: &TaskId, priority: i64) -> Result<(), OutOfMemory>
        requires { entry_of self.old t.now ≡ None }
        ensures ok { OnOk result (Updates self.old.entries self.new.entries t.now (Some (fresh 0 priority))) }
        ensures err { OnErr result (self.new.entries ≡ self.old.entries) }
        ensures rest { KeepsAllButEntries self.old self.new }
        ensures spare { Uses self.old.spare self.new.spare 1 None 0 0 }
        ensures kept { OnErr result (KeepsSpares self.old.spare self.new.spare) }
        ensures succeeds { 0 < self.old.spare.entries → IsOk result }
    {
        self.reserve_entries(1)?;
        self.enter_ready(t, priority);
        Ok(())
    }

    // Adds an entry of a ready task, in room that was reserved.
    fn enter_ready(&mut self, t: &TaskId, priority: i64)
        requires new { entry_of self.old t.now ≡ None }
        requires room { 0 < self.old.spare.entries }
        ensures entries { Updates self.old.entries self.new.entries t.now (Some (fresh 0 priority)) }
        ensures rest { KeepsAllButEntries self.old self.new }
        ensures spare { Uses self.old.spare self.new.spare 1 None 0 0 }
    {
        self.table.insert(t.copy(), Entry::new(0, priority));
        self.queue.add(t, priority);
    }

    // Adds a waiting entry, to which nothing has come, at the end of the list. Returns its index.
    fn enter_waiting(&mut self, t: &TaskId, goal: u32, priority: i64) -> usize
        requires new { entry_of self.old t.now ≡ None }
        requires room { 0 < self.old.spare.entries }
        requires goal { 0 < goal }
        ensures at { slice_get self.new.entries result ≡ Some (t.now, fresh goal priority) }
        ensures entries { Updates self.old.entries self.new.entries t.now (Some (fresh goal priority)) }
        ensures rest { KeepsAllButEntries self.old self.new }
        ensures spare { Uses self.old.spare self.new.spare 1 None 0 0 }
    {
        let index = self.table.len();
        self.table.insert(t.copy(), Entry::new(goal, priority));
        self.waiting += 1;
        index
    }

    /// The best ready task: the one of the greatest priority, and of equal ones the first in task order. A search after
    /// many claims by task walks over all entries. Contracts see no change but spares that may grow.
    pub fn best_ready(&mut self) -> Option<TaskId>
        ensures same { IsUnchanged self.old self.new }
        ensures spare { KeepsSpares self.old.spare self.new.spare }
        ensures none { IfNone result (HasNoReady self.old.entries) }
        ensures some { IfSome result (IsBest self.old.entries) }
    {
        if self.waiting == self.table.len() {
            return None;
        }
        self.queue.best(&self.table)
    }

    /// The index of a task's entry in the list of entries, if the task has one. It is valid until an entry comes or
    /// goes.
    pub fn index_of(&self, t: &TaskId) -> Option<usize>
        ensures none { IfNone result (entry_of self.now t.now ≡ None) }
        ensures some { IfSome result (IsEntryAt self.now t.now) }
    {
        self.table.get_index_of(t)
    }

    /// Notes that an edge has come, with this tile of this type. The first edge of a task makes its entry and uses a
    /// spare entry; a tile uses a spare tile of its type. An entry keeps the goal and the priority that it was made
    /// with.
    pub fn arrive(
        &mut self,
        edge: &Edge,
        goal: u32,
        priority: i64,
        datatype: u32,
        tile: Option<&Tile>,
    ) -> Result<Arrived, OutOfMemory>
        requires flow { edge.now.in_flow < most_flows }
        requires goal { 0 < goal }
        requires waits { IsWaiting (entry_before self.old edge.now.to goal priority) }
        requires tile { IfSome (option_copied tile) (λ t. IsTileOf self.old.elems datatype t) }
        ensures ok { OnOk result
            (Updates self.old.entries self.new.entries edge.now.to
            (Some
            (with_arrival (entry_before self.old edge.now.to goal priority) edge.now.in_flow
            (option_copied tile.entry)))) }
        ensures fired { IfOk result (λ a.
            (a ≡ Fired)
            ↔ IsReady
            (with_arrival (entry_before self.old edge.now.to goal priority) edge.now.in_flow
            (option_copied tile.entry))) }
        ensures err { OnErr result (self.new.entries ≡ self.old.entries) }
        ensures rest { KeepsAllButEntries self.old self.new }
        ensures spare { Uses self.old.spare self.new.spare (if is_some (entry_of self.old edge.now.to) then 0 else 1)
            (if is_some tile.entry then Some datatype else None) 0 0 }
        ensures kept { OnErr result (KeepsSpares self.old.spare self.new.spare) }
        ensures succeeds { (entry_of self.old edge.now.to ≡ None → 0 < self.old.spare.entries)
            → (IsSome tile.entry → 0 < slice_index self.old.spare.tiles datatype) → IsOk result }
    {
        match self.index_of(&edge.to) {
            Some(index) => self.arrive_at(index, edge.in_flow, datatype, tile),
            None => self.arrive_first(edge, goal, priority, datatype, tile),
        }
    }

    /// Notes that an edge has come to a task whose entry is at this index and waits. A tile uses a spare tile of its
    /// type.
    pub fn arrive_at(
        &mut self,
        index: usize,
        flow: u8,
        datatype: u32,
        tile: Option<&Tile>,
    ) -> Result<Arrived, OutOfMemory>
        requires flow { flow < most_flows }
        requires waits { HasWaitingAt self.old index }
        requires tile { IfSome (option_copied tile) (λ t. IsTileOf self.old.elems datatype t) }
        ensures ok { OnOk result (ArrivesAt self.old.entries self.new.entries index flow (option_copied tile.entry)) }
        ensures fired { IfOk result (λ a.
            (t : Task) (e : EntryContent) → slice_get self.old.entries index ≡ Some (t, e)
            → (a ≡ Fired) ↔ IsReady (with_arrival e flow (option_copied tile.entry))) }
        ensures err { OnErr result (self.new.entries ≡ self.old.entries) }
        ensures rest { KeepsAllButEntries self.old self.new }
        ensures spare { Uses self.old.spare self.new.spare 0 (if is_some tile.entry then Some datatype else None) 0 0 }
        ensures kept { OnErr result (KeepsSpares self.old.spare self.new.spare) }
        ensures succeeds { (IsSome tile.entry → 0 < slice_index self.old.spare.tiles datatype) → IsOk result }
    {
        let copied = self.copy_in(datatype, tile)?;
        Ok(self.land(index, flow, copied))
    }

    /// Notes that the first edge has come to a task, which has no entry yet. It uses a spare entry, and a tile uses a
    /// spare tile of its type.
    pub fn arrive_first(
        &mut self,
        edge: &Edge,
        goal: u32,
        priority: i64,
        datatype: u32,
        tile: Option<&Tile>,
    ) -> Result<Arrived, OutOfMemory>
        requires flow { edge.now.in_flow < most_flows }
        requires goal { 0 < goal }
        requires new { entry_of self.old edge.now.to ≡ None }
        requires tile { IfSome (option_copied tile) (λ t. IsTileOf self.old.elems datatype t) }
        ensures ok { OnOk result
            (Updates self.old.entries self.new.entries edge.now.to
            (Some (with_arrival (fresh goal priority) edge.now.in_flow (option_copied tile.entry)))) }
        ensures fired { IfOk result (λ a.
            (a ≡ Fired) ↔ IsReady (with_arrival (fresh goal priority) edge.now.in_flow (option_copied tile.entry))) }
        ensures err { OnErr result (self.new.entries ≡ self.old.entries) }
        ensures rest { KeepsAllButEntries self.old self.new }
        ensures spare { Uses self.old.spare self.new.spare 1 (if is_some tile.entry then Some datatype else None) 0 0 }
        ensures kept { OnErr result (KeepsSpares self.old.spare self.new.spare) }
        ensures succeeds { 0 < self.old.spare.entries
            → (IsSome tile.entry → 0 < slice_index self.old.spare.tiles datatype) → IsOk result }
    {
        self.reserve_entries(1)?;
        let copied = self.copy_in(datatype, tile)?;
        let index = self.enter_waiting(&edge.to, goal, priority);
        Ok(self.land(index, edge.in_flow, copied))
    }

    // A copy of the tile and a node to hold it, if there is a tile.
    fn copy_in(
        &mut self,
        datatype: u32,
        tile: Option<&Tile>,
    ) -> Result<Option<TileWithNode>, OutOfMemory>
        requires { IfSome (option_copied tile) (λ t. IsTileOf self.old.elems datatype t) }
        ensures ok { IfOk result (λ made. option_map (λ m. m.0) made ≡ option_copied tile.entry) }
        ensures same { IsUnchanged self.old self.new }
        ensures spare { Uses self.old.spare self.new.spare 0 (if is_some tile.entry then Some datatype else None) 0 0 }
        ensures kept { OnErr result (KeepsSpares self.old.spare self.new.spare) }
        ensures succeeds { (IsSome tile.entry → 0 < slice_index self.old.spare.tiles datatype) → IsOk result }
    {
        self.stock.copy_if_any(datatype, tile)
    }

    // Notes that an edge has come to a waiting entry.
    fn land(&mut self, index: usize, flow: u8, tile: Option<TileWithNode>) -> Arrived
        requires flow { flow < most_flows }
        requires waits { HasWaitingAt self.old index }
        ensures entries { ArrivesAt self.old.entries self.new.entries index flow (option_map (λ m. m.0) tile) }
        ensures fired { (t : Task) (e : EntryContent) → slice_get self.old.entries index ≡ Some (t, e)
            → (result ≡ Fired) ↔ IsReady (with_arrival e flow (option_map (λ m. m.0) tile)) }
        ensures rest { KeepsAllButEntries self.old self.new }
        ensures spare { KeepsSpares self.old.spare self.new.spare }
    {
        let (task, entry) = self.table.pair_mut(index);
        entry.add(flow, tile);
        if entry.arrived() < entry.goal() {
            return Arrived::Waits;
        }
        self.waiting -= 1;
        self.queue.add(task, entry.priority());
        Arrived::Fired
    }

    /// Takes the ready entry of a task out and returns the tiles that came to it. The task runs from then on. Returns
    /// `None` if and only if the task has no ready entry; the shard is then unchanged.
    pub fn take_ready(&mut self, t: &TaskId) -> Option<Arrivals>
        requires { self.old.running < most_tasks }
        ensures none { IfNone result (HasNoReadyOf self.old t.now) }
        ensures same { IfNone result (self.new ≡ self.old) }
        ensures some { IfSome result (λ tiles. Takes self.old self.new t.now tiles) }
        ensures spare { KeepsSpares self.old.spare self.new.spare }
    {
        let index = self.index_of(t)?;
        if !self.is_ready_at(index) {
            return None;
        }
        let arrivals = self.take_at(index)?;
        self.forget_if_stale();
        Some(arrivals)
    }

    // Whether the entry at this index is ready.
    fn is_ready_at(&self, index: usize) -> bool
        ensures { (t : Task) (e : EntryContent) → slice_get self.now.entries index ≡ Some (t, e)
            → IsTrue result ↔ IsReady e }
    {
        match self.table.get_index(index) {
            Some((_task, entry)) => entry.arrived() == entry.goal(),
            None => false,
        }
    }

    /// Whether a task has a ready entry.
    pub fn is_ready(&self, t: &TaskId) -> bool
        ensures { IsTrue result ↔ ((e : EntryContent) × (entry_of self.now t.now ≡ Some e) × IsReady e) }
    {
        match self.index_of(t) {
            Some(index) => self.is_ready_at(index),
            None => false,
        }
    }

    // Takes the ready entry at this index out.
    fn take_at(&mut self, index: usize) -> Option<Arrivals>
        requires running { self.old.running < most_tasks }
        requires ready { HasReadyAt self.old index }
        ensures there { IsSome result }
        ensures some { IfSome result (λ tiles.
            (t : Task) → IsEntryAt self.old t index → Takes self.old self.new t tiles) }
        ensures spare { KeepsSpares self.old.spare self.new.spare }
    {
        let (_task, entry) = self.table.swap_remove_index(index)?;
        self.running += 1;
        Some(entry.into_arrivals())
    }

    // Lets the queue forget its candidates once many are stale. A walk over all entries then costs no more than the
    // claims since the last one, and stale candidates don't pile up.
    fn forget_if_stale(&mut self)
        ensures same { IsUnchanged self.old self.new }
        ensures spare { KeepsSpares self.old.spare self.new.spare }
    {
        let entries = self.table.len();
        let ready = entries.saturating_sub(self.waiting);
        self.queue
            .forget_if_stale(ready, entries / ENTRIES_PER_STALE + STALE_ALLOWANCE);
    }

    /// Writes a copy of a tile of this type back. It uses a spare write-back and a spare tile of the type.
    pub fn write(&mut self, w: &WriteBack, datatype: u32, tile: &Tile) -> Result<(), OutOfMemory>
        requires { IsTileOf self.old.elems datatype tile.now }
        ensures ok { OnOk result (self.new.written ≡ self.old.written ++ (w.now, tile.now) ∷ []) }
        ensures err { OnErr result (self.new.written ≡ self.old.written) }
        ensures rest { KeepsAllButWritten self.old self.new }
        ensures spare { Uses self.old.spare self.new.spare 0 (Some datatype) 1 0 }
        ensures kept { OnErr result (KeepsSpares self.old.spare self.new.spare) }
        ensures succeeds { 0 < self.old.spare.writes → 0 < slice_index self.old.spare.tiles datatype → IsOk result }
    {
        self.written.reserve(1)?;
        let copy = self.stock.copy_of(datatype, tile)?;
        let write = WriteBack {
            from: w.from.copy(),
            flow: w.flow,
            place: w.place,
        };
        self.written.push((write, copy)).unwrap();
        Ok(())
    }

    /// Notes that a running task has ended.
    pub fn end(&mut self)
        requires running { 0 < self.old.running }
        requires bound { self.old.ended < most_tasks }
        ensures ends { Ends self.old self.new }
        ensures rest { KeepsEntriesAndWritten self.old self.new }
        ensures trapped { self.new.trapped ≡ self.old.trapped }
        ensures spare { KeepsSpares self.old.spare self.new.spare }
    {
        self.running -= 1;
        self.ended += 1;
    }

    /// Keeps the tiles of a task that has ended for later edges and write-backs, as far as there is room for them.
    /// Contracts see no change but spares that may grow.
    pub fn reuse(&mut self, spent: &mut Arrivals)
        ensures same { IsUnchanged self.old self.new }
        ensures none { spent.new ≡ [] }
        ensures spare { KeepsSpares self.old.spare self.new.spare }
    {
        self.stock.keep_all(spent);
    }

    /// Notes that a running task has trapped: it ends, and is kept with its cause. It uses a spare trapped task.
    pub fn trap(&mut self, t: &TaskId, cause: Trap) -> Result<(), OutOfMemory>
        requires running { 0 < self.old.running }
        requires bound { self.old.ended < most_tasks }
        ensures ok { OnOk result (self.new.trapped ≡ self.old.trapped ++ (t.now, cause) ∷ []) }
        ensures ends { OnOk result (Ends self.old self.new) }
        ensures rest { KeepsEntriesAndWritten self.old self.new }
        ensures err { OnErr result (IsUnchanged self.old self.new) }
        ensures spare { Uses self.old.spare self.new.spare 0 None 0 1 }
        ensures kept { OnErr result (KeepsSpares self.old.spare self.new.spare) }
        ensures succeeds { 0 < self.old.spare.traps → IsOk result }
    {
        self.trapped.push((t.copy(), cause))?;
        self.end();
        Ok(())
    }

    /// How many entries there are. No two are for the same task.
    pub fn len(&self) -> usize
        ensures len { result ≡ length self.now.entries }
        ensures distinct { IsDistinct same_task (keys_of self.now.entries) }
    {
        self.table.len()
    }

    /// The entry at this index of the list, with its task.
    pub fn entry(&self, index: usize) -> Option<(&TaskId, &Entry)>
        ensures value { option_map deref_pair result ≡ slice_get self.now.entries index }
        ensures entry { IfSome result (λ (t, e). entry_of self.now t.now ≡ Some e.now) }
    {
        self.table.get_index(index)
    }

    /// The write-back at this index of the list, with its tile.
    pub fn written(&self, index: usize) -> Option<(&WriteBack, &Tile)>
        ensures { option_map deref_pair result ≡ slice_get self.now.written index }
    {
        let row = self.written.as_slice().get(index)?;
        Some((&row.0, &row.1))
    }

    /// The trapped task at this index of the list, with its cause.
    pub fn trapped(&self, index: usize) -> Option<(&TaskId, Trap)>
        ensures { option_map (λ (t, trap). (t.now, trap)) result ≡ slice_get self.now.trapped index }
    {
        let row = self.trapped.as_slice().get(index)?;
        Some((&row.0, row.1))
    }

    /// The trapped tasks, each with its cause.
    pub fn traps(&self) -> &[(TaskId, Trap)]
        ensures { result.now ≡ self.now.trapped }
    {
        self.trapped.as_slice()
    }

    /// How many tasks run.
    pub fn running(&self) -> u64
        ensures { result ≡ self.now.running }
    {
        self.running
    }

    /// How many tasks have ended.
    pub fn ended(&self) -> u64
        ensures { result ≡ self.now.ended }
    {
        self.ended
    }

    /// Whether no task runs and no entry is ready.
    pub fn is_calm(&self) -> bool
        ensures { IsTrue result ↔ ((self.now.running ≡ 0) × HasNoReady self.now.entries) }
    {
        self.running == 0 && self.waiting == self.table.len()
    }

    /// What is left of a shard at the end of a run.
    pub fn into_parts(self) -> Parts
        ensures entries { result.entries ≡ self.entries }
        ensures written { result.written.items ≡ self.written }
        ensures trapped { result.trapped.items ≡ self.trapped }
    {
        let Shard {
            table,
            queue: _queue,
            waiting: _waiting,
            stock: _stock,
            written,
            trapped,
            running: _running,
            ended: _ended,
        } = self;
        Parts {
            entries: Entries::of(table),
            written,
            trapped,
        }
    }
}
