//! The candidates for the best ready task.
//!
//! Most ready tasks are claimed by id, and no search asks for the best one. So a queue begins empty, and nothing is
//! noted. The first search walks over all entries and makes a candidate for each ready one. From then on the queue is
//! listed: each task that becomes ready gets a candidate. The candidate of a task that was taken stays and is stale.
//!
//! The shard lets the queue forget all candidates once too many are stale, and the next search walks again. So claims
//! pay for the walks. If memory for a candidate is refused, the queue forgets all as well. A search that cannot list
//! the candidates finds the best task by a walk alone.
ghost use Rattle.std.specs.Prelude.{◌≡◌, IfNone, IfSome, IsTrue, false, true};
ghost use Rattle.std.specs.BinaryHeap.{IsHeap, heap_items};
ghost use Rattle.dep_shard.specs.Content.{HasNoReady, IsBest};
ghost use Rattle.dep_shard.specs.Queue.{Adds, HasEveryReady, HasLiveFront, Serves, order, candidate_at as candidate_of_entry_at, is_live as is_live_at};

use crate::table::Table;
use ptg_base::TaskId;
use std::alloc::Global;
use std::cmp::Reverse;
use std::collections::BinaryHeap;
use std::marker::Model;

// A task with its priority. It was ready when it came to the queue, and is stale once it was taken.
type Candidate = (i64, Reverse<TaskId>);

// The greatest priority comes first, and of equal ones the task that is first in task order.
type Heap = BinaryHeap<Candidate>;

// The candidates, while they are listed.
#[derive(Drop)]
pub(crate) struct Queue {
    heap: Heap,
    // Whether every ready task has a candidate.
    listed: bool,
}

impl Model for Queue {
    ghost use Rattle.std.specs.BinaryHeap.{IsHeap, heap_items};
    ghost use Rattle.dep_shard.specs.Queue.{QueueContent, order};

    ghost Value = { QueueContent };

    ghost view = { λ q. record { listed = q.listed; candidates = heap_items q.heap } };

    ghost invariant = { λ q. IsHeap order (heap_items q.heap) };
}

impl Queue {
    // A queue that is not listed.
    pub(crate) fn new(alloc: Global) -> Queue
        ensures { result.listed ≡ false }
    {
        Queue {
            heap: BinaryHeap::new(alloc),
            listed: false,
        }
    }

    // Notes that a task is ready, if the queue is listed. If memory is refused, the queue forgets all candidates.
    pub(crate) fn add(&mut self, task: &TaskId, priority: i64)
        ensures { Adds self.old self.new priority task.now }
    {
        if !self.listed {
            return;
        }
        if self.heap.push((priority, Reverse(task.copy()))).is_err() {
            self.forget();
        }
    }

    // Forgets all candidates.
    fn forget(&mut self)
        ensures { self.new.listed ≡ false }
    {
        self.heap.clear();
        self.listed = false;
    }

    // Forgets all candidates if more of them are stale than this, while this many tasks are ready.
    pub(crate) fn forget_if_stale(&mut self, ready: usize, most_stale: usize)
        ensures { self.new.listed ≡ true → self.new ≡ self.old }
    {
        let stale = self.heap.len().saturating_sub(ready);
        if stale > most_stale {
            self.forget();
        }
    }

    // The best ready task.
    pub(crate) fn best(&mut self, table: &Table) -> Option<TaskId>
        requires serves { Serves table.now.entries self.old }
        ensures serves { Serves table.now.entries self.new }
        ensures none { IfNone result (HasNoReady table.now.entries) }
        ensures some { IfSome result (IsBest table.now.entries) }
    {
        self.list(table);
        if self.listed {
            self.first(table)
        } else {
            best_by_walk(table)
        }
    }

    // Lists the candidates, if memory for them is not refused.
    fn list(&mut self, table: &Table)
        requires { Serves table.now.entries self.old }
        ensures { Serves table.now.entries self.new }
    {
        if !self.listed {
            self.listed = list_ready(table, &mut self.heap);
        }
    }

    // The best ready task, by the candidates. Drops the stale ones before it.
    fn first(&mut self, table: &Table) -> Option<TaskId>
        requires ready { HasEveryReady table.now.entries self.old.candidates }
        ensures ready { HasEveryReady table.now.entries self.new.candidates }
        ensures none { IfNone result (HasNoReady table.now.entries) }
        ensures some { IfSome result (IsBest table.now.entries) }
    {
        drop_stale(table, &mut self.heap);
        let best = self.heap.peek()?;
        Some(best.1.0.copy())
    }
}

// Whether the task of this candidate has a ready entry of its priority.
fn is_live(table: &Table, candidate: &Candidate) -> bool
    ensures { result ≡ is_live_at table.now.entries candidate.now.0 candidate.now.1.0 }
{
    match table.get(&candidate.1.0) {
        Some(e) => e.arrived() == e.goal() && e.priority() == candidate.0,
        None => false,
    }
}

// Drops the stale candidates before the first live one.
fn drop_stale(table: &Table, heap: &mut Heap)
    requires heap { IsHeap order (heap_items heap.old) }
    requires ready { HasEveryReady table.now.entries (heap_items heap.old) }
    ensures heap { IsHeap order (heap_items heap.new) }
    ensures ready { HasEveryReady table.now.entries (heap_items heap.new) }
    ensures front { HasLiveFront table.now.entries (heap_items heap.new) }
{
    while let Some(first) = heap.peek() {
        if is_live(table, first) {
            return;
        }
        let _stale = heap.pop();
    }
}

// The candidate of the entry at this index, if the entry is ready.
fn candidate_at(table: &Table, index: usize) -> Option<Candidate>
    ensures { result ≡ candidate_of_entry_at table.now.entries index }
{
    match table.get_index(index) {
        Some((task, entry)) if entry.arrived() == entry.goal() => Some((
            entry.priority(),
            Reverse(task.copy()),
        )),
        _ => None,
    }
}

// Makes a candidate for each ready entry. Returns whether there was memory for all of them; else none are left.
fn list_ready(table: &Table, heap: &mut Heap) -> bool
    requires { IsHeap order (heap_items heap.old) }
    ensures heap { IsHeap order (heap_items heap.new) }
    ensures ready { IsTrue result → HasEveryReady table.now.entries (heap_items heap.new) }
{
    for index in 0..table.len() {
        if let Some(candidate) = candidate_at(table, index) {
            if heap.push(candidate).is_err() {
                heap.clear();
                return false;
            }
        }
    }
    true
}

// The best ready task, by a walk over all entries. It takes no memory.
fn best_by_walk(table: &Table) -> Option<TaskId>
    ensures none { IfNone result (HasNoReady table.now.entries) }
    ensures some { IfSome result (IsBest table.now.entries) }
{
    let mut best = None;
    for index in 0..table.len() {
        best = best.max(candidate_at(table, index));
    }
    let (_priority, Reverse(task)) = best?;
    Some(task)
}
