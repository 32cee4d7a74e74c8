//! A run on one thread.

ghost use Rattle.std.specs.Prelude.{◌≡◌, ◌↔◌, IsTrue, IfOk, OnOk, OnErr, Some, None, if◌then◌else◌};
ghost use Rattle.std.specs.Map.{lookup, set_value};
ghost use Rattle.ptg_base.specs.TaskComparing.{same_task};
ghost use Rattle.plan_core.specs.declared.plan.Plan.{Plan};
ghost use Rattle.coll_data.specs.Data.{Data};
ghost use Rattle.dep_iter.specs.Consistent.{IsConsistent};
ghost use Rattle.flow_meaning.specs.Ending as ending;
ghost use Rattle.flow_meaning.specs.Ending.{output_tile};
ghost use Rattle.flow_meaning.specs.Machine as events;
ghost use Rattle.flow_meaning.specs.Machine.{MayClaim};
ghost use Rattle.dep_iter.specs.Edges as edges;
ghost use Rattle.dep_iter.specs.Items as items;
ghost use Rattle.dep_iter.specs.Tasks.{IsTask};
ghost use Rattle.flow_core.specs.RunState.{HasLetGo, IsRunning, end_of, machine, mark_of, opening_run, with_claim, with_send};
ghost use Rattle.flow_core.specs.Fits.{Fits, FitsSome, HasFinished, MaySendNow};
ghost use Rattle.flow_core.specs.Possible as possible;
ghost use Rattle.flow_core.specs.Possible.{GoesToWaiting, IsOutputItem, KeepsTilesFor};
ghost use Rattle.flow_core.specs.SentItems.{IsUnsent};

mod answer;
mod quiescent;

use crate::arrivals::{count_item, number_at};
use crate::body::run_task;
use crate::end::{End, has_outputs};
use crate::inputs::{copy_if_any, inputs_of, take_tiles};
use crate::outputs::{keep_tiles, tile_at};
use crate::possible::{copy_of_item, is_item, item_flow, sender};
use crate::sent_items::SentItems;
use coll_data::Given;
use dep_iter::{Matched, TaskAt, is_task, locals_of};
use goal_count::goal;
use indexmap::IndexMap;
use ptg_base::{Item, OutOfMemory, Seq, TaskId, Tile};
use std::alloc::Global;
use std::marker::Model;
use term_core::Trap;

/// A run on one thread. Contracts see the claimed tasks, each with how it ended once it has, and the items that were
/// sent, each with its tile. They also see which tiles of ended tasks are kept.
pub struct State {
    alloc: Global,
    // The claimed tasks in the order of the claims, each with how it ended; `None` while it runs.
    claims: IndexMap<TaskId, Option<End>>,
    // For each task that has ended without a trap, the tiles that it left, until they are dropped.
    outputs: IndexMap<TaskId, Seq<Option<Tile>>>,
    sent: SentItems,
    // How many edges were sent to each task that is not claimed, if one was.
    arrived: IndexMap<TaskId, u32>,
}

impl Drop for State {
    fn drop(self) {
        let State {
            alloc: _alloc,
            claims: _claims,
            outputs: _outputs,
            sent: _sent,
            arrived: _arrived,
        } = self;
    }
}

impl Model for State {
    ghost use Rattle.flow_core.specs.RunState.{RunState};
    ghost use Rattle.flow_core.specs.Keeping.{Keeps};

    ghost Value = { RunState };

    ghost view = { λ s. record { claims = s.claims.entries; sends = s.sent.sends; outputs = s.outputs.entries } };

    ghost invariant = { λ s. Keeps s.claims.entries s.arrived.entries s.sent };
}

// Notes how a running task ended.
fn mark(claims: &mut IndexMap<TaskId, Option<End>>, t: &TaskId, end: End)
    requires { lookup (same_task t.now) claims.old.entries ≡ Some None }
    ensures { claims.new.entries ≡ set_value (same_task t.now) claims.old.entries (Some end) }
{
    if let Some(mark) = claims.get_mut(t) {
        *mark = Some(end);
    }
}

impl State {
    /// A run in which nothing is claimed and nothing is sent. It fits every job and its data.
    pub fn start(alloc: Global) -> State
        ensures state { result ≡ opening_run }
        ensures fits { (P : Plan) (G : Data) → Fits P G result }
    {
        State {
            alloc,
            claims: IndexMap::new(alloc),
            outputs: IndexMap::new(alloc),
            sent: SentItems::new(alloc),
            arrived: IndexMap::new(alloc),
        }
    }

    /// Claims a task, which is running from then on. Returns true if and only if it is a task of the job, was not
    /// claimed, and all edges into it were sent. Otherwise, and when out of memory, nothing changes.
    pub fn claim(&mut self, m: &Matched, t: &TaskId) -> Result<bool, OutOfMemory>
        ensures exact { IfOk result (λ claimed.
            (G : Data) → Fits m.now G self.old → IsTrue claimed ↔ MayClaim m.now (machine self.old) t.now) }
        ensures state { IfOk result (λ claimed. self.new ≡ (if claimed then with_claim t.now self.old else self.old)) }
        ensures err { OnErr result (self.new ≡ self.old) }
        ensures fits { (G : Data) → Fits m.now G self.old → Fits m.now G self.new }
    {
        if !is_task(m.plan(), t) {
            return Ok(false);
        }
        self.claim_task(m, t)
    }

    // Claims a task of the job if it may be claimed.
    pub(crate) fn claim_task(&mut self, m: &Matched, t: &TaskId) -> Result<bool, OutOfMemory>
        requires task { IsTask m.now t.now }
        ensures exact { IfOk result (λ claimed.
            (G : Data) → Fits m.now G self.old → IsTrue claimed ↔ MayClaim m.now (machine self.old) t.now) }
        ensures state { IfOk result (λ claimed. self.new ≡ (if claimed then with_claim t.now self.old else self.old)) }
        ensures err { OnErr result (self.new ≡ self.old) }
        ensures fits { (G : Data) → Fits m.now G self.old → Fits m.now G self.new }
    {
        self.claim_by(m, t, goal(m, t))
    }

    // Claims a task of the job that has this goal, if it may be claimed.
    pub(crate) fn claim_by(
        &mut self,
        m: &Matched,
        t: &TaskId,
        goal: u32,
    ) -> Result<bool, OutOfMemory>
        requires task { IsTask m.now t.now }
        requires goal { goal ≡ edges.goal m.now t.now }
        ensures exact { IfOk result (λ claimed.
            (G : Data) → Fits m.now G self.old → IsTrue claimed ↔ MayClaim m.now (machine self.old) t.now) }
        ensures state { IfOk result (λ claimed. self.new ≡ (if claimed then with_claim t.now self.old else self.old)) }
        ensures err { OnErr result (self.new ≡ self.old) }
        ensures fits { (G : Data) → Fits m.now G self.old → Fits m.now G self.new }
    {
        if !self.is_ready_by(m, t, goal) {
            return Ok(false);
        }
        self.enter_task(t)?;
        Ok(true)
    }

    // Whether a task of the job may be claimed.
    fn is_ready(&self, m: &Matched, t: &TaskId) -> bool
        requires task { IsTask m.now t.now }
        ensures exact { (G : Data) → Fits m.now G self.now → IsTrue result ↔ MayClaim m.now (machine self.now) t.now }
        ensures unclaimed { IsTrue result → mark_of self.now t.now ≡ None }
        ensures consistent { IsConsistent m.now }
    {
        self.is_ready_by(m, t, goal(m, t))
    }

    // Whether a task of the job that has this goal may be claimed.
    fn is_ready_by(&self, m: &Matched, t: &TaskId, goal: u32) -> bool
        requires task { IsTask m.now t.now }
        requires goal { goal ≡ edges.goal m.now t.now }
        ensures exact { (G : Data) → Fits m.now G self.now → IsTrue result ↔ MayClaim m.now (machine self.now) t.now }
        ensures unclaimed { IsTrue result → mark_of self.now t.now ≡ None }
        ensures consistent { IsConsistent m.now }
    {
        m.plan_is_consistent();
        if self.claims.contains_key(t) {
            return false;
        }
        self.has_all(m, t, goal)
    }

    // Whether as many edges have arrived at an unclaimed task as its goal says.
    fn has_all(&self, m: &Matched, t: &TaskId, goal: u32) -> bool
        requires task { IsTask m.now t.now }
        requires unclaimed { mark_of self.now t.now ≡ None }
        requires goal { goal ≡ edges.goal m.now t.now }
        ensures { (G : Data) → Fits m.now G self.now → IsTrue result ↔ MayClaim m.now (machine self.now) t.now }
    {
        m.plan_is_consistent();
        number_at(&self.arrived, t) == goal
    }

    // Adds a task that is not claimed to the claims.
    fn enter_task(&mut self, t: &TaskId) -> Result<(), OutOfMemory>
        requires { mark_of self.old t.now ≡ None }
        ensures ok { OnOk result (self.new ≡ with_claim t.now self.old) }
        ensures err { OnErr result (self.new ≡ self.old) }
    {
        self.claims.insert(t.copy(), None)?;
        self.arrived.swap_remove(t);
        Ok(())
    }

    /// Whether a task is claimed and has not ended.
    pub fn is_running(&self, t: &TaskId) -> bool
        ensures { IsTrue result ↔ IsRunning self.now t.now }
    {
        match self.claims.get(t) {
            Some(end) => end.is_none(),
            None => false,
        }
    }

    /// Runs the body of a running task on the tiles that were sent to it, and notes how it ended. Returns the cause of
    /// the trap, if it trapped. Nothing else changes, and nothing at all when out of memory.
    pub fn finish(
        &mut self,
        m: &Matched,
        given: &Given,
        t: &TaskId,
    ) -> Result<Option<Trap>, OutOfMemory>
        requires running { IsRunning self.old t.now }
        requires fits { Fits m.now given.now self.old }
        ensures ok { IfOk result (λ trap. HasFinished m.now given.now t.now self.old self.new trap) }
        ensures err { OnErr result (self.new ≡ self.old) }
        ensures fits { Fits m.now given.now self.new }
    {
        let plan = m.plan();
        let locals = locals_of(plan, t);
        let at = TaskAt {
            plan,
            task: t,
            locals: locals.as_slice(),
        };
        let found = inputs_of(self.alloc, given, &at)?;
        self.outputs.reserve(1)?;
        let mut tiles = found.tiles;
        take_tiles(found.edges.as_slice(), 0, &mut self.sent, &mut tiles);
        let ran = run_task(&at, tiles);
        let end = End::of(&ran);
        let trap = end.trap();
        mark(&mut self.claims, t, end);
        keep_tiles(&mut self.outputs, t, ran);
        Ok(trap)
    }

    /// Sends an item with the tile that its task left. Returns true if and only if it was not sent before, and is an
    /// item of a task that has ended without a trap. Otherwise, and when out of memory, nothing changes.
    pub fn send(&mut self, m: &Matched, item: &Item) -> Result<bool, OutOfMemory>
        requires fits { FitsSome m.now self.old }
        ensures exact { IfOk result (λ sent.
            (G : Data) → Fits m.now G self.old → IsTrue sent ↔ MaySendNow m.now G self.old item.now) }
        ensures state { IfOk result (λ sent. self.new ≡ (if sent then with_send item.now self.old else self.old)) }
        ensures err { OnErr result (self.new ≡ self.old) }
        ensures fits { (G : Data) → Fits m.now G self.old → Fits m.now G self.new }
    {
        if !self.is_output(m, item) {
            return Ok(false);
        }
        self.send_output(m, item)
    }

    // Whether an item is an output: one of a task that has ended without a trap.
    fn is_output(&self, m: &Matched, item: &Item) -> bool
        requires fits { FitsSome m.now self.now }
        ensures output { IsTrue result ↔ IsOutputItem m.now self.now item.now }
        ensures consistent { IsConsistent m.now }
    {
        let plan = m.plan();
        if !self.has_outputs(sender(item)) {
            return false;
        }
        is_item(plan, item)
    }

    // Sends an item that is an output, with the tile that its task left, unless it was sent.
    pub(crate) fn send_output(&mut self, m: &Matched, item: &Item) -> Result<bool, OutOfMemory>
        requires fits { FitsSome m.now self.old }
        requires output { IsOutputItem m.now self.old item.now }
        ensures exact { IfOk result (λ sent.
            (G : Data) → Fits m.now G self.old → IsTrue sent ↔ MaySendNow m.now G self.old item.now) }
        ensures state { IfOk result (λ sent. self.new ≡ (if sent then with_send item.now self.old else self.old)) }
        ensures err { OnErr result (self.new ≡ self.old) }
        ensures fits { (G : Data) → Fits m.now G self.old → Fits m.now G self.new }
    {
        m.plan_is_consistent();
        if !self.is_unsent(m, item) {
            return Ok(false);
        }
        self.enter_item(item)?;
        Ok(true)
    }

    // Whether a task has ended without a trap.
    fn has_outputs(&self, t: &TaskId) -> bool
        ensures { result ≡ ending.has_outputs (end_of self.now t.now) }
    {
        match self.claims.get(t) {
            Some(end) => has_outputs(end),
            None => false,
        }
    }

    // Whether an output was not sent yet. All edges into a claimed task were sent, whether or not they are still kept.
    fn is_unsent(&self, m: &Matched, item: &Item) -> bool
        requires fits { FitsSome m.now self.now }
        requires output { IsOutputItem m.now self.now item.now }
        ensures { IsTrue result ↔ IsUnsent self.now.sends item.now }
    {
        m.plan_is_consistent();
        if self.goes_to_claimed(item) {
            return false;
        }
        !self.sent.is_kept(item)
    }

    // Whether an item is an edge to a claimed task.
    fn goes_to_claimed(&self, item: &Item) -> bool
        ensures { result ≡ possible.goes_to_claimed self.now item.now }
    {
        match item {
            Item::Edge(e) => self.claims.contains_key(&e.to),
            Item::Write(_) => false,
        }
    }

    // A copy of the tile that the task of an item left in the flow of the item.
    fn output_copy(&self, item: &Item) -> Result<Option<Tile>, OutOfMemory>
        requires { KeepsTilesFor self.now item.now }
        ensures { IfOk result (λ tile.
            tile ≡ output_tile (end_of self.now (events.sender item.now)) (items.item_flow item.now)) }
    {
        match self.outputs.get(sender(item)) {
            Some(tiles) => copy_if_any(self.alloc, tile_at(tiles, item_flow(item))),
            None => Ok(None),
        }
    }

    // Adds an item that was not sent, with the tile that its task left.
    fn enter_item(&mut self, item: &Item) -> Result<(), OutOfMemory>
        requires unsent { IsUnsent self.old.sends item.now }
        requires target { GoesToWaiting self.old item.now }
        requires kept { KeepsTilesFor self.old item.now }
        ensures ok { OnOk result (self.new ≡ with_send item.now self.old) }
        ensures err { OnErr result (self.new ≡ self.old) }
    {
        let tile = self.output_copy(item)?;
        self.arrived.reserve(1)?;
        self.sent.add(copy_of_item(item), tile)?;
        count_item(&mut self.arrived, item);
        Ok(())
    }

    // Drops the tiles that a task left.
    pub(crate) fn let_go(&mut self, t: &TaskId)
        ensures { HasLetGo t.now self.old self.new }
    {
        let _tiles = self.outputs.swap_remove(t);
    }
}
