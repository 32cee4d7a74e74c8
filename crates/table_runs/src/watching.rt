//! A table that a worker works at while two other passes look on and what their calls return is counted.

ghost use Rattle.std.specs.Prelude.{◌≡◌};
ghost use Rattle.dep_iter.specs.Tasks.{IsTask};
ghost use Rattle.shard_meaning.specs.Placing as placing;
ghost use Rattle.dep_table.specs.Tables.{job_of};
ghost use Rattle.dep_table.specs.Views as views;
ghost use Rattle.table_runs.specs.declared.watching.Watch.{Watch as WatchValue};
ghost use Rattle.table_runs.specs.declared.watching.Watched.{Watched as WatchedValue};
ghost use Rattle.table_runs.specs.Watching.{FindsTask, IsWatch};

use crate::seen::Seen;
use crate::watcher::Watcher;
use coll_data::Given;
use crossbeam_utils::sync::EventCount;
use dep_iter::{Matched, TaskAt};
use dep_shard::Arrivals;
use dep_table::{DepTable, Pass};
use ptg_base::{Item, OutOfMemory, TaskId, Tile};
use term_core::Trap;
use work_board::{Board, Claim, Scan, Sent};

/// The worker's pass, the two that look on, and the counts.
#[derive(Drop)]
pub struct Watch {
    pub mine: Pass,
    pub first: Watcher,
    pub second: Watcher,
    pub seen: Seen,
}

/// The table, for a worker with a watch.
#[derive(Drop)]
pub struct Watched {
    pub table: DepTable,
}

impl Watched {
    // Counts what the calls of the others return while the task runs.
    fn watch(&self, pass: &mut Watch, t: &TaskId)
        requires watch { IsWatch self.now pass.old }
        requires task { IsTask (job_of self.now.table).matched t.now }
        ensures watch { IsWatch self.now pass.new }
        ensures mine { pass.new.mine ≡ pass.old.mine }
    {
        let again = pass.first.claim(&self.table, t);
        let held = pass.first.hold(&self.table, &mut pass.second, t);
        let other_held = pass.second.hold(&self.table, &mut pass.first, t);
        let quiet = pass.second.sees_quiet(&self.table);
        pass.seen.note_claim(again);
        pass.seen.note_at_turn(held);
        pass.seen.note_at_turn(other_held);
        pass.seen.note_look(quiet);
    }

    // The same, but only if the task was claimed.
    fn watch_claim(&self, pass: &mut Watch, t: &TaskId, claim: &Claim)
        requires watch { IsWatch self.now pass.old }
        requires task { IsTask (job_of self.now.table).matched t.now }
        ensures watch { IsWatch self.now pass.new }
        ensures mine { pass.new.mine ≡ pass.old.mine }
    {
        match claim {
            Claim::Got(_arrivals) => self.watch(pass, t),
            Claim::Gone => {}
            Claim::Busy => {}
        }
    }

    // The same, but only if the scan found a task.
    fn watch_scan(&self, pass: &mut Watch, scan: &Scan)
        requires watch { IsWatch self.now pass.old }
        requires task { FindsTask (job_of self.now.table).matched scan.now }
        ensures watch { IsWatch self.now pass.new }
        ensures mine { pass.new.mine ≡ pass.old.mine }
    {
        match scan {
            Scan::Got(t, _arrivals) => self.watch(pass, t),
            Scan::Empty => {}
            Scan::Busy => {}
        }
    }

    /// Whether one of the passes that look on sees quiet.
    pub fn sees_quiet(&self, pass: &mut Watch) -> bool
        requires { IsWatch self.now pass.old }
        ensures watch { IsWatch self.now pass.new }
        ensures mine { pass.new.mine ≡ pass.old.mine }
    {
        pass.first.sees_quiet(&self.table)
    }
}

impl Board for Watched {
    type Pass = Watch;

    ghost shown = { λ (w : WatchValue). views.shown w.mine };

    ghost is_pass = { IsWatch };

    ghost plan = { λ (b : WatchedValue). (job_of b.table).matched };

    ghost job_data = { λ (b : WatchedValue). (job_of b.table).given };

    ghost placement = { λ (b : WatchedValue). placing.shard_of (job_of b.table).matched (job_of b.table).shards };

    ghost shard_count = { λ (b : WatchedValue). (job_of b.table).shards };

    ghost preloaded = { λ (b : WatchedValue). (job_of b.table).preloaded };

    ghost clean = { λ b p h. h.mine.of.clean.clean };

    fn matched(&self) -> &Matched {
        self.table.matched()
    }

    fn given(&self) -> &Given {
        Board::given(&self.table)
    }

    fn shards(&self) -> u32 {
        self.table.shards()
    }

    fn is_preloaded(&self) -> bool {
        self.table.is_preloaded()
    }

    fn events(&self) -> Option<&EventCount> {
        Board::events(&self.table)
    }

    fn shard_of(&self, at: &TaskAt) -> u32 {
        Board::shard_of(&self.table, at)
    }

    fn try_claim(&self, pass: &mut Watch, shard: u32, t: &TaskId) -> Claim {
        let claim = Board::try_claim(&self.table, &mut pass.mine, shard, t);
        self.watch_claim(pass, t, &claim);
        claim
    }

    fn try_scan(&self, pass: &mut Watch, shard: u32) -> Scan {
        let scan = Board::try_scan(&self.table, &mut pass.mine, shard);
        self.watch_scan(pass, &scan);
        scan
    }

    fn try_send(
        &self,
        pass: &mut Watch,
        shard: u32,
        item: &Item,
        tile: Option<&Tile>,
    ) -> Result<Sent, OutOfMemory> {
        let sent = Board::try_send(&self.table, &mut pass.mine, shard, item, tile)?;
        pass.seen.note_sent(sent);
        Ok(sent)
    }

    fn try_end(&self, pass: &mut Watch, shard: u32, t: &TaskId, spent: &mut Arrivals) -> bool {
        Board::try_end(&self.table, &mut pass.mine, shard, t, spent)
    }

    fn try_trap(
        &self,
        pass: &mut Watch,
        shard: u32,
        t: &TaskId,
        cause: Trap,
    ) -> Result<bool, OutOfMemory> {
        Board::try_trap(&self.table, &mut pass.mine, shard, t, cause)
    }

    fn see_quiet(&self, pass: &mut Watch) -> bool {
        Board::see_quiet(&self.table, &mut pass.mine)
    }

    fn halt(&self, pass: &mut Watch) {
        Board::halt(&self.table, &mut pass.mine);
    }

    fn halted(&self, pass: &mut Watch) -> bool {
        Board::halted(&self.table, &mut pass.mine)
    }

    fn stamp(&self, pass: &Watch) -> u64 {
        Board::stamp(&self.table, &pass.mine)
    }
}
