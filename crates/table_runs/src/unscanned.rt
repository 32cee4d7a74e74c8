//! A table on which only some shards can be scanned.

ghost use Rattle.std.specs.Prelude.{◌≡◌, ◌≤◌};
ghost use Rattle.shard_meaning.specs.Placing as placing;
ghost use Rattle.dep_table.specs.Passes.{IsPassOf};
ghost use Rattle.dep_table.specs.Tables.{id_of, job_of};
ghost use Rattle.dep_table.specs.Boards.{IsWorkerPass};
ghost use Rattle.dep_table.specs.Views as views;

use coll_data::Given;
use crossbeam_utils::sync::EventCount;
use dep_iter::{Matched, TaskAt};
use dep_shard::Arrivals;
use dep_table::{DepTable, Pass};
use ptg_base::{Item, OutOfMemory, TaskId, Tile};
use term_core::Trap;
use work_board::{Board, Claim, Scan, Sent};

// After this many looks for quiet the table is halted.
const LOOKS: u64 = 1_000;

/// A table on which only the first shards can be scanned; if none can, a worker finds tasks by ids alone. It is halted
/// once a worker has looked for quiet a thousand times, so that a worker without an id ends too. No worker sleeps at
/// it.
#[derive(Drop)]
pub struct Unscanned {
    pub table: DepTable,
    /// How many shards can be scanned, from the first on. This program uses 0.
    pub scanned: u32,
    pub ghost within: { scanned ≤ (job_of table).shards },
}

/// A worker's pass, and a second one that halts the table.
#[derive(Drop)]
pub struct PassPair {
    pub own: Pass,
    pub halting: Pass,
    /// How often the worker has looked for quiet.
    pub looks: u64,
}

impl Unscanned {
    // Counts a look for quiet, and halts the table at the last one.
    fn note_look(&self, pass: &mut PassPair)
        requires { IsPassOf (id_of self.now.table) pass.old.halting }
        ensures halting { IsPassOf (id_of self.now.table) pass.new.halting }
        ensures own { pass.new.own ≡ pass.old.own }
    {
        pass.looks = pass.looks.saturating_add(1);
        if pass.looks != LOOKS || self.table.is_preloaded() {
            return;
        }
        self.table.halt(&mut pass.halting);
    }
}

impl Board for Unscanned {
    ghost use Rattle.table_runs.specs.declared.unscanned.Unscanned.{Unscanned as Value};
    ghost use Rattle.table_runs.specs.declared.unscanned.PassPair.{PassPair as Pair};

    type Pass = PassPair;

    ghost shown = { λ (p : Pair). views.shown p.own };

    ghost is_pass = { λ (b : Value) (p : Pair). IsWorkerPass b.table p.own × IsPassOf (id_of b.table) p.halting };

    ghost plan = { λ (b : Value). (job_of b.table).matched };

    ghost job_data = { λ (b : Value). (job_of b.table).given };

    ghost placement = { λ (b : Value). placing.shard_of (job_of b.table).matched (job_of b.table).shards };

    ghost shard_count = { λ (b : Value). b.scanned };

    ghost preloaded = { λ (b : Value). (job_of b.table).preloaded };

    ghost clean = { λ b p h. h.0.of.clean.clean };

    fn matched(&self) -> &Matched {
        self.table.matched()
    }

    fn given(&self) -> &Given {
        Board::given(&self.table)
    }

    fn shards(&self) -> u32 {
        self.scanned
    }

    fn is_preloaded(&self) -> bool {
        self.table.is_preloaded()
    }

    fn events(&self) -> Option<&EventCount> {
        None
    }

    fn shard_of(&self, at: &TaskAt) -> u32 {
        Board::shard_of(&self.table, at)
    }

    fn try_claim(&self, pass: &mut PassPair, shard: u32, t: &TaskId) -> Claim {
        self.table.try_claim(&mut pass.own, shard, t)
    }

    fn try_scan(&self, pass: &mut PassPair, shard: u32) -> Scan {
        self.table.try_scan(&mut pass.own, shard)
    }

    fn try_send(
        &self,
        pass: &mut PassPair,
        shard: u32,
        item: &Item,
        tile: Option<&Tile>,
    ) -> Result<Sent, OutOfMemory> {
        self.table.try_send(&mut pass.own, shard, item, tile)
    }

    fn try_end(&self, pass: &mut PassPair, shard: u32, t: &TaskId, spent: &mut Arrivals) -> bool {
        self.table.try_end(&mut pass.own, shard, t, spent)
    }

    fn try_trap(
        &self,
        pass: &mut PassPair,
        shard: u32,
        t: &TaskId,
        cause: Trap,
    ) -> Result<bool, OutOfMemory> {
        self.table.try_trap(&mut pass.own, shard, t, cause)
    }

    fn see_quiet(&self, pass: &mut PassPair) -> bool {
        self.note_look(pass);
        Board::see_quiet(&self.table, &mut pass.own)
    }

    fn halt(&self, pass: &mut PassPair) {
        Board::halt(&self.table, &mut pass.own);
    }

    fn halted(&self, pass: &mut PassPair) -> bool {
        Board::halted(&self.table, &mut pass.own)
    }

    fn stamp(&self, pass: &PassPair) -> u64 {
        Board::stamp(&self.table, &pass.own)
    }
}
