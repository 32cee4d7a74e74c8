//! The table is a board for workers.

ghost use Rattle.std.specs.Prelude.{◌≡◌, []};
ghost use Rattle.dep_table.specs.declared.table.DepTable.{DepTable as TableValue};
ghost use Rattle.dep_table.specs.Boards.{IsWorkerPass};
ghost use Rattle.dep_table.specs.Passes.{IsPassOf};
ghost use Rattle.dep_table.specs.Tables.{id_of, job_of};
ghost use Rattle.dep_table.specs.Views as views;
ghost use Rattle.dep_table.specs.Views.{PassView};
ghost use Rattle.table_rule.specs.Rule.{placement_of};

use crate::pass::Pass;
use crate::table::DepTable;
use coll_data::Given;
use crossbeam_utils::sync::EventCount;
use dep_iter::{Matched, TaskAt};
use dep_shard::Arrivals;
use ptg_base::{Item, OutOfMemory, TaskId, Tile};
use term_core::Trap;
use work_board::{Board, Claim, Scan, Sent};

impl Board for DepTable {
    type Pass = Pass;

    ghost shown = { views.shown };

    ghost is_pass = { IsWorkerPass };

    ghost plan = { λ (b : TableValue). (job_of b).matched };

    ghost job_data = { λ (b : TableValue). (job_of b).given };

    ghost placement = { λ (b : TableValue). placement_of (job_of b) };

    ghost shard_count = { λ (b : TableValue). (job_of b).shards };

    ghost preloaded = { λ (b : TableValue). (job_of b).preloaded };

    ghost clean = { λ b p h. h.of.clean.clean };

    fn matched(&self) -> &Matched {
        DepTable::matched(self)
    }

    fn given(&self) -> &Given {
        DepTable::given(self)
    }

    fn shards(&self) -> u32 {
        DepTable::shards(self)
    }

    fn is_preloaded(&self) -> bool {
        DepTable::is_preloaded(self)
    }

    fn events(&self) -> Option<&EventCount> {
        Some(&self.events)
    }

    fn shard_of(&self, at: &TaskAt) -> u32 {
        self.shard_at(at)
    }

    fn try_claim(&self, pass: &mut Pass, shard: u32, t: &TaskId) -> Claim {
        self.claim_once(pass, shard, t)
    }

    fn try_scan(&self, pass: &mut Pass, shard: u32) -> Scan {
        self.scan_once(pass, shard)
    }

    fn try_send(
        &self,
        pass: &mut Pass,
        shard: u32,
        item: &Item,
        tile: Option<&Tile>,
    ) -> Result<Sent, OutOfMemory> {
        self.send_once(pass, shard, item, tile)
    }

    fn try_end(&self, pass: &mut Pass, shard: u32, t: &TaskId, spent: &mut Arrivals) -> bool {
        self.end_once(pass, shard, t, spent)
    }

    fn try_trap(
        &self,
        pass: &mut Pass,
        shard: u32,
        t: &TaskId,
        cause: Trap,
    ) -> Result<bool, OutOfMemory> {
        self.trap_once(pass, shard, t, cause)
    }

    fn see_quiet(&self, pass: &mut Pass) -> bool {
        DepTable::see_quiet(self, pass)
    }

    fn halt(&self, pass: &mut Pass) {
        DepTable::halt(self, pass);
        self.events.notify_all();
    }

    fn halted(&self, pass: &mut Pass) -> bool {
        DepTable::halted(self, pass)
    }

    fn stamp(&self, pass: &Pass) -> u64 {
        DepTable::stamp(self, pass)
    }
}

/// A law: a clean pass of a table that runs nothing is a pass that a worker may have.
pub fn an_idle_pass_is_a_workers_pass()
    ensures { (table : TableValue) (p : PassView) → IsPassOf (id_of table) p → (views.shown p).running ≡ []
        → IsWorkerPass table p }
{}
