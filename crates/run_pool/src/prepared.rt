//! A run that was made ready.

ghost use Rattle.std.specs.Prelude.{◌≡◌};

use crate::seating::PaddedDesk;
use dep_table::{DepTable, Pass};
use std::marker::Model;

/// A run that was made ready: its table, a desk for each worker, and room for the passes that the table is closed with.
/// Contracts see its job and its number of workers.
#[derive(Drop)]
pub struct Prepared {
    pub(crate) table: DepTable,
    pub(crate) desks: Vec<PaddedDesk>,
    pub(crate) room: Vec<Pass>,
}

impl Model for Prepared {
    ghost use Rattle.std.specs.Prelude.{◌≡◌, ◌<◌, ◌≤◌, [], length, vec_capacity};
    ghost use Rattle.std.specs.Coded.{codes};
    ghost use Rattle.term_core.specs.contracts.expr.Expr as expr;
    ghost use Rattle.term_core.specs.contracts.body.Block as block;
    ghost use Rattle.dep_table.specs.Tables.{id_of, job_of};
    ghost use Rattle.run_pool.specs.Runs.{Run};
    ghost use Rattle.run_pool.specs.Seated.{AreSeated};

    ghost Value = { Run };

    ghost coded = { Prim.hlevel (codes, expr.the_row.coded, block.the_row.coded) };

    ghost view = { λ p. record { job = job_of p.table; workers = length p.desks.items } };

    ghost invariant = { λ p.
        AreSeated (id_of p.table) (job_of p.table).matched p.desks.items × (0 < length p.desks.items)
        × (p.room.items ≡ []) × (length p.desks.items ≤ vec_capacity p.room) };
}

impl Prepared {
    /// Whether a preload was asked for: then the run is never refused memory.
    pub fn preloaded(&self) -> bool
        ensures { result ≡ self.now.job.preloaded }
    {
        self.table.is_preloaded()
    }
}
