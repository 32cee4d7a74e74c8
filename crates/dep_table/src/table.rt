//! The table: its shards and words, and its job.

ghost use Rattle.std.specs.Prelude.{◌≡◌};
ghost use Rattle.std.proofs.Props.{props};
ghost use Rattle.ptg_base.specs.Limits.{IsShardCount};
ghost use Rattle.coll_data.specs.WellMade.{IsWellMade};
ghost use Rattle.plan_data.specs.Fit.{DataFit};
ghost use Rattle.table_rule.specs.Seats.{words_job};
ghost use Rattle.dep_table.specs.ClosingRooms.{IsRoomFor};

use crate::closing_room::ClosingRoom;
use crossbeam_utils::sync::EventCount;
use table_rule::{TableJob, TableWords};

/// A dependency table that workers share, each through a pass of its own.
#[derive(Drop)]
pub struct DepTable {
    pub(crate) words: TableWords,
    pub(crate) job: TableJob,
    pub(crate) closing: ClosingRoom,
    // Where workers that find nothing to do sleep.
    pub(crate) events: EventCount,
    ghost of_job: { job ≡ words_job words },
    ghost sized: { IsShardCount job.shards },
    ghost fit: { DataFit job.matched job.given },
    ghost well_made: { IsWellMade job.given } by { Prim.hlevel props },
    ghost room: { IsRoomFor job closing },
}
