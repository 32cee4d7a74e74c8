//! The seat of a pass.

use atomic_table::Seat;
use dep_shard::Shard;
use work_board::PassRecord;

/// The seat of a pass in a table: the pass's record, and the shards whose turns it holds. Only the steps of
/// `TableWords` change it, so each look, turn and event of its record was a step on the table.
#[derive(Drop)]
pub struct PassSeat {
    pub(crate) seat: Seat<Shard, PassRecord>,
}
