//! A pass of a table.

use std::marker::Model;
use table_rule::PassSeat;

/// A worker's handle on a table. Contracts see which table it belongs to, its record, the shards that it holds, and the
/// stamp that it drew last.
#[derive(Drop)]
pub struct Pass {
    pub(crate) seat: PassSeat,
    pub(crate) stamp: u64,
}

impl Model for Pass {
    ghost use Rattle.table_rule.specs.Seats.{seat_table, seated};
    ghost use Rattle.dep_table.specs.Views.{PassView};

    ghost Value = { PassView };

    ghost view = { λ p. record { table = seat_table p.seat; me = seated p.seat; stamp = p.stamp } };
}
