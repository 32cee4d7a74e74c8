//! Splits and joins of passes.

ghost use Rattle.std.specs.Prelude.{◌≡◌, [], length};
ghost use Rattle.table_rule.specs.Changes.{after_split, both, split_off};
ghost use Rattle.table_rule.specs.Plays.{HasName};
ghost use Rattle.table_rule.specs.Seats.{seat_table, seated, words_table};

use crate::law::{JoinTo, SplitOff};
use crate::pass_seat::PassSeat;
use crate::table_words::TableWords;

impl TableWords {
    /// Splits a new pass off one that has one name. The new pass has a new name and has done nothing.
    pub fn split(&self, seat: &mut PassSeat) -> PassSeat
        requires of { seat_table seat.old ≡ words_table self.now }
        requires one_name { length (seated seat.old).0.names ≡ 1 }
        ensures of { (seat_table seat.new ≡ seat_table seat.old) × (seat_table result ≡ seat_table seat.old) }
        ensures me { seated seat.new ≡ (after_split (seated seat.old).0, (seated seat.old).1) }
        ensures new { seated result ≡ (split_off (seated seat.old).0, []) }
    {
        let split = self.table.shared.split_seat::<SplitOff>(&mut seat.seat);
        PassSeat { seat: split }
    }

    /// Joins another pass, which holds no shard, to a pass that has a name: the first takes over its record.
    pub fn join(&self, seat: &mut PassSeat, other: PassSeat)
        requires of { (seat_table seat.old ≡ words_table self.now) × (seat_table other ≡ words_table self.now) }
        requires named { HasName (seated seat.old).0 }
        requires no_shard { (seated other).1 ≡ [] }
        ensures of { seat_table seat.new ≡ seat_table seat.old }
        ensures me { seated seat.new ≡ (both (seated seat.old).0 (seated other).0, (seated seat.old).1) }
    {
        let PassSeat { seat: gone } = other;
        self.table.shared.join_seat::<JoinTo>(&mut seat.seat, gone);
    }
}
