//! The credit that a pass takes for a target that fires.

ghost use Rattle.std.specs.Prelude.{◌≡◌, ◌<◌, length};
ghost use Rattle.table_rule.specs.Plays.{HasName};
ghost use Rattle.table_rule.specs.Seats.{seat_table, seated};
ghost use Rattle.dep_table.specs.Sending.{credited};
ghost use Rattle.dep_table.specs.Tables.{id_of};

use crate::table::DepTable;
use table_rule::PassSeat;
use work_board::Sent;

impl DepTable {
    // Raises the live word after a send with this result, if and only if its target fired.
    pub(crate) fn raise_for(&self, seat: &mut PassSeat, answer: Sent)
        requires of { seat_table seat.old ≡ id_of self.now }
        requires room { (seated seat.old).0.credit < length (seated seat.old).0.turns }
        requires named { HasName (seated seat.old).0 }
        ensures of { seat_table seat.new ≡ seat_table seat.old }
        ensures me { seated seat.new ≡ (credited answer (seated seat.old).0, (seated seat.old).1) }
    {
        match answer {
            Sent::Fired => self.words.raise_live(seat),
            Sent::Waits | Sent::Kept | Sent::Busy => {}
        }
    }
}
