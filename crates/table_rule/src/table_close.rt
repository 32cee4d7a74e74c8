//! The end of a table's words: its shards come back.

ghost use Rattle.std.specs.Prelude.{◌≡◌, ◌≤◌, length, vec_capacity};
ghost use Rattle.table_rule.specs.Plays.{WereLeft};
ghost use Rattle.table_rule.specs.Seats.{seat_table, seated, words_job, words_table};

use crate::pass_seat::PassSeat;
use crate::table_words::TableWords;
use dep_shard::Shard;

impl TableWords {
    /// Ends the table at the seat of one of its passes, and returns its shards in order. The list `into` is empty and
    /// has room for them.
    pub fn close(self, seat: PassSeat, into: Vec<Shard>) -> Vec<Shard>
        requires of { seat_table seat ≡ words_table self }
        requires none_yet { length into.items ≡ 0 }
        requires room { (words_job self).shards ≤ vec_capacity into }
        ensures { WereLeft (words_job self) (seated seat).0 result.items }
    {
        let TableWords { table, shards } = self;
        let PassSeat { seat } = seat;
        let count = shards as usize;
        let mut closed = table.close_with(seat);
        let mut taken = into;
        for k in 0..count {
            let shard = closed.take(k);
            taken.push_reserved(shard);
        }
        closed.free();
        taken
    }
}
