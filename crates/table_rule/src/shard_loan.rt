//! The loan of a shard to the pass that holds its turn.

ghost use Rattle.std.specs.Prelude.{◌≡◌, ◌∷◌};
ghost use Rattle.std.specs.Borrow.{sem};
ghost use Rattle.dep_shard.specs.Content.{Content};
ghost use Rattle.table_rule.specs.Lending.{LendsShard};
ghost use Rattle.table_rule.specs.Seats.{rest, seat_table, seated, words_table};

use crate::pass_seat::PassSeat;
use crate::table_words::TableWords;
use dep_shard::Shard;

impl PassSeat {
    /// Lends the shard whose turn the pass took last. When the loan ends, the pass holds the shard as it was left.
    pub fn shard_mut<'a>(&'a mut self, words: &'a TableWords, shard: u32) -> &'a mut Shard
        requires of { seat_table self.old ≡ words_table words.now }
        requires holds { (y : Content) × ((seated self.old).1 ≡ (shard, y) ∷ rest (seated self.old).1) }
        ensures* writes_back { sem 𝓛 (LendsShard self.entry shard result) }
        ensures value { (seated self.old).1 ≡ (shard, result.now) ∷ rest (seated self.old).1 }
    {
        self.seat.slot_mut(&words.table.shared, shard as usize)
    }
}
