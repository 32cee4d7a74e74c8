//! The steps of a pass on a turn word, one method for each.

ghost use Rattle.std.specs.Prelude.{◌≡◌, ◌≢◌, ◌<◌, ◌∷◌, Some};
ghost use Rattle.std.specs.Option.{option_copied};
ghost use Rattle.dep_shard.specs.Content.{Content};
ghost use Rattle.work_board.specs.Claims.{MayStart};
ghost use Rattle.work_board.specs.Word as word;
ghost use Rattle.table_rule.specs.Changes.{turn_left, with_look, with_own_claim, with_own_end, with_turn};
ghost use Rattle.table_rule.specs.GivingBack.{MayGiveBack, MayGiveClaim, MayGiveEnd, MayGiveSend};
ghost use Rattle.table_rule.specs.Plays.{HasName, WasSeen, after_send};
ghost use Rattle.table_rule.specs.Seats.{rest, seat_table, seated, words_job, words_table};
ghost use Rattle.table_rule.specs.Turns.{holds};

use crate::law::{Claim, End, Event, Leave, Send, Take};
use crate::pass_seat::PassSeat;
use crate::table_words::TableWords;
use crate::words::turn_index;
use dep_shard::Arrivals;
use ptg_base::{Item, TaskId, Tile};

impl TableWords {
    /// Tries to take the turn of a shard that the pass does not hold, and returns what it found in the turn word: 0 if
    /// it took the turn. What it found becomes the pass's look.
    pub fn take<E: Event>(&self, seat: &mut PassSeat, shard: u32) -> u64
        requires event { (E.job ≡ Some (words_job self.now)) × (E.shard ≡ shard) }
        requires of { seat_table seat.old ≡ words_table self.now }
        requires within { shard < (words_job self.now).shards }
        requires named { HasName (seated seat.old).0 }
        requires not_its_own { holds shard (seated seat.old).0 ≡ 0 }
        ensures of { seat_table seat.new ≡ seat_table seat.old }
        ensures free { result ≡ 0
            → (y : Content)
            × (seated seat.new ≡ (with_turn (seated seat.old).0 shard y, (shard, y) ∷ (seated seat.old).1))
            × WasSeen (words_job self.now) shard (seated seat.old).0 y }
        ensures taken { result ≢ 0
            → seated seat.new ≡ (with_look (seated seat.old).0 (word.Turn shard) result, (seated seat.old).1) }
    {
        let word = turn_index(shard);
        self.table.shared.swap::<Take<E>>(&mut seat.seat, word, 1)
    }

    /// Gives a turn back without an event.
    pub fn give(&self, seat: &mut PassSeat, shard: u32)
        requires of { seat_table seat.old ≡ words_table self.now }
        requires within { shard < (words_job self.now).shards }
        requires leaves { MayGiveBack shard (seated seat.old) }
        ensures of { seat_table seat.new ≡ seat_table seat.old }
        ensures me { seated seat.new ≡ (turn_left (seated seat.old).0, rest (seated seat.old).1) }
    {
        let word = turn_index(shard);
        self.table.shared.store::<Leave>(&mut seat.seat, word, 0);
    }

    /// Gives a turn back with a claim.
    pub fn give_claim<E: Event>(
        &self,
        seat: &mut PassSeat,
        shard: u32,
        t: &TaskId,
        tiles: &Arrivals,
    )
        requires event { (E.job ≡ Some (words_job self.now)) × (E.task ≡ t.now) × (E.tiles ≡ tiles.now) }
        requires of { seat_table seat.old ≡ words_table self.now }
        requires within { shard < (words_job self.now).shards }
        requires claims { MayGiveClaim shard t.now tiles.now (seated seat.old) }
        ensures of { seat_table seat.new ≡ seat_table seat.old }
        ensures me { seated seat.new
            ≡ (turn_left (with_own_claim (seated seat.old).0 t.now tiles.now), rest (seated seat.old).1) }
        ensures starts { MayStart (words_job self.now).matched (words_job self.now).given t.now tiles.now
            (seated seat.old).0 }
    {
        let _task = t;
        let _tiles = tiles;
        let word = turn_index(shard);
        self.table.shared.store::<Claim<E>>(&mut seat.seat, word, 0);
    }

    /// Gives a turn back with a send, which spends a credit if the target fires.
    pub fn give_send<E: Event>(
        &self,
        seat: &mut PassSeat,
        shard: u32,
        item: &Item,
        tile: Option<&Tile>,
    )
        requires event { E.sent ≡ record { item = item.now; tile = option_copied tile } }
        requires of { seat_table seat.old ≡ words_table self.now }
        requires within { shard < (words_job self.now).shards }
        requires sends { MayGiveSend (words_job self.now) shard item.now (option_copied tile) (seated seat.old) }
        ensures of { seat_table seat.new ≡ seat_table seat.old }
        ensures me { seated seat.new
            ≡ after_send record { item = item.now; tile = option_copied tile.entry } (seated seat.old) }
    {
        let _item = item;
        let _tile = tile;
        let word = turn_index(shard);
        self.table.shared.store::<Send<E>>(&mut seat.seat, word, 0);
    }

    /// Gives a turn back with the end of the running task, which gives the pass a credit.
    pub fn give_end(&self, seat: &mut PassSeat, shard: u32)
        requires of { seat_table seat.old ≡ words_table self.now }
        requires within { shard < (words_job self.now).shards }
        requires ends { MayGiveEnd (words_job self.now) shard (seated seat.old) }
        ensures of { seat_table seat.new ≡ seat_table seat.old }
        ensures me { seated seat.new ≡ (turn_left (with_own_end (seated seat.old).0), rest (seated seat.old).1) }
    {
        let word = turn_index(shard);
        self.table.shared.store::<End>(&mut seat.seat, word, 0);
    }
}
