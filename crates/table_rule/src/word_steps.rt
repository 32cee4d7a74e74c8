//! The steps of a pass on the words of the whole table (halt, live and stamp), one method for each.

ghost use Rattle.std.specs.Prelude.{◌≡◌, ◌≢◌, ◌<◌, [], ◌∷◌, length, Some, true, false};
ghost use Rattle.work_board.specs.Word.{Halt, Live};
ghost use Rattle.table_rule.specs.Changes.{with_credit, with_halt, with_look, with_quiet, with_stamp, without_credit};
ghost use Rattle.table_rule.specs.Live.{own_stamps};
ghost use Rattle.table_rule.specs.Plays.{HasName, WasPass};
ghost use Rattle.table_rule.specs.Seats.{seat_table, seated, words_job, words_table};

use crate::law::{DrawStamp, Event, LowerLive, RaiseHalt, RaiseLive, ReadHalt, ReadLive};
use crate::pass_seat::PassSeat;
use crate::table_words::TableWords;
use crate::words::{halt_index, live_index, stamp_index};
use ptg_base::TaskId;

impl TableWords {
    /// Raises the halt word.
    pub fn raise_halt(&self, seat: &mut PassSeat)
        requires of { seat_table seat.old ≡ words_table self.now }
        requires late { (words_job self.now).preloaded ≡ false }
        ensures of { seat_table seat.new ≡ seat_table seat.old }
        ensures me { seated seat.new ≡ (with_halt (seated seat.old).0, (seated seat.old).1) }
    {
        let word = halt_index(self.shards);
        self.table
            .shared
            .store::<RaiseHalt>(&mut seat.seat, word, 1);
    }

    /// Reads the halt word, which becomes the pass's look. It is 0 in a preloaded table.
    pub fn read_halt<E: Event>(&self, seat: &mut PassSeat) -> u64
        requires event { E.job ≡ Some (words_job self.now) }
        requires of { seat_table seat.old ≡ words_table self.now }
        ensures of { seat_table seat.new ≡ seat_table seat.old }
        ensures me { seated seat.new ≡ (with_look (seated seat.old).0 Halt result, (seated seat.old).1) }
        ensures preloaded { (words_job self.now).preloaded ≡ true → result ≡ 0 }
    {
        let word = halt_index(self.shards);
        self.table.shared.load::<ReadHalt<E>>(&mut seat.seat, word)
    }

    /// Reads the live word, which becomes the pass's look: 0 is quiet. Only a pass without a credit may read it.
    pub fn read_live<E: Event>(&self, seat: &mut PassSeat) -> u64
        requires event { E.job ≡ Some (words_job self.now) }
        requires of { seat_table seat.old ≡ words_table self.now }
        requires no_credit { (seated seat.old).0.credit ≡ 0 }
        ensures of { seat_table seat.new ≡ seat_table seat.old }
        ensures quiet { result ≡ 0
            → (seated seat.new ≡ (with_quiet (with_look (seated seat.old).0 Live result), (seated seat.old).1))
            × WasPass (words_job self.now) (with_quiet (with_look (seated seat.old).0 Live result)) }
        ensures busy { result ≢ 0
            → seated seat.new ≡ (with_look (seated seat.old).0 Live result, (seated seat.old).1) }
    {
        let word = live_index(self.shards);
        self.table.shared.load::<ReadLive<E>>(&mut seat.seat, word)
    }

    /// Raises the live word by 1, which gives the pass a credit. Only a pass that holds more turns than credits may.
    pub fn raise_live(&self, seat: &mut PassSeat)
        requires of { seat_table seat.old ≡ words_table self.now }
        requires room { (seated seat.old).0.credit < length (seated seat.old).0.turns }
        requires named { HasName (seated seat.old).0 }
        ensures of { seat_table seat.new ≡ seat_table seat.old }
        ensures me { seated seat.new ≡ (with_credit (seated seat.old).0, (seated seat.old).1) }
    {
        let word = live_index(self.shards);
        let _found = self
            .table
            .shared
            .fetch_add::<RaiseLive>(&mut seat.seat, word, 1);
    }

    /// Lowers the live word by 1, which takes a credit from the pass.
    pub fn lower_live(&self, seat: &mut PassSeat)
        requires of { seat_table seat.old ≡ words_table self.now }
        requires credit { 0 < (seated seat.old).0.credit }
        requires named { HasName (seated seat.old).0 }
        ensures of { seat_table seat.new ≡ seat_table seat.old }
        ensures me { seated seat.new ≡ (without_credit (seated seat.old).0, (seated seat.old).1) }
    {
        let word = live_index(self.shards);
        let _found = self
            .table
            .shared
            .fetch_sub::<LowerLive>(&mut seat.seat, word, 1);
    }

    /// Draws a stamp for the running task, which has none yet, and returns it.
    pub fn draw_stamp<E: Event>(&self, seat: &mut PassSeat, t: &TaskId) -> u64
        requires event { E.task ≡ t.now }
        requires of { seat_table seat.old ≡ words_table self.now }
        requires runs { (seated seat.old).0.running ≡ t.now ∷ [] }
        requires none_yet { own_stamps (seated seat.old).0 t.now ≡ 0 }
        requires named { HasName (seated seat.old).0 }
        ensures of { seat_table seat.new ≡ seat_table seat.old }
        ensures me { seated seat.new ≡ (with_stamp (seated seat.old).0 t.now result, (seated seat.old).1) }
    {
        let _task = t;
        let word = stamp_index(self.shards);
        self.table
            .shared
            .fetch_add::<DrawStamp<E>>(&mut seat.seat, word, 1)
    }
}
