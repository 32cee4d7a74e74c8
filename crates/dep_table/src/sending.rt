//! The send of an item on a turn.

ghost use Rattle.std.specs.Prelude.{◌≡◌, [], ◌∷◌, true, IfOk, IsOk, OnErr};
ghost use Rattle.std.specs.Option.{option_copied};
ghost use Rattle.dep_shard.specs.Content.{Content};
ghost use Rattle.work_board.specs.Records.{OnlyTook};
ghost use Rattle.work_board.specs.Sends.{HasSent, IsNext, shard_of_item};
ghost use Rattle.work_board.specs.declared.record.PassRecord.{PassRecord};
ghost use Rattle.dep_table.specs.Passes.{IsPassOf};
ghost use Rattle.dep_table.specs.Tables.{id_of, job_of};
ghost use Rattle.dep_table.specs.Turns.{IsTurn, IsTurnOf};
ghost use Rattle.dep_table.specs.Views.{shown};
ghost use Rattle.table_rule.specs.Rule.{placement_of};

use crate::delivery::take_item;
use crate::turn::Turn;
use ptg_base::{Item, OutOfMemory, Tile};
use std::marker::Brand;
use work_board::Sent;

impl<'a> Turn<'a> {
    /// Sends an item of the task that the pass runs, with its tile, and gives the turn back. For an edge it returns
    /// `Fired` if that was the last edge that its target waited for, else `Waits`; for a write-back `Kept`. It takes
    /// all memory first. If memory is refused, the turn is given back and nothing else happens. A preloaded table has
    /// the memory.
    pub fn send(self, item: &Item, tile: Option<&Tile>) -> Result<Sent, OutOfMemory>
        requires turn { IsTurn self }
        requires item { IsNext (job_of self.table.now).matched (job_of self.table.now).given item.now
            (option_copied tile) (shown self.pass.now) }
        requires shard { shard_of_item (placement_of (job_of self.table.now)) item.now ≡ self.shard }
        ensures pass { IsPassOf (id_of self.entry.table.now) self.exit.1.0.now }
        ensures sent { IfOk result (λ a.
            (v : PassRecord) (y z : Content) → IsTurnOf self.entry v y z
            → HasSent (job_of self.entry.table.now).matched self.entry.shard item.now (option_copied tile.entry) a v
            (shown self.exit.1.0.now)) }
        ensures left { OnErr result
            ((v : PassRecord) (y z : Content) → IsTurnOf self.entry v y z
            → OnlyTook self.entry.shard v (shown self.exit.1.0.now)) }
        ensures last { (v : PassRecord) (y z : Content) → IsTurnOf self.entry v y z
            → (shown self.exit.1.0.now).last ≡ (self.entry.shard, y) ∷ [] }
        ensures preloaded { (job_of self.entry.table.now).preloaded ≡ true → IsOk result }
    {
        let Turn { table, pass, shard } = self;
        let held = pass.seat.shard_mut(&table.words, shard);
        match take_item(held, &table.job.matched, item, tile) {
            Ok(answer) => {
                table.raise_for(&mut pass.seat, answer);
                table
                    .words
                    .give_send::<Brand>(&mut pass.seat, shard, item, tile);
                Ok(answer)
            }
            Err(OutOfMemory) => {
                table.words.give(&mut pass.seat, shard);
                Err(OutOfMemory)
            }
        }
    }
}
