//! A turn that was taken: only the pass that holds it may read and write the shard.

ghost use Rattle.std.specs.Prelude.{IsOk, OnErr, OnOk, ◌≡◌, ◌<◌, IfErr, IfNone, IfSome, IfOk, true, [], ◌∷◌};
ghost use Rattle.dep_shard.specs.Content.{Content};
ghost use Rattle.work_board.specs.Claims.{FoundGone, HasClaimed};
ghost use Rattle.work_board.specs.Records.{FoundBusy, OnlyTook};
ghost use Rattle.work_board.specs.Word as word;
ghost use Rattle.work_board.specs.declared.record.PassRecord.{PassRecord};
ghost use Rattle.work_board.specs.Sends.{HasEnded, MayEnd, MayTrap};
ghost use Rattle.dep_table.specs.Passes.{IsPassOf};
ghost use Rattle.dep_table.specs.Tables.{id_of, job_of};
ghost use Rattle.dep_table.specs.Turns.{IsTurn, IsTurnOf};
ghost use Rattle.dep_table.specs.Views.{shown};
ghost use Rattle.table_rule.specs.Rule.{placement_of};

use crate::pass::Pass;
use crate::shard_steps::{end_task, take_ready};
use crate::table::DepTable;
use dep_shard::Arrivals;
use ptg_base::{OutOfMemory, TaskId};
use std::marker::Brand;
use term_core::Trap;

/// The turn of a shard, with the pass that took it. It has no `Drop`, so one of the calls that consume it must give the
/// turn back.
pub struct Turn<'a> {
    pub(crate) table: &'a DepTable,
    pub(crate) pass: &'a mut Pass,
    pub(crate) shard: u32,
}

/// Another pass held the turn. The lent pass is returned.
pub struct Busy<'a> {
    pub pass: &'a mut Pass,
}

impl DepTable {
    /// Tries to take the turn of a shard, in one step on its word: `Busy` only if another pass held it then.
    pub fn try_turn<'a>(&'a self, pass: &'a mut Pass, shard: u32) -> Result<Turn<'a>, Busy<'a>>
        requires pass { IsPassOf (id_of self.now) pass.old }
        requires shard { shard < (job_of self.now).shards }
        ensures same { IfOk result (λ t.
            (t.pass.ghost_name ≡ pass.entry.ghost_name) × (t.table.now ≡ self.now) × (t.shard ≡ shard)) }
        ensures turn { IfOk result (λ t. (y : Content) × IsTurnOf t (shown pass.old) y y) }
        ensures name { IfErr result (λ b. b.pass.ghost_name ≡ pass.entry.ghost_name) }
        ensures busy { IfErr result (λ b.
            IsPassOf (id_of self.now) b.pass.now × FoundBusy (word.Turn shard) (shown pass.old) (shown b.pass.now)) }
    {
        let found = self.words.take::<Brand>(&mut pass.seat, shard);
        if found != 0 {
            return Err(Busy { pass });
        }
        Ok(Turn {
            table: self,
            pass,
            shard,
        })
    }
}

impl<'a> Turn<'a> {
    /// Gives the turn back without an event.
    pub fn leave(self)
        requires turn { IsTurn self }
        ensures pass { IsPassOf (id_of self.entry.table.now) self.exit.1.0.now }
        ensures left { (v : PassRecord) (y z : Content) → IsTurnOf self.entry v y z
            → OnlyTook self.entry.shard v (shown self.exit.1.0.now) }
        ensures last { (v : PassRecord) (y z : Content) → IsTurnOf self.entry v y z
            → (shown self.exit.1.0.now).last ≡ (self.entry.shard, y) ∷ [] }
    {
        let Turn { table, pass, shard } = self;
        table.words.give(&mut pass.seat, shard);
    }
}

impl<'a> Turn<'a> {
    /// Claims a task and gives the turn back: None if and only if the shard has no ready entry of the task. The claim
    /// gets its stamp.
    pub fn claim(self, t: &TaskId) -> Option<Arrivals>
        requires turn { IsTurn self }
        requires idle { (shown self.pass.now).running ≡ [] }
        ensures pass { IsPassOf (id_of self.entry.table.now) self.exit.1.0.now }
        ensures some { IfSome result (λ tiles.
            (v : PassRecord) (y z : Content) → IsTurnOf self.entry v y z
            → HasClaimed (job_of self.entry.table.now).matched (job_of self.entry.table.now).given self.entry.shard
            t.now tiles v (shown self.exit.1.0.now)) }
        ensures none { IfNone result
            ((v : PassRecord) (y z : Content) → IsTurnOf self.entry v y z
            → FoundGone self.entry.shard t.now v (shown self.exit.1.0.now)) }
        ensures last { (v : PassRecord) (y z : Content) → IsTurnOf self.entry v y z
            → (shown self.exit.1.0.now).last ≡ (self.entry.shard, y) ∷ [] }
    {
        let Turn { table, pass, shard } = self;
        let held = pass.seat.shard_mut(&table.words, shard);
        match take_ready(held, t) {
            Some(tiles) => {
                table
                    .words
                    .give_claim::<Brand>(&mut pass.seat, shard, t, &tiles);
                pass.stamp = table.words.draw_stamp::<Brand>(&mut pass.seat, t);
                Some(tiles)
            }
            None => {
                table.words.give(&mut pass.seat, shard);
                None
            }
        }
    }
}

impl<'a> Turn<'a> {
    /// Ends the running task, whose items the pass has all sent, and gives the turn back. None of the tiles that came
    /// with the task are left in `spent`: the shard keeps them for later sends, or drops them.
    pub fn end(self, t: &TaskId, spent: &mut Arrivals)
        requires turn { IsTurn self }
        requires task { MayEnd (job_of self.table.now).matched (job_of self.table.now).given t.now
            (shown self.pass.now) }
        requires shard { placement_of (job_of self.table.now) t.now ≡ self.shard }
        ensures pass { IsPassOf (id_of self.entry.table.now) self.exit.1.0.now }
        ensures ended { (v : PassRecord) (y z : Content) → IsTurnOf self.entry v y z
            → HasEnded self.entry.shard v (shown self.exit.1.0.now) }
        ensures last { (v : PassRecord) (y z : Content) → IsTurnOf self.entry v y z
            → (shown self.exit.1.0.now).last ≡ (self.entry.shard, y) ∷ [] }
        ensures spent { spent.new ≡ [] }
    {
        let _task = t;
        let Turn { table, pass, shard } = self;
        let held = pass.seat.shard_mut(&table.words, shard);
        end_task(held, spent);
        table.words.give_end(&mut pass.seat, shard);
        table.words.lower_live(&mut pass.seat);
    }
}

impl<'a> Turn<'a> {
    /// Notes that the running task trapped with this cause, which ends it, and gives the turn back. If memory is
    /// refused, the turn is given back and nothing else happens. A preloaded table has the memory.
    pub fn trap(self, t: &TaskId, cause: Trap) -> Result<(), OutOfMemory>
        requires turn { IsTurn self }
        requires task { MayTrap (job_of self.table.now).matched (job_of self.table.now).given t.now cause
            (shown self.pass.now) }
        requires shard { placement_of (job_of self.table.now) t.now ≡ self.shard }
        ensures pass { IsPassOf (id_of self.entry.table.now) self.exit.1.0.now }
        ensures ended { OnOk result
            ((v : PassRecord) (y z : Content) → IsTurnOf self.entry v y z
            → HasEnded self.entry.shard v (shown self.exit.1.0.now)) }
        ensures left { OnErr result
            ((v : PassRecord) (y z : Content) → IsTurnOf self.entry v y z
            → OnlyTook self.entry.shard v (shown self.exit.1.0.now)) }
        ensures last { (v : PassRecord) (y z : Content) → IsTurnOf self.entry v y z
            → (shown self.exit.1.0.now).last ≡ (self.entry.shard, y) ∷ [] }
        ensures preloaded { (job_of self.entry.table.now).preloaded ≡ true → IsOk result }
    {
        let Turn { table, pass, shard } = self;
        let held = pass.seat.shard_mut(&table.words, shard);
        match held.trap(t, cause) {
            Ok(()) => {
                table.words.give_end(&mut pass.seat, shard);
                table.words.lower_live(&mut pass.seat);
                Ok(())
            }
            Err(OutOfMemory) => {
                table.words.give(&mut pass.seat, shard);
                Err(OutOfMemory)
            }
        }
    }
}
