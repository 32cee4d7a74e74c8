//! The best ready task of a shard whose turn was taken.

ghost use Rattle.std.specs.Prelude.{◌≡◌, ◌∷◌, [], IfNone, IfSome};
ghost use Rattle.dep_shard.specs.Content.{Content, HasNoReady, IsBest};
ghost use Rattle.work_board.specs.Claims.{HasClaimedBest};
ghost use Rattle.work_board.specs.declared.record.PassRecord.{PassRecord};
ghost use Rattle.dep_table.specs.Passes.{IsPassOf};
ghost use Rattle.dep_table.specs.Tables.{id_of, job_of};
ghost use Rattle.dep_table.specs.Turns.{HasLooked, IsTurn, IsTurnOf};
ghost use Rattle.dep_table.specs.Views.{shown};

use crate::pass::Pass;
use crate::table::DepTable;
use crate::turn::Turn;
use dep_shard::Arrivals;
use ptg_base::TaskId;

impl DepTable {
    // The best ready task of the shard whose turn the pass holds.
    fn best_of(&self, pass: &mut Pass, shard: u32) -> Option<TaskId>
        requires of { pass.old.table ≡ id_of self.now }
        requires holds { (y : Content) × (pass.old.me.1 ≡ (shard, y) ∷ []) }
        ensures same { (pass.new.table ≡ pass.old.table) × (pass.new.stamp ≡ pass.old.stamp) }
        ensures shard { (y : Content) → pass.old.me.1 ≡ (shard, y) ∷ [] → HasLooked shard y pass.old.me pass.new.me }
        ensures none { IfNone result ((y : Content) → pass.old.me.1 ≡ (shard, y) ∷ [] → HasNoReady y.entries) }
        ensures some { IfSome result (λ t. (y : Content) → pass.old.me.1 ≡ (shard, y) ∷ [] → IsBest y.entries t) }
    {
        let held = pass.seat.shard_mut(&self.words, shard);
        held.best_ready()
    }
}

impl<'a> Turn<'a> {
    /// The best ready task of the shard, or None if and only if none is ready. The pass keeps the turn.
    pub fn best_ready(&mut self) -> Option<TaskId>
        requires turn { IsTurn self.old }
        ensures same_reference { self.new.pass.ghost_name ≡ self.old.pass.ghost_name }
        ensures same { (self.new.table.now ≡ self.old.table.now) × (self.new.shard ≡ self.old.shard) }
        ensures turn { (v : PassRecord) (y z : Content) → IsTurnOf self.old v y z
            → (w : Content) × IsTurnOf self.new v y w }
        ensures none { IfNone result
            ((v : PassRecord) (y z : Content) → IsTurnOf self.old v y z → HasNoReady y.entries) }
        ensures some { IfSome result (λ t.
            (v : PassRecord) (y z : Content) → IsTurnOf self.old v y z → IsBest y.entries t) }
    {
        self.table.best_of(self.pass, self.shard)
    }
}

impl<'a> Turn<'a> {
    // Claims the best ready task of the shard and gives the turn back. The claim gets its stamp.
    pub(crate) fn claim_best(self, t: &TaskId) -> Arrivals
        requires idle { (shown self.pass.now).running ≡ [] }
        requires best { (v : PassRecord) × (y : Content) × (z : Content) × IsTurnOf self v y z
            × IsBest y.entries t.now }
        ensures pass { IsPassOf (id_of self.entry.table.now) self.exit.1.0.now }
        ensures claimed { (v : PassRecord) (y z : Content) → IsTurnOf self.entry v y z
            → HasClaimedBest (job_of self.entry.table.now).matched (job_of self.entry.table.now).given self.entry.shard
            t.now result v (shown self.exit.1.0.now) }
    {
        match self.claim(t) {
            Some(arrivals) => arrivals,
            None => unreachable!(),
        }
    }
}
