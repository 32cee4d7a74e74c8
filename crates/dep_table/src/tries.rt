//! The calls of a pass that try once to take the turn of one shard.

ghost use Rattle.std.specs.Prelude.{◌≡◌, ◌<◌, [], true, IsOk, IfOk, OnErr};
ghost use Rattle.std.specs.Option.{option_copied};
ghost use Rattle.work_board.specs.Claims.{ClaimAnswers, ScanAnswers};
ghost use Rattle.work_board.specs.Records.{OnlyTook};
ghost use Rattle.work_board.specs.Sends.{EndAnswers, IsNext, MayEnd, MayTrap, SendAnswers, SpentAfter, shard_of_item};
ghost use Rattle.dep_table.specs.Passes.{IsPassOf};
ghost use Rattle.dep_table.specs.Tables.{id_of, job_of};
ghost use Rattle.dep_table.specs.Views.{shown};
ghost use Rattle.table_rule.specs.Rule.{placement_of};

use crate::pass::Pass;
use crate::table::DepTable;
use crate::turn::Busy;
use dep_shard::Arrivals;
use ptg_base::{Item, OutOfMemory, TaskId, Tile};
use table_rule::each_task_has_a_shard;
use term_core::Trap;
use work_board::{Claim, Scan, Sent};

impl DepTable {
    // Claims a task of this shard. With the turn, it returns `Gone` if and only if the shard has no ready entry of the
    // task.
    pub(crate) fn claim_once(&self, pass: &mut Pass, shard: u32, t: &TaskId) -> Claim
        requires pass { IsPassOf (id_of self.now) pass.old }
        requires shard { shard ≡ placement_of (job_of self.now) t.now }
        requires idle { (shown pass.old).running ≡ [] }
        ensures pass { IsPassOf (id_of self.now) pass.new }
        ensures claim { ClaimAnswers (job_of self.now).matched (job_of self.now).given
            (placement_of (job_of self.now) t.now) t.now result (shown pass.old) (shown pass.new) }
    {
        each_task_has_a_shard();
        match self.try_turn(pass, shard) {
            Ok(turn) => match turn.claim(t) {
                Some(arrivals) => Claim::Got(arrivals),
                None => Claim::Gone,
            },
            Err(Busy { pass: _pass }) => Claim::Busy,
        }
    }

    // Claims the best ready task of a shard. With the turn, it returns `Empty` if and only if none is ready.
    pub(crate) fn scan_once(&self, pass: &mut Pass, shard: u32) -> Scan
        requires pass { IsPassOf (id_of self.now) pass.old }
        requires shard { shard < (job_of self.now).shards }
        requires idle { (shown pass.old).running ≡ [] }
        ensures pass { IsPassOf (id_of self.now) pass.new }
        ensures scan { ScanAnswers (job_of self.now).matched (job_of self.now).given
            (placement_of (job_of self.now)) shard result (shown pass.old) (shown pass.new) }
    {
        match self.try_turn(pass, shard) {
            Ok(mut turn) => match turn.best_ready() {
                Some(t) => {
                    let arrivals = turn.claim_best(&t);
                    Scan::Got(t, arrivals)
                }
                None => {
                    turn.leave();
                    Scan::Empty
                }
            },
            Err(Busy { pass: _pass }) => Scan::Busy,
        }
    }

    // Sends an item of the task that the pass runs, with the tile that the task leaves in its flow. This is the shard
    // that handles the item.
    pub(crate) fn send_once(
        &self,
        pass: &mut Pass,
        shard: u32,
        item: &Item,
        tile: Option<&Tile>,
    ) -> Result<Sent, OutOfMemory>
        requires pass { IsPassOf (id_of self.now) pass.old }
        requires item { IsNext (job_of self.now).matched (job_of self.now).given item.now (option_copied tile)
            (shown pass.old) }
        requires shard { shard ≡ shard_of_item (placement_of (job_of self.now)) item.now }
        ensures pass { IsPassOf (id_of self.now) pass.new }
        ensures sent { IfOk result (λ a.
            SendAnswers (job_of self.now).matched (shard_of_item (placement_of (job_of self.now)) item.now) item.now
            (option_copied tile.entry) a (shown pass.old) (shown pass.new)) }
        ensures err { OnErr result
            (OnlyTook (shard_of_item (placement_of (job_of self.now)) item.now) (shown pass.old) (shown pass.new)) }
        ensures preloaded { (job_of self.now).preloaded ≡ true → IsOk result }
    {
        each_task_has_a_shard();
        match self.try_turn(pass, shard) {
            Ok(turn) => turn.send(item, tile),
            Err(Busy { pass: _pass }) => Ok(Sent::Busy),
        }
    }

    // Ends the task that the pass runs, which belongs to this shard and whose items were all sent. None of the tiles
    // that came with it are left in `spent`. False only if another pass held the turn; then all of them are.
    pub(crate) fn end_once(
        &self,
        pass: &mut Pass,
        shard: u32,
        t: &TaskId,
        spent: &mut Arrivals,
    ) -> bool
        requires pass { IsPassOf (id_of self.now) pass.old }
        requires task { MayEnd (job_of self.now).matched (job_of self.now).given t.now (shown pass.old) }
        requires shard { shard ≡ placement_of (job_of self.now) t.now }
        ensures pass { IsPassOf (id_of self.now) pass.new }
        ensures ended { EndAnswers result (placement_of (job_of self.now) t.now) (shown pass.old) (shown pass.new) }
        ensures spent { SpentAfter result spent.old spent.new }
    {
        each_task_has_a_shard();
        match self.try_turn(pass, shard) {
            Ok(turn) => {
                turn.end(t, spent);
                true
            }
            Err(Busy { pass: _pass }) => false,
        }
    }

    // Notes that the task that the pass runs, which belongs to this shard, trapped with this cause. False only if
    // another pass held the turn.
    pub(crate) fn trap_once(
        &self,
        pass: &mut Pass,
        shard: u32,
        t: &TaskId,
        cause: Trap,
    ) -> Result<bool, OutOfMemory>
        requires pass { IsPassOf (id_of self.now) pass.old }
        requires task { MayTrap (job_of self.now).matched (job_of self.now).given t.now cause (shown pass.old) }
        requires shard { shard ≡ placement_of (job_of self.now) t.now }
        ensures pass { IsPassOf (id_of self.now) pass.new }
        ensures ended { IfOk result (λ a.
            EndAnswers a (placement_of (job_of self.now) t.now) (shown pass.old) (shown pass.new)) }
        ensures err { OnErr result
            (OnlyTook (placement_of (job_of self.now) t.now) (shown pass.old) (shown pass.new)) }
        ensures preloaded { (job_of self.now).preloaded ≡ true → IsOk result }
    {
        each_task_has_a_shard();
        match self.try_turn(pass, shard) {
            Ok(turn) => {
                turn.trap(t, cause)?;
                Ok(true)
            }
            Err(Busy { pass: _pass }) => Ok(false),
        }
    }
}
