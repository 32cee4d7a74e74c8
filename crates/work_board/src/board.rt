//! What a worker needs of a table of dependences.

ghost use Rattle.std.specs.Prelude.{◌≡◌, ◌<◌, [], ◌∷◌, true, false, IsOk, IfOk, OnErr};
ghost use Rattle.std.specs.Option.{option_copied};
ghost use Rattle.ptg_base.specs.Task.{Task};
ghost use Rattle.plan_data.specs.Fit.{DataFit};
ghost use Rattle.dep_iter.specs.Tasks.{IsTask};
ghost use Rattle.work_board.specs.Records.{IsClean, OnlyTook};
ghost use Rattle.work_board.specs.Claims.{ClaimAnswers, ScanAnswers};
ghost use Rattle.work_board.specs.Sends.{EndAnswers, IsNext, MayEnd, MayTrap, SendAnswers, SpentAfter, shard_of_item};
ghost use Rattle.work_board.specs.Looks.{HaltAnswers, HasHalted, HasStamp, QuietAnswers};

use crate::answers::{Claim, Scan, Sent};
use coll_data::Given;
use crossbeam_utils::sync::EventCount;
use dep_iter::{Matched, TaskAt};
use dep_shard::Arrivals;
use ptg_base::{Item, OutOfMemory, TaskId, Tile};
use std::marker::Sync;
use term_core::Trap;

/// A table of dependences that workers share, each by a pass of its own. A call that needs a shard tries to take its
/// turn once and does not wait. If another pass holds the turn, the call returns `Busy` or false, and the pass's look
/// shows the word that was not 0.
///
/// Every call that takes a pass needs a clean pass of this board, and leaves it clean. A call that returns
/// `OutOfMemory`, `Busy` or false changes at most the pass's looks and the shard that it took last.
pub trait Board: Sync {
    ghost use Rattle.std.specs.Prelude.{Bool, ℕ};
    ghost use Rattle.ptg_base.specs.Task.{Task};
    ghost use Rattle.plan_core.specs.declared.plan.Plan.{Plan};
    ghost use Rattle.coll_data.specs.Data.{Data};
    ghost use Rattle.work_board.specs.declared.record.PassRecord.{PassRecord};

    /// A worker's handle on the table: what it did and holds.
    type Pass;

    /// What a pass has done and what it holds.
    ghost shown: { Self.Pass → PassRecord };

    /// The pass belongs to this board and is clean.
    ghost is_pass: { Self → Self.Pass → Type 0 };

    /// The plan of the job.
    ghost plan: { Self → Plan };

    ghost job_data: { Self → Data };

    /// The shard of each task.
    ghost placement: { Self → Task → ℕ };

    /// The number of shards that can be scanned.
    ghost shard_count: { Self → ℕ };

    /// Whether the memory of all entries, tiles, write-backs and traps was taken before the run.
    ghost preloaded: { Self → Bool };

    /// The job's plan.
    fn matched(&self) -> &Matched
        ensures { result.now ≡ plan self.now };

    /// The job's data.
    fn given(&self) -> &Given
        ensures same { result.now ≡ job_data self.now }
        ensures fit { DataFit (plan self.now) (job_data self.now) };

    /// The number of shards that can be scanned.
    fn shards(&self) -> u32
        ensures { result ≡ shard_count self.now };

    /// Whether the memory of all entries, tiles, write-backs and traps was taken before the run.
    fn is_preloaded(&self) -> bool
        ensures { result ≡ preloaded self.now };

    /// Where workers sleep that find nothing to do; None if they may not sleep. Before it sleeps, a worker announces
    /// its sleep and then looks at all shards that can be scanned. So a board on which some shards can't be scanned
    /// returns None. Whoever makes a task ready and leaves it to others, or halts the board, must notify after that
    /// step. Whoever ends a task must then look for quiet and, if it sees it, wake all. No clause speaks of this.
    fn events(&self) -> Option<&EventCount>;

    /// The number of the shard of a task: the one in which it is claimed and ends, and at which the edges into it
    /// arrive. The calls that need the turn of a shard are given its number, so that it is found once for all tries.
    fn shard_of(&self, at: &TaskAt) -> u32
        requires { at.now.plan.now ≡ plan self.now }
        ensures { result ≡ placement self.now at.now.task.now };

    /// Claims a task of this shard. With the turn, it returns `Gone` if and only if the shard has no ready entry of the
    /// task.
    fn try_claim(&self, pass: &mut Self::Pass, shard: u32, t: &TaskId) -> Claim
        requires pass { is_pass self.now pass.old }
        requires task { IsTask (plan self.now) t.now }
        requires shard { shard ≡ placement self.now t.now }
        requires idle { (shown pass.old).running ≡ [] }
        ensures pass { is_pass self.now pass.new }
        ensures claim { ClaimAnswers (plan self.now) (job_data self.now) (placement self.now t.now) t.now result
            (shown pass.old) (shown pass.new) };

    /// Claims the best ready task of a shard. With the turn, it returns `Empty` if and only if none is ready.
    fn try_scan(&self, pass: &mut Self::Pass, shard: u32) -> Scan
        requires pass { is_pass self.now pass.old }
        requires shard { shard < shard_count self.now }
        requires idle { (shown pass.old).running ≡ [] }
        ensures pass { is_pass self.now pass.new }
        ensures scan { ScanAnswers (plan self.now) (job_data self.now) (placement self.now) shard result
            (shown pass.old) (shown pass.new) };

    /// Sends an item of the task that the pass runs, with the tile that the task leaves in its flow. This is the shard
    /// that handles the item: for an edge that of its target, for a write-back that of the task.
    fn try_send(
        &self,
        pass: &mut Self::Pass,
        shard: u32,
        item: &Item,
        tile: Option<&Tile>,
    ) -> Result<Sent, OutOfMemory>
        requires pass { is_pass self.now pass.old }
        requires item { IsNext (plan self.now) (job_data self.now) item.now (option_copied tile) (shown pass.old) }
        requires shard { shard ≡ shard_of_item (placement self.now) item.now }
        ensures pass { is_pass self.now pass.new }
        ensures sent { IfOk result (λ a.
            SendAnswers (plan self.now) (shard_of_item (placement self.now) item.now) item.now
            (option_copied tile.entry) a (shown pass.old) (shown pass.new)) }
        ensures err { OnErr result
            (OnlyTook (shard_of_item (placement self.now) item.now) (shown pass.old) (shown pass.new)) }
        ensures preloaded { preloaded self.now ≡ true → IsOk result };

    /// Ends the task that the pass runs, which belongs to this shard and whose items were all sent. False only if
    /// another pass held the turn. The board may keep tiles that came with the task for later sends, or drop them; with
    /// false they all stay.
    fn try_end(&self, pass: &mut Self::Pass, shard: u32, t: &TaskId, spent: &mut Arrivals) -> bool
        requires pass { is_pass self.now pass.old }
        requires task { MayEnd (plan self.now) (job_data self.now) t.now (shown pass.old) }
        requires shard { shard ≡ placement self.now t.now }
        ensures pass { is_pass self.now pass.new }
        ensures ended { EndAnswers result (placement self.now t.now) (shown pass.old) (shown pass.new) }
        ensures spent { SpentAfter result spent.old spent.new };

    /// Notes that the task that the pass runs, which belongs to this shard, trapped with this cause. False only if
    /// another pass held the turn.
    fn try_trap(
        &self,
        pass: &mut Self::Pass,
        shard: u32,
        t: &TaskId,
        cause: Trap,
    ) -> Result<bool, OutOfMemory>
        requires pass { is_pass self.now pass.old }
        requires task { MayTrap (plan self.now) (job_data self.now) t.now cause (shown pass.old) }
        requires shard { shard ≡ placement self.now t.now }
        ensures pass { is_pass self.now pass.new }
        ensures ended { IfOk result (λ a. EndAnswers a (placement self.now t.now) (shown pass.old) (shown pass.new)) }
        ensures err { OnErr result (OnlyTook (placement self.now t.now) (shown pass.old) (shown pass.new)) }
        ensures preloaded { preloaded self.now ≡ true → IsOk result };

    /// Looks at the live word. True if and only if it was 0: then the pass has seen quiet.
    fn see_quiet(&self, pass: &mut Self::Pass) -> bool
        requires { is_pass self.now pass.old }
        ensures pass { is_pass self.now pass.new }
        ensures quiet { QuietAnswers result (shown pass.old) (shown pass.new) };

    /// Raises the halt word, and then wakes all sleeping workers. A preloaded board is never halted.
    fn halt(&self, pass: &mut Self::Pass)
        requires pass { is_pass self.now pass.old }
        requires not_preloaded { preloaded self.now ≡ false }
        ensures pass { is_pass self.now pass.new }
        ensures halted { HasHalted (shown pass.old) (shown pass.new) };

    /// Whether the halt word was not 0, at one look. It is never raised on a preloaded board.
    fn halted(&self, pass: &mut Self::Pass) -> bool
        requires { is_pass self.now pass.old }
        ensures pass { is_pass self.now pass.new }
        ensures halted { HaltAnswers result (shown pass.old) (shown pass.new) }
        ensures preloaded { preloaded self.now ≡ true → result ≡ false };

    /// The stamp of the task that the pass runs.
    fn stamp(&self, pass: &Self::Pass) -> u64
        requires pass { is_pass self.now pass.now }
        requires runs { (t : Task) × ((shown pass.now).running ≡ t ∷ []) }
        ensures { (t : Task) → (shown pass.now).running ≡ t ∷ [] → HasStamp (shown pass.now) t result };

    /// A law: a pass of the board is clean.
    ghost clean: { (board : Self) (pass : Self.Pass) → is_pass board pass → IsClean (shown pass) };
}
