//! The end of a task, and its trap.

ghost use Rattle.std.specs.Prelude.{◌≡◌, false, OnOk, OnErr};
ghost use Rattle.work_board.specs.Records.{IsStill};
ghost use Rattle.work_board.specs.Sends.{MayEnd, MayTrap, HasEndedOnly};

use crate::post::Post;
use crossbeam_utils::Backoff;
use dep_shard::Arrivals;
use ptg_base::{OutOfMemory, TaskId};
use std::sync::Wait;
use std::thread::Threads;
use term_core::Trap;
use work_board::Board;

// Ends the task that the pass runs, and waits for the turn of its shard as long as that takes. The board may keep the
// tiles that came with it.
pub(crate) fn end_one<R: Threads + Wait + Sync, B: Board, G>(
    post: &Post<R, B, G>,
    pass: &mut B::Pass,
    shard: u32,
    t: &TaskId,
    mut spent: Arrivals,
)
    requires pass { B.is_pass post.now.board.now pass.old }
    requires task { MayEnd (B.plan post.now.board.now) (B.job_data post.now.board.now) t.now (B.shown pass.old) }
    requires shard { shard ≡ B.placement post.now.board.now t.now }
    ensures pass { B.is_pass post.now.board.now pass.new }
    ensures ended { HasEndedOnly (B.shown pass.old) (B.shown pass.new) }
{
    let backoff = Backoff::new();
    for _ in post.rt.forever() {
        if post.board.try_end(pass, shard, t, &mut spent) {
            return;
        }
        backoff.snooze();
    }
}

// Notes that the task that the pass runs trapped, and waits for the turn of its shard as long as that takes.
pub(crate) fn trap_one<R: Threads + Wait + Sync, B: Board, G>(
    post: &Post<R, B, G>,
    pass: &mut B::Pass,
    shard: u32,
    t: &TaskId,
    cause: Trap,
) -> Result<(), OutOfMemory>
    requires pass { B.is_pass post.now.board.now pass.old }
    requires task { MayTrap (B.plan post.now.board.now) (B.job_data post.now.board.now) t.now cause (B.shown pass.old) }
    requires shard { shard ≡ B.placement post.now.board.now t.now }
    ensures pass { B.is_pass post.now.board.now pass.new }
    ensures ended { OnOk result (HasEndedOnly (B.shown pass.old) (B.shown pass.new)) }
    ensures still { OnErr result (IsStill (B.shown pass.old) (B.shown pass.new)) }
    ensures err { OnErr result (B.preloaded post.now.board.now ≡ false) }
{
    let backoff = Backoff::new();
    for _ in post.rt.forever() {
        if post.board.try_trap(pass, shard, t, cause)? {
            return Ok(());
        }
        backoff.snooze();
    }
    unreachable!()
}
