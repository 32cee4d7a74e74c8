//! The next task of a worker.

ghost use Rattle.std.specs.Prelude.{◌≡◌, [], false, OnErr, IfOk};
ghost use Rattle.ready_deques.specs.Hands.{SameWorker};
ghost use Rattle.work_board.specs.Records.{IsStill};
ghost use Rattle.worker_core.specs.Claiming.{GotOrQuiet, SearchAnswers};
ghost use Rattle.worker_core.specs.declared.claiming.Found.{Found as FoundTask};

use crate::claiming::{Found, Search, claim_id, scan};
use crate::patience::Patience;
use crate::post::Post;
use crate::scans::Scans;
use crate::sleeping::{sleep, wake_all};
use crate::stealing::take_id;
use ptg_base::OutOfMemory;
use ready_deques::Hands;
use std::sync::Wait;
use std::thread::Threads;
use work_board::Board;

// Looks for quiet: Quiet or Nothing.
pub(crate) fn see_quiet<R: Threads + Wait + Sync, B: Board, G>(
    post: &Post<R, B, G>,
    pass: &mut B::Pass,
) -> Search
    requires { B.is_pass post.now.board.now pass.old }
    ensures pass { B.is_pass post.now.board.now pass.new }
    ensures looked { (f : FoundTask) → SearchAnswers (B.plan post.now.board.now) (B.job_data post.now.board.now)
        (B.placement post.now.board.now) result f (B.shown pass.old) (B.shown pass.new) }
{
    if post.board.see_quiet(pass) {
        return Search::Quiet;
    }
    Search::Nothing
}

// Looks for a task once: among the worker's own ids, then those of other workers, then in the next shard if a scan is
// due. An id whose task is gone starts the patience anew, since the look did find something.
fn look_once<R: Threads + Wait + Sync, B: Board, G>(
    post: &Post<R, B, G>,
    pass: &mut B::Pass,
    hands: &mut Hands,
    scans: &mut Scans,
    patience: &mut Patience,
    found: &mut Found,
) -> Search
    requires pass { B.is_pass post.now.board.now pass.old }
    requires idle { (B.shown pass.old).running ≡ [] }
    ensures pass { B.is_pass post.now.board.now pass.new }
    ensures hands { SameWorker hands.old hands.new }
    ensures looked { SearchAnswers (B.plan post.now.board.now) (B.job_data post.now.board.now)
        (B.placement post.now.board.now) result found.new (B.shown pass.old) (B.shown pass.new) }
{
    if let Some(id) = take_id(post.rt, hands) {
        *patience = Patience::new();
        return claim_id(post, pass, id, found);
    }
    if !scans.is_due(post.board.shards()) {
        return see_quiet(post, pass);
    }
    match scan(post, pass, scans, found) {
        Search::Task => Search::Task,
        Search::Quiet => Search::Quiet,
        Search::Nothing => see_quiet(post, pass),
    }
}

// Pauses after a look that found nothing. If the patience is over and the board has a place to sleep, it sleeps there.
fn rest<R: Threads + Wait + Sync, B: Board, G>(
    post: &Post<R, B, G>,
    pass: &mut B::Pass,
    patience: &mut Patience,
    found: &mut Found,
) -> Search
    requires pass { B.is_pass post.now.board.now pass.old }
    requires idle { (B.shown pass.old).running ≡ [] }
    ensures pass { B.is_pass post.now.board.now pass.new }
    ensures looked { SearchAnswers (B.plan post.now.board.now) (B.job_data post.now.board.now)
        (B.placement post.now.board.now) result found.new (B.shown pass.old) (B.shown pass.new) }
{
    if patience.is_over() {
        if let Some(events) = post.board.events() {
            *patience = Patience::new();
            return sleep(post, pass, events, found);
        }
    }
    patience.pause();
    Search::Nothing
}

// Looks for a task once, and rests if it finds none.
fn look_or_rest<R: Threads + Wait + Sync, B: Board, G>(
    post: &Post<R, B, G>,
    pass: &mut B::Pass,
    hands: &mut Hands,
    scans: &mut Scans,
    patience: &mut Patience,
    found: &mut Found,
) -> Search
    requires pass { B.is_pass post.now.board.now pass.old }
    requires idle { (B.shown pass.old).running ≡ [] }
    ensures pass { B.is_pass post.now.board.now pass.new }
    ensures hands { SameWorker hands.old hands.new }
    ensures looked { SearchAnswers (B.plan post.now.board.now) (B.job_data post.now.board.now)
        (B.placement post.now.board.now) result found.new (B.shown pass.old) (B.shown pass.new) }
{
    match look_once(post, pass, hands, scans, patience, found) {
        Search::Task => Search::Task,
        Search::Quiet => Search::Quiet,
        Search::Nothing => rest(post, pass, patience, found),
    }
}

// Claims the next task, and fills the place for it; false if all is quiet. Out of memory if the board is halted.
pub(crate) fn next_task<R: Threads + Wait + Sync, B: Board, G>(
    post: &Post<R, B, G>,
    pass: &mut B::Pass,
    hands: &mut Hands,
    scans: &mut Scans,
    found: &mut Found,
) -> Result<bool, OutOfMemory>
    requires pass { B.is_pass post.now.board.now pass.old }
    requires idle { (B.shown pass.old).running ≡ [] }
    ensures pass { B.is_pass post.now.board.now pass.new }
    ensures hands { SameWorker hands.old hands.new }
    ensures found { IfOk result (λ got.
        GotOrQuiet (B.plan post.now.board.now) (B.job_data post.now.board.now) (B.placement post.now.board.now) got
        found.new (B.shown pass.old) (B.shown pass.new)) }
    ensures still { OnErr result (IsStill (B.shown pass.old) (B.shown pass.new)) }
    ensures halted { OnErr result (B.preloaded post.now.board.now ≡ false) }
{
    let mut patience = Patience::new();
    for _ in post.rt.forever() {
        if post.board.halted(pass) {
            return Err(OutOfMemory);
        }
        match look_or_rest(post, pass, hands, scans, &mut patience, found) {
            Search::Task => return Ok(true),
            Search::Quiet => {
                wake_all(post.board);
                return Ok(false);
            }
            Search::Nothing => {}
        }
    }
    unreachable!()
}
