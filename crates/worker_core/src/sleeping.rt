//! The sleep of a worker that has found nothing for a while, and what wakes it.

ghost use Rattle.std.specs.Prelude.{◌≡◌, []};
ghost use Rattle.worker_core.specs.Claiming.{SearchAnswers};

use crate::claiming::{Found, Search, scan_all};
use crate::next::see_quiet;
use crate::post::Post;
use crossbeam_utils::sync::EventCount;
use std::sync::Wait;
use std::thread::Threads;
use work_board::Board;

// Looks at all shards, and then for quiet. `calm` becomes false if another pass held the turn of a shard, since then
// that shard was not seen.
fn look_at_all<R: Threads + Wait + Sync, B: Board, G>(
    post: &Post<R, B, G>,
    pass: &mut B::Pass,
    calm: &mut bool,
    found: &mut Found,
) -> Search
    requires pass { B.is_pass post.now.board.now pass.old }
    requires idle { (B.shown pass.old).running ≡ [] }
    ensures pass { B.is_pass post.now.board.now pass.new }
    ensures looked { SearchAnswers (B.plan post.now.board.now) (B.job_data post.now.board.now)
        (B.placement post.now.board.now) result found.new (B.shown pass.old) (B.shown pass.new) }
{
    match scan_all(post, pass, calm, found) {
        Search::Task => Search::Task,
        Search::Quiet => Search::Quiet,
        Search::Nothing => see_quiet(post, pass),
    }
}

// Sleeps until an event, unless there is something to do. The worker announces its sleep first and looks afterwards: it
// sees what came before the look, and is woken by what comes after it.
pub(crate) fn sleep<R: Threads + Wait + Sync, B: Board, G>(
    post: &Post<R, B, G>,
    pass: &mut B::Pass,
    events: &EventCount,
    found: &mut Found,
) -> Search
    requires pass { B.is_pass post.now.board.now pass.old }
    requires idle { (B.shown pass.old).running ≡ [] }
    ensures pass { B.is_pass post.now.board.now pass.new }
    ensures looked { SearchAnswers (B.plan post.now.board.now) (B.job_data post.now.board.now)
        (B.placement post.now.board.now) result found.new (B.shown pass.old) (B.shown pass.new) }
{
    let announced = events.prepare_wait();
    if post.board.halted(pass) {
        return Search::Nothing;
    }
    let mut calm = true;
    let search = look_at_all(post, pass, &mut calm, found);
    if calm && matches!(search, Search::Nothing) {
        announced.wait(post.rt);
    }
    search
}

// Wakes one of the workers that sleep at a board: there may be a task for it.
pub(crate) fn wake_one<B: Board>(board: &B) {
    if let Some(events) = board.events() {
        events.notify_one();
    }
}

// Wakes all workers that sleep at a board that is halted or quiet.
pub(crate) fn wake_all<B: Board>(board: &B) {
    if let Some(events) = board.events() {
        events.notify_all();
    }
}
