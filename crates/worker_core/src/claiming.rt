//! Claims of tasks.

ghost use Rattle.std.specs.Prelude.{◌≡◌, [], IfNone, IfSome};
ghost use Rattle.dep_iter.specs.Tasks as tasks;
ghost use Rattle.dep_iter.specs.Tasks.{IsTask};
ghost use Rattle.work_board.specs.Claims.{AddsClaim, MayStart};
ghost use Rattle.work_board.specs.Records.{IsStill};
ghost use Rattle.worker_core.specs.Claiming.{SearchAnswers};

use crate::post::Post;
use crate::scans::Scans;
use crossbeam_utils::Backoff;
use dep_iter::{TaskAt, fill_locals, find_locals};
use dep_shard::Arrivals;
use ptg_base::{MOST_LOCALS, TaskId};
use range_space::Numbers;
use std::sync::Wait;
use std::thread::Threads;
use work_board::{Board, Claim, Scan};

// A claimed task with its locals, the number of its shard, and the tiles that came to it. A worker has one, which each
// search fills, so that nothing large is moved from call to call.
#[derive(Drop)]
pub(crate) struct Found {
    pub(crate) task: TaskId,
    pub(crate) locals: Numbers<MOST_LOCALS>,
    pub(crate) shard: u32,
    pub(crate) arrivals: Arrivals,
}

// What one search for a task found.
#[derive(Clone, Copy, Debug, PartialEq, Eq)]
pub(crate) enum Search {
    // A task, which is claimed: the place for it is filled.
    Task,
    // All is quiet.
    Quiet,
    // No task yet.
    Nothing,
}

impl Found {
    // A place for a claimed task, before the first search.
    pub(crate) fn new() -> Found {
        Found {
            task: TaskId::new(0, &[]),
            locals: Numbers::new(),
            shard: 0,
            arrivals: Arrivals::new(),
        }
    }
}

// Claims a task of this shard, and waits for the shard's turn as long as that takes. None if the task is gone.
fn claim<R: Threads + Wait + Sync, B: Board, G>(
    post: &Post<R, B, G>,
    pass: &mut B::Pass,
    shard: u32,
    t: &TaskId,
) -> Option<Arrivals>
    requires pass { B.is_pass post.now.board.now pass.old }
    requires task { IsTask (B.plan post.now.board.now) t.now }
    requires shard { shard ≡ B.placement post.now.board.now t.now }
    requires idle { (B.shown pass.old).running ≡ [] }
    ensures pass { B.is_pass post.now.board.now pass.new }
    ensures gone { IfNone result (IsStill (B.shown pass.old) (B.shown pass.new)) }
    ensures start { IfSome result (λ tiles.
        MayStart (B.plan post.now.board.now) (B.job_data post.now.board.now) t.now tiles (B.shown pass.old)) }
    ensures added { IfSome result (λ tiles. AddsClaim t.now tiles (B.shown pass.old) (B.shown pass.new)) }
{
    let backoff = Backoff::new();
    for _ in post.rt.forever() {
        match post.board.try_claim(pass, shard, t) {
            Claim::Got(arrivals) => return Some(arrivals),
            Claim::Gone => return None,
            Claim::Busy => backoff.snooze(),
        }
    }
    unreachable!()
}

// Claims the task of an id, unless it is no task of the job or is gone.
pub(crate) fn claim_id<R: Threads + Wait + Sync, B: Board, G>(
    post: &Post<R, B, G>,
    pass: &mut B::Pass,
    id: TaskId,
    found: &mut Found,
) -> Search
    requires pass { B.is_pass post.now.board.now pass.old }
    requires idle { (B.shown pass.old).running ≡ [] }
    ensures pass { B.is_pass post.now.board.now pass.new }
    ensures looked { SearchAnswers (B.plan post.now.board.now) (B.job_data post.now.board.now)
        (B.placement post.now.board.now) result found.new (B.shown pass.old) (B.shown pass.new) }
{
    let plan = post.board.matched().plan();
    if !find_locals(plan, &id, &mut found.locals) {
        return Search::Nothing;
    }
    let shard = post.board.shard_of(&TaskAt {
        plan,
        task: &id,
        locals: found.locals.as_slice(),
    });
    let Some(arrivals) = claim(post, pass, shard, &id) else {
        return Search::Nothing;
    };
    found.task = id;
    found.shard = shard;
    found.arrivals = arrivals;
    Search::Task
}

// Claims the best ready task of the next shard, if one is ready and the shard's turn is free. A shard stays the next
// one while its scans find tasks.
pub(crate) fn scan<R: Threads + Wait + Sync, B: Board, G>(
    post: &Post<R, B, G>,
    pass: &mut B::Pass,
    scans: &mut Scans,
    found: &mut Found,
) -> Search
    requires pass { B.is_pass post.now.board.now pass.old }
    requires idle { (B.shown pass.old).running ≡ [] }
    ensures pass { B.is_pass post.now.board.now pass.new }
    ensures looked { SearchAnswers (B.plan post.now.board.now) (B.job_data post.now.board.now)
        (B.placement post.now.board.now) result found.new (B.shown pass.old) (B.shown pass.new) }
{
    let shards = post.board.shards();
    if shards == 0 {
        return Search::Nothing;
    }
    if scans.next >= shards {
        scans.next = 0;
    }
    match post.board.try_scan(pass, scans.next) {
        Scan::Got(task, arrivals) => {
            scans.missed = 0;
            fill(post, found, scans.next, task, arrivals);
            Search::Task
        }
        Scan::Empty | Scan::Busy => {
            scans.next += 1;
            scans.missed = scans.missed.saturating_add(1);
            Search::Nothing
        }
    }
}

// Claims the best ready task of the first shard that has one and whose turn is free. `calm` becomes false if another
// pass held the turn of a shard that was tried.
pub(crate) fn scan_all<R: Threads + Wait + Sync, B: Board, G>(
    post: &Post<R, B, G>,
    pass: &mut B::Pass,
    calm: &mut bool,
    found: &mut Found,
) -> Search
    requires pass { B.is_pass post.now.board.now pass.old }
    requires idle { (B.shown pass.old).running ≡ [] }
    ensures pass { B.is_pass post.now.board.now pass.new }
    ensures looked { SearchAnswers (B.plan post.now.board.now) (B.job_data post.now.board.now)
        (B.placement post.now.board.now) result found.new (B.shown pass.old) (B.shown pass.new) }
{
    let shards = post.board.shards();
    for shard in 0..shards {
        match post.board.try_scan(pass, shard) {
            Scan::Got(task, arrivals) => {
                fill(post, found, shard, task, arrivals);
                return Search::Task;
            }
            Scan::Empty => {}
            Scan::Busy => *calm = false,
        }
    }
    Search::Nothing
}

// Fills the place for a claimed task.
fn fill<R: Threads + Wait + Sync, B: Board, G>(
    post: &Post<R, B, G>,
    found: &mut Found,
    shard: u32,
    task: TaskId,
    arrivals: Arrivals,
)
    requires { IsTask (B.plan post.now.board.now) task }
    ensures task { found.new.task ≡ task }
    ensures locals { found.new.locals ≡ tasks.locals_of (B.plan post.now.board.now) task }
    ensures shard { found.new.shard ≡ shard }
    ensures arrivals { found.new.arrivals ≡ arrivals }
{
    fill_locals(post.board.matched().plan(), &task, &mut found.locals);
    found.task = task;
    found.shard = shard;
    found.arrivals = arrivals;
}
