//! A worker's whole work.

ghost use Rattle.std.specs.Prelude.{◌≡◌, [], true, false, IsOk, IfOk, OnErr, OnOk};
ghost use Rattle.ready_deques.specs.Hands.{SameWorker};
ghost use Rattle.task_run.specs.Bench.{IsBenchOf};
ghost use Rattle.work_board.specs.Looks.{KnowsHalted};
ghost use Rattle.work_board.specs.Records.{IsLaterRecord, IsStill};
ghost use Rattle.worker_core.specs.Claiming.{GotLoggedOrQuiet};
ghost use Rattle.worker_core.specs.Working.{HasLogged, HasWorked};

use crate::claiming::Found;
use crate::gate::Gate;
use crate::log::{Log, NoLog};
use crate::next::next_task;
use crate::outbox::Outbox;
use crate::post::Post;
use crate::running::run_found;
use crate::scans::Scans;
use ptg_base::{OutOfMemory, TaskId};
use ready_deques::Hands;
use std::sync::Wait;
use std::thread::Threads;
use task_run::Bench;
use work_board::Board;

/// What a worker did.
#[derive(Clone, Copy, Debug, PartialEq, Eq)]
pub struct Worked {
    /// The number of tasks that it claimed and ran.
    pub ran: u64,
}

// Claims the next task, fills the place for it, and notes it in the log. False if all is quiet.
fn claim_next<R: Threads + Wait + Sync, B: Board, G, L: Log>(
    post: &Post<R, B, G>,
    pass: &mut B::Pass,
    hands: &mut Hands,
    log: &mut L,
    scans: &mut Scans,
    found: &mut Found,
) -> Result<bool, OutOfMemory>
    requires pass { B.is_pass post.now.board.now pass.old }
    requires idle { (B.shown pass.old).running ≡ [] }
    requires log { L.keeps ≡ true → B.preloaded post.now.board.now ≡ false }
    ensures pass { B.is_pass post.now.board.now pass.new }
    ensures hands { SameWorker hands.old hands.new }
    ensures found { IfOk result (λ got.
        GotLoggedOrQuiet (B.plan post.now.board.now) (B.job_data post.now.board.now) (B.placement post.now.board.now)
        L.keeps got found.new (B.shown pass.old) (B.shown pass.new) (L.entries log.old) (L.entries log.new)) }
    ensures still { OnErr result
        (IsStill (B.shown pass.old) (B.shown pass.new) × (L.entries log.new ≡ L.entries log.old)) }
    ensures err { OnErr result (B.preloaded post.now.board.now ≡ false) }
{
    log.make_room()?;
    let got = next_task(post, pass, hands, scans, found)?;
    if got {
        log.note(post.board.stamp(pass), &found.task);
        return Ok(true);
    }
    Ok(false)
}

// Claims and runs tasks until all is quiet.
fn run_all<R: Threads + Wait + Sync, B: Board, G: Gate, L: Log>(
    post: &Post<R, B, G>,
    pass: &mut B::Pass,
    hands: &mut Hands,
    bench: &mut Bench,
    log: &mut L,
) -> Result<Worked, OutOfMemory>
    requires pass { B.is_pass post.now.board.now pass.old }
    requires idle { (B.shown pass.old).running ≡ [] }
    requires bench { IsBenchOf (B.plan post.now.board.now) bench.old }
    requires log { L.keeps ≡ true → B.preloaded post.now.board.now ≡ false }
    ensures pass { B.is_pass post.now.board.now pass.new }
    ensures hands { SameWorker hands.old hands.new }
    ensures bench { IsBenchOf (B.plan post.now.board.now) bench.new }
    ensures worked { IfOk result (λ worked.
        HasWorked (B.plan post.now.board.now) (B.job_data post.now.board.now) (G.lets post.now.gate.now post.now.worker)
        worked.ran (B.shown pass.old) (B.shown pass.new)) }
    ensures quiet { OnOk result ((B.shown pass.new).quiet ≡ true) }
    ensures logged { HasLogged L.keeps (B.shown pass.old) (B.shown pass.new) (L.entries log.old) (L.entries log.new) }
    ensures err { OnErr result (B.preloaded post.now.board.now ≡ false) }
{
    let mut scans = Scans::new(post.worker);
    let mut found = Found::new();
    let mut outbox = Outbox::new();
    for ran in 0..u64::MAX {
        let got = claim_next(post, pass, hands, log, &mut scans, &mut found)?;
        if got {
            run_found(post, pass, hands, bench, &mut found, &mut outbox)?;
        } else {
            return Ok(Worked { ran });
        }
    }
    // No job has that many tasks.
    for _ in post.rt.forever() {}
    unreachable!()
}

// Claims and runs tasks until all is quiet. If it is refused memory, it halts the board.
fn work_with<R: Threads + Wait + Sync, B: Board, G: Gate, L: Log>(
    post: &Post<R, B, G>,
    pass: &mut B::Pass,
    hands: &mut Hands,
    bench: &mut Bench,
    log: &mut L,
) -> Result<Worked, OutOfMemory>
    requires pass { B.is_pass post.now.board.now pass.old }
    requires idle { (B.shown pass.old).running ≡ [] }
    requires bench { IsBenchOf (B.plan post.now.board.now) bench.old }
    requires log { L.keeps ≡ true → B.preloaded post.now.board.now ≡ false }
    ensures pass { B.is_pass post.now.board.now pass.new }
    ensures hands { SameWorker hands.old hands.new }
    ensures bench { IsBenchOf (B.plan post.now.board.now) bench.new }
    ensures worked { IfOk result (λ worked.
        HasWorked (B.plan post.now.board.now) (B.job_data post.now.board.now) (G.lets post.now.gate.now post.now.worker)
        worked.ran (B.shown pass.old) (B.shown pass.new)) }
    ensures quiet { OnOk result ((B.shown pass.new).quiet ≡ true) }
    ensures logged { HasLogged L.keeps (B.shown pass.old) (B.shown pass.new) (L.entries log.old) (L.entries log.new) }
    ensures halted { OnErr result (KnowsHalted (B.shown pass.new)) }
    ensures err { OnErr result (B.preloaded post.now.board.now ≡ false) }
{
    match run_all(post, pass, hands, bench, log) {
        Ok(worked) => Ok(worked),
        Err(refused) => {
            post.board.halt(pass);
            Err(refused)
        }
    }
}

/// Works at a board until all is quiet. It takes the next ready task (its own, another worker's or one of a shard),
/// passes the gate, runs the task, and sends its items or notes its trap. Ok only if the pass has seen quiet and runs
/// nothing. If it is out of memory, the board is halted; at a preloaded board that does not happen. It may wait.
pub fn work<R: Threads + Wait + Sync, B: Board, G: Gate>(
    rt: &R,
    worker: u32,
    board: &B,
    pass: &mut B::Pass,
    hands: &mut Hands,
    gate: &G,
    bench: &mut Bench,
) -> Result<Worked, OutOfMemory>
    requires pass { B.is_pass board.now pass.old }
    requires idle { (B.shown pass.old).running ≡ [] }
    requires bench { IsBenchOf (B.plan board.now) bench.old }
    ensures pass { B.is_pass board.now pass.new }
    ensures hands { SameWorker hands.old hands.new }
    ensures bench { IsBenchOf (B.plan board.now) bench.new }
    ensures later { IsLaterRecord (B.shown pass.old) (B.shown pass.new) }
    ensures worked { IfOk result (λ worked.
        HasWorked (B.plan board.now) (B.job_data board.now) (G.lets gate.now worker) worked.ran (B.shown pass.old)
        (B.shown pass.new)) }
    ensures quiet { OnOk result ((B.shown pass.new).quiet ≡ true) }
    ensures halted { OnErr result (KnowsHalted (B.shown pass.new)) }
    ensures preloaded { B.preloaded board.now ≡ true → IsOk result }
{
    let post = Post {
        rt,
        board,
        gate,
        worker,
    };
    work_with(&post, pass, hands, bench, &mut NoLog)
}

/// As `work`, at a board that is not preloaded, with a log. It makes room in the log before each claim. Whatever it
/// returns, the log has gained exactly the claims of the pass, each with its stamp.
pub fn work_logged<R: Threads + Wait + Sync, B: Board, G: Gate>(
    rt: &R,
    worker: u32,
    board: &B,
    pass: &mut B::Pass,
    hands: &mut Hands,
    gate: &G,
    bench: &mut Bench,
    log: &mut Vec<(u64, TaskId)>,
) -> Result<Worked, OutOfMemory>
    requires pass { B.is_pass board.now pass.old }
    requires idle { (B.shown pass.old).running ≡ [] }
    requires bench { IsBenchOf (B.plan board.now) bench.old }
    requires not_preloaded { B.preloaded board.now ≡ false }
    ensures pass { B.is_pass board.now pass.new }
    ensures hands { SameWorker hands.old hands.new }
    ensures bench { IsBenchOf (B.plan board.now) bench.new }
    ensures later { IsLaterRecord (B.shown pass.old) (B.shown pass.new) }
    ensures worked { IfOk result (λ worked.
        HasWorked (B.plan board.now) (B.job_data board.now) (G.lets gate.now worker) worked.ran (B.shown pass.old)
        (B.shown pass.new)) }
    ensures quiet { OnOk result ((B.shown pass.new).quiet ≡ true) }
    ensures logged { HasLogged true (B.shown pass.old) (B.shown pass.new) log.old.items log.new.items }
    ensures halted { OnErr result (KnowsHalted (B.shown pass.new)) }
{
    let post = Post {
        rt,
        board,
        gate,
        worker,
    };
    work_with(&post, pass, hands, bench, log)
}
