//! The workers of a run, each in a thread of its own if one can be made.

ghost use Rattle.std.specs.Prelude.{◌≡◌, ◌<◌, true, false, length};
ghost use Rattle.crossbeam_utils.specs.Padded.{padded_value};
ghost use Rattle.run_pool.specs.Desks.{AreReady, HasLoggedAt, HasWorkedAt, HaveLogged, HaveWorked, IsReady};

use crate::desk::Desk;
use crossbeam_utils::CachePadded;
use std::marker::Send;
use std::sync::Wait;
use std::thread::{Threads, for_each_mut};
use work_board::Board;
use worker_core::{Gate, work, work_logged};

// Lets a worker work at its desk, and leaves its result there.
fn work_untraced<R: Threads + Wait + Sync, B: Board, G: Gate>(
    rt: &R,
    board: &B,
    desk: &mut Desk<B::Pass>,
    gate: &G,
)
    requires { IsReady (B.is_pass board.now) B.shown (B.plan board.now) desk.old }
    ensures { HasWorkedAt (B.is_pass board.now) B.shown (B.plan board.now) (B.job_data board.now) (G.lets gate.now)
        (B.preloaded board.now) desk.old desk.new }
{
    let worker = desk.hands.number();
    let answer = work(
        rt,
        worker,
        board,
        &mut desk.pass,
        &mut desk.hands,
        gate,
        &mut desk.bench,
    );
    desk.answer = Some(answer);
}

// Lets a worker work at its desk, and leaves its result there. Its log gains its claims.
fn work_traced<R: Threads + Wait + Sync, B: Board, G: Gate>(
    rt: &R,
    board: &B,
    desk: &mut Desk<B::Pass>,
    gate: &G,
)
    requires ready { IsReady (B.is_pass board.now) B.shown (B.plan board.now) desk.old }
    requires not_preloaded { B.preloaded board.now ≡ false }
    ensures worked { HasWorkedAt (B.is_pass board.now) B.shown (B.plan board.now) (B.job_data board.now) (G.lets gate.now)
        (B.preloaded board.now) desk.old desk.new }
    ensures logged { HasLoggedAt B.shown desk.old desk.new }
{
    let worker = desk.hands.number();
    let logged = work_logged(
        rt,
        worker,
        board,
        &mut desk.pass,
        &mut desk.hands,
        gate,
        &mut desk.bench,
        &mut desk.log,
    );
    desk.answer = Some(logged);
}

// Lets a worker work at its desk, with a log in a traced run.
fn work_at<R: Threads + Wait + Sync, B: Board, G: Gate>(
    rt: &R,
    board: &B,
    desk: &mut Desk<B::Pass>,
    gate: &G,
    traced: bool,
)
    requires ready { IsReady (B.is_pass board.now) B.shown (B.plan board.now) desk.old }
    requires traced { traced ≡ true → B.preloaded board.now ≡ false }
    ensures worked { HasWorkedAt (B.is_pass board.now) B.shown (B.plan board.now) (B.job_data board.now) (G.lets gate.now)
        (B.preloaded board.now) desk.old desk.new }
    ensures logged { traced ≡ true → HasLoggedAt B.shown desk.old desk.new }
{
    if traced {
        work_traced(rt, board, desk, gate)
    } else {
        work_untraced(rt, board, desk, gate)
    }
}

/// Lets a worker work at each desk until all is quiet, in as many threads as desks if that many can be made. The gate
/// lets each worker run what it claims. In a traced run, which is not preloaded, each log gains the claims of its
/// worker.
pub fn team<R: Threads + Wait + Sync, B: Board, G: Gate>(
    rt: &R,
    board: &B,
    desks: &mut Vec<CachePadded<Desk<B::Pass>>>,
    gate: &G,
    traced: bool,
)
where
    B::Pass: Send,
    requires some { 0 < length desks.old.items }
    requires ready { AreReady (B.is_pass board.now) B.shown (B.plan board.now) desks.old.items }
    requires traced { traced ≡ true → B.preloaded board.now ≡ false }
    ensures count { length desks.new.items ≡ length desks.old.items }
    ensures worked { HaveWorked (B.is_pass board.now) B.shown (B.plan board.now) (B.job_data board.now) (G.lets gate.now)
        (B.preloaded board.now) desks.old.items desks.new.items }
    ensures logged { traced ≡ true → HaveLogged B.shown desks.old.items desks.new.items }
{
    let threads = desks.len();
    for_each_mut(
        rt,
        desks.as_mut_slice(),
        threads,
        &|_at: usize, desk: &mut CachePadded<Desk<B::Pass>>|
            requires ready { IsReady (B.is_pass board.now) B.shown (B.plan board.now) (padded_value desk.old) }
            requires traced { traced ≡ true → B.preloaded board.now ≡ false }
            ensures worked { HasWorkedAt (B.is_pass board.entry.now) B.shown (B.plan board.entry.now)
                (B.job_data board.entry.now) (G.lets gate.entry.now) (B.preloaded board.entry.now)
                (padded_value desk.old) (padded_value desk.new) }
            ensures logged { traced ≡ true → HasLoggedAt B.shown (padded_value desk.old) (padded_value desk.new) }
        {
            work_at(rt, board, &mut **desk, gate, traced);
        },
    );
}
