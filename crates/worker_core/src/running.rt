//! The run of one claimed task, from the gate to its end.

ghost use Rattle.std.specs.Prelude.{◌≡◌, false, Err, Some, OnOk, OnErr, IfErr};
ghost use Rattle.flow_meaning.specs.Backward.{ended, MayRun};
ghost use Rattle.ready_deques.specs.Hands.{SameWorker};
ghost use Rattle.task_run.specs.Bench.{HoldsOutputs, IsBenchOf};
ghost use Rattle.work_board.specs.Sends.{MayTrap};
ghost use Rattle.worker_core.specs.Sending.{HasSentSome, RunsUnsent};
ghost use Rattle.worker_core.specs.Starting.{HasStarted};
ghost use Rattle.worker_core.specs.Working.{HasRun};

use crate::claiming::Found;
use crate::ending::{end_one, trap_one};
use crate::gate::Gate;
use crate::outbox::Outbox;
use crate::post::Post;
use crate::sending::{SendContext, send_all};
use dep_iter::TaskAt;
use dep_shard::Arrivals;
use ptg_base::OutOfMemory;
use ready_deques::Hands;
use std::mem;
use std::sync::Wait;
use std::thread::Threads;
use task_run::{Bench, Start};
use term_core::Trap;
use work_board::Board;

// A task with its locals and the number of its shard.
#[derive(Drop)]
struct Placed<'a> {
    at: TaskAt<'a>,
    shard: u32,
}

// Runs the body of a task that the gate has let through, on the bench.
fn run_body<R: Threads + Wait + Sync, B: Board, G: Gate>(
    post: &Post<R, B, G>,
    bench: &mut Bench,
    at: &TaskAt,
    arrivals: Arrivals,
) -> Result<(), Trap>
    requires gate { G.lets post.now.gate.now post.now.worker at.now.task.now }
    requires bench { IsBenchOf (B.plan post.now.board.now) bench.old }
    requires plan { at.now.plan.now ≡ B.plan post.now.board.now }
    requires inputs { MayRun (B.plan post.now.board.now) (B.job_data post.now.board.now) at.now.task.now arrivals }
    ensures elems { bench.new.elems ≡ bench.old.elems }
    ensures ok { OnOk result
        (HoldsOutputs (B.plan post.now.board.now) (B.job_data post.now.board.now) at.now.task.now bench.new) }
    ensures trap { IfErr result (λ cause.
        ended (B.plan post.now.board.now) (B.job_data post.now.board.now) at.now.task.now ≡ Some (Err cause)) }
{
    post.board.matched().plan_is_consistent();
    let start = Start {
        at,
        given: post.board.given(),
    };
    bench.run(&start, arrivals)
}

// Sends the items of the task on the bench, clears the bench, and ends the task.
fn send_and_end<R: Threads + Wait + Sync, B: Board, G>(
    post: &Post<R, B, G>,
    pass: &mut B::Pass,
    hands: &mut Hands,
    bench: &mut Bench,
    placed: &Placed,
    outbox: &mut Outbox,
) -> Result<(), OutOfMemory>
    requires pass { B.is_pass post.now.board.now pass.old }
    requires plan { placed.now.at.plan.now ≡ B.plan post.now.board.now }
    requires shard { placed.now.shard ≡ B.placement post.now.board.now placed.now.at.task.now }
    requires tiles { HoldsOutputs (B.plan post.now.board.now) (B.job_data post.now.board.now) placed.now.at.task.now
        bench.old }
    requires unsent { RunsUnsent (B.plan post.now.board.now) placed.now.at.task.now (B.shown pass.old) }
    ensures pass { B.is_pass post.now.board.now pass.new }
    ensures hands { SameWorker hands.old hands.new }
    ensures elems { bench.new.elems ≡ bench.old.elems }
    ensures some { HasSentSome (B.shown pass.old) (B.shown pass.new) }
    ensures run { OnOk result
        (HasRun (B.plan post.now.board.now) (B.job_data post.now.board.now) placed.now.at.task.now (B.shown pass.old)
        (B.shown pass.new)) }
    ensures err { OnErr result (B.preloaded post.now.board.now ≡ false) }
{
    let context = SendContext {
        rt: post.rt,
        board: post.board,
        bench: &*bench,
        at: &placed.at,
        shard: placed.shard,
    };
    send_all(&context, pass, hands, outbox)?;
    end_one(post, pass, placed.shard, placed.at.task, bench.clear());
    Ok(())
}

// Notes the trap of the task.
fn note_trap<R: Threads + Wait + Sync, B: Board, G>(
    post: &Post<R, B, G>,
    pass: &mut B::Pass,
    placed: &Placed,
    cause: Trap,
) -> Result<(), OutOfMemory>
    requires pass { B.is_pass post.now.board.now pass.old }
    requires task { MayTrap (B.plan post.now.board.now) (B.job_data post.now.board.now) placed.now.at.task.now cause
        (B.shown pass.old) }
    requires shard { placed.now.shard ≡ B.placement post.now.board.now placed.now.at.task.now }
    ensures pass { B.is_pass post.now.board.now pass.new }
    ensures some { HasSentSome (B.shown pass.old) (B.shown pass.new) }
    ensures run { OnOk result
        (HasRun (B.plan post.now.board.now) (B.job_data post.now.board.now) placed.now.at.task.now (B.shown pass.old)
        (B.shown pass.new)) }
    ensures err { OnErr result (B.preloaded post.now.board.now ≡ false) }
{
    trap_one(post, pass, placed.shard, placed.at.task, cause)
}

// Passes the gate and runs a claimed task: its body, then its sends and its end, or its trap. In any case the bench is
// cleared. The tiles that came to the task go to the bench.
pub(crate) fn run_found<R: Threads + Wait + Sync, B: Board, G: Gate>(
    post: &Post<R, B, G>,
    pass: &mut B::Pass,
    hands: &mut Hands,
    bench: &mut Bench,
    found: &mut Found,
    outbox: &mut Outbox,
) -> Result<(), OutOfMemory>
    requires pass { B.is_pass post.now.board.now pass.old }
    requires bench { IsBenchOf (B.plan post.now.board.now) bench.old }
    requires started { HasStarted (B.plan post.now.board.now) (B.job_data post.now.board.now)
        (B.placement post.now.board.now) found.old (B.shown pass.old) }
    ensures pass { B.is_pass post.now.board.now pass.new }
    ensures hands { SameWorker hands.old hands.new }
    ensures bench { IsBenchOf (B.plan post.now.board.now) bench.new }
    ensures gate { G.lets post.now.gate.now post.now.worker found.old.task }
    ensures some { HasSentSome (B.shown pass.old) (B.shown pass.new) }
    ensures run { OnOk result
        (HasRun (B.plan post.now.board.now) (B.job_data post.now.board.now) found.old.task (B.shown pass.old)
        (B.shown pass.new)) }
    ensures err { OnErr result (B.preloaded post.now.board.now ≡ false) }
{
    let arrivals = mem::replace(&mut found.arrivals, Arrivals::new());
    let placed = Placed {
        at: TaskAt {
            plan: post.board.matched().plan(),
            task: &found.task,
            locals: found.locals.as_slice(),
        },
        shard: found.shard,
    };
    post.board.matched().plan_is_consistent();
    post.gate.before_body(post.rt, post.worker, &found.task);
    let answer = match run_body(post, bench, &placed.at, arrivals) {
        Ok(()) => send_and_end(post, pass, hands, bench, &placed, outbox),
        Err(cause) => note_trap(post, pass, &placed, cause),
    };
    let _spent = bench.clear();
    answer
}
