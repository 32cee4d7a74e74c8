//! Sends of the items of a task.

ghost use Rattle.std.specs.Prelude.{◌≡◌, false, Ok, Some, IfOk, OnOk, OnErr};
ghost use Rattle.std.specs.Coded.{codes};
ghost use Rattle.std.specs.Option.{option_copied};
ghost use Rattle.std.proofs.Props.{props};
ghost use Rattle.term_core.specs.contracts.expr.Expr.{the_row as expr};
ghost use Rattle.term_core.specs.contracts.body.Block.{the_row as block};
ghost use Rattle.ready_deques.specs.Hands.{SameWorker};
ghost use Rattle.dep_iter.specs.Items.{item_flow};
ghost use Rattle.flow_meaning.specs.Ending.{output_tile};
ghost use Rattle.flow_meaning.specs.Machine.{sender};
ghost use Rattle.flow_meaning.specs.Sound.{with_its_tile};
ghost use Rattle.task_run.specs.Bench.{HoldsOutputs};
ghost use Rattle.work_board.specs.Records.{IsStill};
ghost use Rattle.work_board.specs.Sends.{IsNext, MayEnd, shard_of_item};
ghost use Rattle.worker_core.specs.Sending.{GoesToTask, HasSentSome, RunsUnsent, SentOrStill};

use crate::outbox::Outbox;
use crate::sleeping::wake_one;
use crate::waiting::{WaitingItem, make_room, send_waiting};
use dep_iter::TaskAt;
use ptg_base::{Item, MOST_LOCALS, OutOfMemory, Tile};
use range_space::Numbers;
use ready_deques::Hands;
use std::sync::Wait;
use std::thread::Threads;
use task_run::Bench;
use work_board::{Board, Sent};

// What the sends of a task share: the runtime to wait with, the board, the bench with the task's outputs, the task,
// which is one of the board's job, and the number of its shard.
#[derive(Drop)]
pub(crate) struct SendContext<'a, R, B: Board> {
    pub(crate) rt: &'a R,
    pub(crate) board: &'a B,
    pub(crate) bench: &'a Bench,
    pub(crate) at: &'a TaskAt<'a>,
    pub(crate) shard: u32,
    ghost of_job: { at.now.plan.now ≡ B.plan board.now } by { Prim.hlevel (props, codes, expr.coded, block.coded) },
    ghost of_task: { shard ≡ B.placement board.now at.now.task.now },
    ghost outputs: { HoldsOutputs (B.plan board.now) (B.job_data board.now) at.now.task.now bench.now },
}

// The number of the shard that handles an item of the task: for an edge that of its target, for a write-back that of
// the task. The target's locals replace what `locals` holds, unless they are borrowed from the target.
fn shard_for<R, B: Board>(
    context: &SendContext<R, B>,
    item: &Item,
    locals: &mut Numbers<MOST_LOCALS>,
) -> u32
    requires sender { sender item.now ≡ context.now.at.now.task.now }
    requires target { GoesToTask (B.plan context.now.board.now) item.now }
    ensures { result ≡ shard_of_item (B.placement context.now.board.now) item.now }
{
    match item {
        Item::Edge(edge) => {
            let target = TaskAt::of(context.at.plan, &edge.to, locals);
            context.board.shard_of(&target)
        }
        Item::Write(_) => context.shard,
    }
}

// Pushes the target of an edge that fired. An id that does not fit is dropped. If the worker kept an id already, it
// wakes a sleeping worker, which may find one of the two.
fn push_target<B: Board>(board: &B, hands: &mut Hands, item: &Item)
    ensures { SameWorker hands.old hands.new }
{
    if let Item::Edge(edge) = item {
        let second = hands.keeps_id();
        let _dropped = hands.push(edge.to.copy());
        if second {
            wake_one(board);
        }
    }
}

// The tile of the flow by which an item leaves the task on the bench.
fn tile_for<'a>(bench: &'a Bench, item: &Item) -> Option<&'a Tile>
    ensures { option_copied result ≡ output_tile (Some (Ok bench.now.tiles)) (item_flow item.now) }
{
    match item {
        Item::Edge(edge) => bench.tile(edge.out_flow),
        Item::Write(write) => bench.tile(write.flow),
    }
}

// Tries once to send an item of the task on the bench, which this shard handles. Returns whether it was sent: false if
// the shard's turn is taken. A target that fires becomes the worker's newest id; a scan finds one that does not fit.
pub(crate) fn try_item<R, B: Board>(
    context: &SendContext<R, B>,
    pass: &mut B::Pass,
    hands: &mut Hands,
    shard: u32,
    item: &Item,
) -> Result<bool, OutOfMemory>
    requires pass { B.is_pass context.now.board.now pass.old }
    requires sender { sender item.now ≡ context.now.at.now.task.now }
    requires next { IsNext (B.plan context.now.board.now) (B.job_data context.now.board.now) item.now
        (with_its_tile (B.plan context.now.board.now) (B.job_data context.now.board.now) item.now).tile
        (B.shown pass.old) }
    requires shard { shard ≡ shard_of_item (B.placement context.now.board.now) item.now }
    ensures pass { B.is_pass context.now.board.now pass.new }
    ensures hands { SameWorker hands.old hands.new }
    ensures sent { IfOk result (λ went.
        SentOrStill (B.plan context.now.board.now) (B.job_data context.now.board.now) went item.now (B.shown pass.old)
        (B.shown pass.new)) }
    ensures still { OnErr result (IsStill (B.shown pass.old) (B.shown pass.new)) }
    ensures err { OnErr result (B.preloaded context.now.board.now ≡ false) }
{
    let tile = tile_for(context.bench, item);
    match context.board.try_send(pass, shard, item, tile)? {
        Sent::Fired => {
            push_target(context.board, hands, item);
            Ok(true)
        }
        Sent::Waits | Sent::Kept => Ok(true),
        Sent::Busy => Ok(false),
    }
}

// Sends all items of a task, each once. An item whose shard's turn is taken waits while others are tried.
pub(crate) fn send_all<R: Threads + Wait + Sync, B: Board>(
    context: &SendContext<R, B>,
    pass: &mut B::Pass,
    hands: &mut Hands,
    outbox: &mut Outbox,
) -> Result<(), OutOfMemory>
    requires pass { B.is_pass context.now.board.now pass.old }
    requires unsent { RunsUnsent (B.plan context.now.board.now) context.now.at.now.task.now (B.shown pass.old) }
    ensures pass { B.is_pass context.now.board.now pass.new }
    ensures hands { SameWorker hands.old hands.new }
    ensures sent { OnOk result
        (MayEnd (B.plan context.now.board.now) (B.job_data context.now.board.now) context.now.at.now.task.now
        (B.shown pass.new)) }
    ensures some { HasSentSome (B.shown pass.old) (B.shown pass.new) }
    ensures err { OnErr result (B.preloaded context.now.board.now ≡ false) }
{
    // After a send that was out of memory, items of another task may be left.
    outbox.waiting.clear();
    for item in context.at.items() {
        let shard = shard_for(context, &item, &mut outbox.locals);
        if try_item(context, pass, hands, shard, &item)? {
            continue;
        }
        make_room(context, pass, hands, &mut outbox.waiting)?;
        outbox.waiting.push(WaitingItem { item, shard });
    }
    send_waiting(context, pass, hands, &mut outbox.waiting)?;
    Ok(())
}
