//! Items that wait for the turn of their shard while the worker sends others.

ghost use Rattle.std.specs.Prelude.{◌≡◌, ◌+◌, ◌<◌, [], false, IfOk, OnOk, OnErr};
ghost use Rattle.arrayvec.specs.ArrayVec.{array_vec_len};
ghost use Rattle.list_lemmas.specs.Counting.{as_number};
ghost use Rattle.ready_deques.specs.Hands.{SameWorker};
ghost use Rattle.worker_core.specs.Sending.{HasSentFrom, MaySendAll};
ghost use Rattle.worker_core.specs.Waiting.{AreOfTheirShards, items_of, most_waiting};

use crate::sending::{SendContext, try_item};
use arrayvec::ArrayVec;
use crossbeam_utils::Backoff;
use ptg_base::{Edge, Item, OutOfMemory, TaskId};
use ready_deques::Hands;
use std::sync::Wait;
use std::thread::Threads;
use work_board::Board;

// The largest number of items that wait. A turn is held for less time than a few sends need, so more room would hardly
// help, and each round tries all items that wait.
const MOST_WAITING: usize = 4;

// An item that waits, with the number of the shard that handles it.
#[derive(Drop)]
pub(crate) struct WaitingItem {
    pub(crate) item: Item,
    pub(crate) shard: u32,
}

// The items that wait, the oldest first.
pub(crate) type Waiting = ArrayVec<WaitingItem, MOST_WAITING>;

impl Default for WaitingItem {
    // An item of no meaning, for unused places.
    fn default() -> WaitingItem {
        WaitingItem {
            item: Item::Edge(Edge {
                from: TaskId::new(0, &[]),
                out_flow: 0,
                to: TaskId::new(0, &[]),
                in_flow: 0,
            }),
            shard: 0,
        }
    }
}

// Tries once to send the item that waits at this index. Returns whether it was sent.
fn try_waiting<R: Threads + Wait + Sync, B: Board>(
    context: &SendContext<R, B>,
    pass: &mut B::Pass,
    hands: &mut Hands,
    waiting: &mut Waiting,
    index: usize,
) -> Result<bool, OutOfMemory>
    requires pass { B.is_pass context.now.board.now pass.old }
    requires may { MaySendAll (B.plan context.now.board.now) (B.job_data context.now.board.now)
        context.now.at.now.task.now (items_of waiting.old.items) (B.shown pass.old) }
    requires shards { AreOfTheirShards (B.placement context.now.board.now) waiting.old.items }
    requires index { index < array_vec_len waiting.old }
    ensures pass { B.is_pass context.now.board.now pass.new }
    ensures hands { SameWorker hands.old hands.new }
    ensures shards { AreOfTheirShards (B.placement context.now.board.now) waiting.new.items }
    ensures sent { HasSentFrom (B.plan context.now.board.now) (B.job_data context.now.board.now)
        (items_of waiting.old.items) (items_of waiting.new.items) (B.shown pass.old) (B.shown pass.new) }
    ensures len { IfOk result (λ went. array_vec_len waiting.new + as_number went ≡ array_vec_len waiting.old) }
    ensures err { OnErr result (B.preloaded context.now.board.now ≡ false) }
{
    let next = &waiting[index];
    if try_item(context, pass, hands, next.shard, &next.item)? {
        let _sent = waiting.remove(index);
        return Ok(true);
    }
    Ok(false)
}

// Makes room for one more item that waits: if there is none, it sends the oldest one, and waits for its turn as long as
// that takes.
#[tactic(auto, using(crate::proofs::ItemLists::not_begun, crate::proofs::ItemLists::sent_then))]
pub(crate) fn make_room<R: Threads + Wait + Sync, B: Board>(
    context: &SendContext<R, B>,
    pass: &mut B::Pass,
    hands: &mut Hands,
    waiting: &mut Waiting,
) -> Result<(), OutOfMemory>
    requires pass { B.is_pass context.now.board.now pass.old }
    requires may { MaySendAll (B.plan context.now.board.now) (B.job_data context.now.board.now)
        context.now.at.now.task.now (items_of waiting.old.items) (B.shown pass.old) }
    requires shards { AreOfTheirShards (B.placement context.now.board.now) waiting.old.items }
    ensures pass { B.is_pass context.now.board.now pass.new }
    ensures hands { SameWorker hands.old hands.new }
    ensures shards { AreOfTheirShards (B.placement context.now.board.now) waiting.new.items }
    ensures sent { HasSentFrom (B.plan context.now.board.now) (B.job_data context.now.board.now)
        (items_of waiting.old.items) (items_of waiting.new.items) (B.shown pass.old) (B.shown pass.new) }
    ensures room { OnOk result (array_vec_len waiting.new < most_waiting) }
    ensures err { OnErr result (B.preloaded context.now.board.now ≡ false) }
{
    if !waiting.is_full() {
        return Ok(());
    }
    let backoff = Backoff::new();
    for _ in context.rt.forever() {
        if try_waiting(context, pass, hands, waiting, 0)? {
            return Ok(());
        }
        backoff.snooze();
    }
    unreachable!()
}

// Tries once to send each item that waits, the oldest first.
#[tactic(auto, using(crate::proofs::ItemLists::not_begun, crate::proofs::ItemLists::sent_then))]
fn try_each<R: Threads + Wait + Sync, B: Board>(
    context: &SendContext<R, B>,
    pass: &mut B::Pass,
    hands: &mut Hands,
    waiting: &mut Waiting,
) -> Result<(), OutOfMemory>
    requires pass { B.is_pass context.now.board.now pass.old }
    requires may { MaySendAll (B.plan context.now.board.now) (B.job_data context.now.board.now)
        context.now.at.now.task.now (items_of waiting.old.items) (B.shown pass.old) }
    requires shards { AreOfTheirShards (B.placement context.now.board.now) waiting.old.items }
    ensures pass { B.is_pass context.now.board.now pass.new }
    ensures hands { SameWorker hands.old hands.new }
    ensures shards { AreOfTheirShards (B.placement context.now.board.now) waiting.new.items }
    ensures sent { HasSentFrom (B.plan context.now.board.now) (B.job_data context.now.board.now)
        (items_of waiting.old.items) (items_of waiting.new.items) (B.shown pass.old) (B.shown pass.new) }
    ensures err { OnErr result (B.preloaded context.now.board.now ≡ false) }
{
    let mut index = 0;
    while index < waiting.len() {
        if !try_waiting(context, pass, hands, waiting, index)? {
            index += 1;
        }
    }
    Ok(())
}

// Sends all items that wait, round by round. After a round in which none was sent, it pauses.
#[tactic(auto, using(crate::proofs::ItemLists::not_begun, crate::proofs::ItemLists::sent_then))]
pub(crate) fn send_waiting<R: Threads + Wait + Sync, B: Board>(
    context: &SendContext<R, B>,
    pass: &mut B::Pass,
    hands: &mut Hands,
    waiting: &mut Waiting,
) -> Result<(), OutOfMemory>
    requires pass { B.is_pass context.now.board.now pass.old }
    requires may { MaySendAll (B.plan context.now.board.now) (B.job_data context.now.board.now)
        context.now.at.now.task.now (items_of waiting.old.items) (B.shown pass.old) }
    requires shards { AreOfTheirShards (B.placement context.now.board.now) waiting.old.items }
    ensures pass { B.is_pass context.now.board.now pass.new }
    ensures hands { SameWorker hands.old hands.new }
    ensures sent { HasSentFrom (B.plan context.now.board.now) (B.job_data context.now.board.now)
        (items_of waiting.old.items) (items_of waiting.new.items) (B.shown pass.old) (B.shown pass.new) }
    ensures all { OnOk result (waiting.new.items ≡ []) }
    ensures err { OnErr result (B.preloaded context.now.board.now ≡ false) }
{
    let backoff = Backoff::new();
    for _ in context.rt.forever() {
        let before = waiting.len();
        if before == 0 {
            return Ok(());
        }
        try_each(context, pass, hands, waiting)?;
        if waiting.len() == before {
            backoff.snooze();
        }
    }
    unreachable!()
}
