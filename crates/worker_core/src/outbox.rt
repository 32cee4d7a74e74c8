//! What a worker keeps for its sends.

use crate::waiting::Waiting;
use arrayvec::ArrayVec;
use ptg_base::MOST_LOCALS;
use range_space::Numbers;

// Room for the items that wait, and for the locals of one target. A worker makes it once, so that no send makes room.
#[derive(Drop)]
pub(crate) struct Outbox {
    pub(crate) waiting: Waiting,
    pub(crate) locals: Numbers<MOST_LOCALS>,
}

impl Outbox {
    // An outbox in which nothing waits.
    pub(crate) fn new() -> Outbox {
        Outbox {
            waiting: ArrayVec::new(),
            locals: Numbers::new(),
        }
    }
}
