//! What has happened in a world, as only proofs see it.

ghost use Rattle.std.specs.Prelude.{◌≡◌};
ghost use Rattle.std.specs.Borrow.{ftrue};
ghost use Rattle.rank_core.specs.World.{WorldState, after_delivery, after_run, opening_world};

use coll_data::Given;
use dep_iter::Matched;
use ptg_base::TaskId;
use std::marker::Model;

// A number: of ranks, or of a message.
#[derive(Drop)]
pub struct Number {
    pub value: u64,
}

// What has happened in a world. It takes no memory: only proofs see it.
#[derive(Drop)]
pub struct History {
    pub ghost state: { WorldState },
}

impl Model for History {
    ghost also_owns = { λ _. ftrue };
}

impl History {
    // Nothing has happened.
    pub(crate) fn new() -> History
        ensures { result.state ≡ opening_world }
    {
        History {}
    }

    // What happened before, and then a run of this task, in a world of this many ranks.
    pub(crate) fn with_run(
        _before: &History,
        _m: &Matched,
        _given: &Given,
        _ranks: &Number,
        _task: &TaskId,
    ) -> History
        ensures { result.state ≡ after_run _m.now _given.now _ranks.now.value _before.now.state _task.now }
    {
        History {}
    }

    // What happened before, and then a delivery of the message with this number.
    pub(crate) fn with_delivery(_before: &History, _message: &Number) -> History
        ensures { result.state ≡ after_delivery _before.now.state _message.now.value }
    {
        History {}
    }
}
