//! Which ids were pushed or taken, as only proofs see it.

ghost use Rattle.std.specs.Prelude.{◌≡◌, List, [], ◌∷◌, ◌++◌};
ghost use Rattle.std.specs.Borrow.{ftrue};
ghost use Rattle.ptg_base.specs.Task.{Task};

use ptg_base::TaskId;
use std::marker::Model;

// Ids, in order. It takes no memory: only contracts and proofs see it.
#[derive(Drop)]
pub struct IdHistory {
    pub ghost ids: { List Task },
}

impl Model for IdHistory {
    ghost also_owns = { λ _. ftrue };
}

// It owns nothing.
unsafe impl Send for IdHistory {}

impl IdHistory {
    // No ids.
    pub(crate) fn new() -> IdHistory
        ensures { result.ids ≡ [] }
    {
        IdHistory {}
    }

    // The earlier ids, followed by this one.
    pub(crate) fn with(_before: &IdHistory, _id: &TaskId) -> IdHistory
        ensures { result.ids ≡ _before.now.ids ++ _id.now ∷ [] }
    {
        IdHistory {}
    }
}
