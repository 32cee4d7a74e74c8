//! What was sent, for proofs alone.

ghost use Rattle.std.specs.Prelude.{◌≡◌, List, [], ◌∷◌, ◌++◌};
ghost use Rattle.std.specs.Borrow.{ftrue};
ghost use Rattle.flow_meaning.specs.Machine.{SentItem};

use ptg_base::{Item, Tile};
use std::marker::Model;

// An item, and the tile that goes with it.
#[derive(Drop)]
pub struct SentItem {
    pub item: Item,
    pub tile: Option<Tile>,
}

// The items that were sent, each with its tile, in the order of the sends. It takes no memory: only proofs see it.
#[derive(Drop)]
pub struct History {
    pub ghost sends: { List SentItem },
}

impl Model for History {
    ghost also_owns = { λ _. ftrue };
}

impl History {
    // Nothing was sent.
    pub(crate) fn new() -> History
        ensures { result.sends ≡ [] }
    {
        History {}
    }

    // What was sent before, and this.
    pub(crate) fn with(_before: &History, _sent: &SentItem) -> History
        ensures { result.sends ≡ _before.now.sends ++ record { item = _sent.now.item; tile = _sent.now.tile } ∷ [] }
    {
        History {}
    }
}
