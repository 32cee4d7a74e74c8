//! Buckets of slots.

ghost use Rattle.std.specs.Prelude.{◌≡◌, ◌<◌, [], ◌∷◌, ◌++◌, length};
ghost use Rattle.name_table.specs.Index.{has_room, most_slots};

use arrayvec::ArrayVec;
use std::marker::Model;

/// The number of a name, with a mark that tells most names of a bucket apart.
#[derive(Clone, Copy, Default, Drop)]
pub struct Slot {
    pub mark: u32,
    pub number: u32,
}

// How many slots a bucket has room for.
const MOST_SLOTS: usize = 7;

/// At most seven slots. Contracts see them as their list.
#[derive(Drop)]
pub struct Bucket {
    slots: ArrayVec<Slot, MOST_SLOTS>,
}

impl Model for Bucket {
    ghost use Rattle.std.specs.Prelude.{List};
    ghost use Rattle.name_table.specs.declared.bucket.Slot.{Slot};

    ghost Value = { List Slot };

    ghost view = { λ b. b.slots.items };
}

impl Bucket {
    /// An empty bucket.
    pub fn new() -> Bucket
        ensures { result ≡ [] }
    {
        Bucket {
            slots: ArrayVec::new(),
        }
    }

    /// Whether there is room for one more slot.
    pub fn has_room(&self) -> bool
        ensures { result ≡ has_room self.now }
    {
        self.slots.len() < MOST_SLOTS
    }

    /// The slots in the order in which they were added.
    pub fn as_slice(&self) -> &[Slot]
        ensures { result.now ≡ self.now }
    {
        self.slots.as_slice()
    }

    /// Adds a slot.
    pub fn push(&mut self, slot: Slot)
        requires { length self.old < most_slots }
        ensures { self.new ≡ self.old ++ slot ∷ [] }
    {
        self.slots.push(slot);
    }
}
