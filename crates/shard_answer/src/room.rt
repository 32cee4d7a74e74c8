//! Room for the rows of an answer.
ghost use Rattle.std.specs.Prelude.{◌≡◌, ◌≤◌, OnErr, OnOk, [], vec_capacity, vec_len};

use flow_meaning::{TrapRow, WaitRow};
use ptg_base::OutOfMemory;
use std::alloc::Global;
use std::marker::Model;

/// Room for the rows of an answer. Contracts see for how many rows of each kind it is enough.
#[derive(Drop)]
pub struct Room {
    traps: Vec<TrapRow>,
    waits: Vec<WaitRow>,
}

impl Model for Room {
    ghost use Rattle.std.specs.Prelude.{ℕ, min, vec_capacity};

    ghost Value = { ℕ };

    ghost view = { λ r. min (vec_capacity r.traps) (vec_capacity r.waits) };
}

impl Room {
    /// No room yet. It takes no memory.
    pub fn new(alloc: Global) -> Room {
        Room {
            traps: Vec::new(alloc),
            waits: Vec::new(alloc),
        }
    }

    /// Takes memory for this many rows of each kind. An `Err` leaves at least the room that there was.
    pub fn reserve(&mut self, rows: u64) -> Result<(), OutOfMemory>
        ensures ok { OnOk result (rows ≤ self.new) }
        ensures err { OnErr result (self.old ≤ self.new) }
    {
        self.traps.clear();
        self.waits.clear();
        self.traps.reserve(rows as usize)?;
        self.waits.reserve(rows as usize)?;
        Ok(())
    }

    // The places for rows of trapped tasks and of waiting tasks.
    pub(crate) fn into_rows(self) -> (Vec<TrapRow>, Vec<WaitRow>)
        ensures traps { (result.0.items ≡ []) × (vec_len result.0 ≡ 0) × (self ≤ vec_capacity result.0) }
        ensures waits { (result.1.items ≡ []) × (vec_len result.1 ≡ 0) × (self ≤ vec_capacity result.1) }
    {
        let Room {
            mut traps,
            mut waits,
        } = self;
        traps.clear();
        waits.clear();
        (traps, waits)
    }
}
