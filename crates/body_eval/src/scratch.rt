//! The memory of a body while it runs: its slots and the units that are left.

ghost use Rattle.std.specs.Prelude.{◌≡◌, ◌+◌, ◌-◌, ◌≤◌, ◌++◌, pos, length, replicate, slice_set, OnOk, IfErr};
ghost use Rattle.ptg_base.specs.Limits.{most_locals, most_variables};
ghost use Rattle.body_eval.specs.State.{Frame};

use ptg_base::{MOST_LOCALS, MOST_VARIABLES};
use std::marker::Model;
use term_core::Trap;

// The most slots of a body: its locals and its variables.
const MOST_SLOTS: usize = MOST_LOCALS + MOST_VARIABLES;

/// Room for the slots of a running body, and the units that it has left. It allocates nothing.
#[derive(Drop)]
pub struct Scratch {
    // Only the first `used` are slots of the body that runs.
    slots: [i64; MOST_SLOTS],
    used: usize,
    units_left: u32,
}

impl Model for Scratch {
    ghost use Rattle.std.specs.Prelude.{◌+◌, ◌≤◌, take};
    ghost use Rattle.ptg_base.specs.Limits.{most_locals, most_variables};
    ghost use Rattle.body_eval.specs.State.{Frame};

    ghost Value = { Frame };

    ghost view = { λ s. record { slots = take s.used s.slots; units_left = s.units_left } };

    ghost invariant = { λ s. s.used ≤ most_locals + most_variables };
}

impl Scratch {
    /// Room for the slots of any body, with no units.
    pub fn new() -> Scratch {
        Scratch {
            slots: [0; MOST_SLOTS],
            used: 0,
            units_left: 0,
        }
    }

    /// Prepares a body: the first slots get the locals of the task, and each later slot, a variable's, gets 0.
    pub(crate) fn start(&mut self, locals: &[i64], slots: u16, units: u32)
        requires fit { length locals.now ≤ slots }
        requires bound { slots ≤ most_locals + most_variables }
        ensures slots { self.new.slots ≡ locals.now ++ replicate (slots - length locals.now) (pos 0) }
        ensures units { self.new.units_left ≡ units }
    {
        self.used = slots as usize;
        self.units_left = units;
        let used = &mut self.slots[..slots as usize];
        used[..locals.len()].copy_from_slice(locals);
        used[locals.len()..].fill(0);
    }

    // The values of the slots: the locals, then the body's variables.
    pub(crate) fn slots(&self) -> &[i64]
        ensures { result.now ≡ self.now.slots }
    {
        &self.slots[..self.used]
    }

    /// Takes one unit; traps if none is left.
    pub(crate) fn spend(&mut self) -> Result<(), Trap>
        ensures ok { OnOk result (self.old.units_left ≡ self.new.units_left + 1) }
        ensures trap { IfErr result (λ cause. (cause ≡ Trap.Budget) × (self.old.units_left ≡ 0)) }
        ensures slots { self.new.slots ≡ self.old.slots }
    {
        if self.units_left == 0 {
            return Err(Trap::Budget);
        }
        self.units_left -= 1;
        Ok(())
    }

    /// Puts a value into the slot of this number.
    pub(crate) fn assign(&mut self, number: u16, v: i64)
        ensures slots { self.new.slots ≡ slice_set self.old.slots number v }
        ensures units { self.new.units_left ≡ self.old.units_left }
    {
        let number = number as usize;
        if number < self.used {
            self.slots[number] = v;
        }
    }
}
