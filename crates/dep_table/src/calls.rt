//! The calls of a pass that need no turn.

ghost use Rattle.std.specs.Prelude.{◌≡◌, true, false, IsTrue, ◌∷◌, []};
ghost use Rattle.ptg_base.specs.Task.{Task};
ghost use Rattle.work_board.specs.Looks.{HaltAnswers, HasHalted, HasStamp, QuietAnswers};
ghost use Rattle.table_rule.specs.Changes.{after_split, split_off};
ghost use Rattle.table_rule.specs.Plays.{WasPass};
ghost use Rattle.dep_table.specs.Passes.{IsPassOf};
ghost use Rattle.dep_table.specs.Tables.{id_of, job_of};
ghost use Rattle.dep_table.specs.Views.{shown};

use crate::pass::Pass;
use crate::table::DepTable;
use std::marker::Brand;

impl DepTable {
    /// Splits a new pass off a pass. The new one has a new name and has done nothing.
    pub fn split(&self, pass: &mut Pass) -> Pass
        requires { IsPassOf (id_of self.now) pass.old }
        ensures pass { IsPassOf (id_of self.now) pass.new }
        ensures new { IsPassOf (id_of self.now) result }
        ensures records { (shown pass.new ≡ after_split (shown pass.old))
            × (shown result ≡ split_off (shown pass.old)) }
    {
        let seat = self.words.split(&mut pass.seat);
        Pass { seat, stamp: 0 }
    }

    /// Raises the halt word.
    pub fn halt(&self, pass: &mut Pass)
        requires pass { IsPassOf (id_of self.now) pass.old }
        requires not_preloaded { (job_of self.now).preloaded ≡ false }
        ensures pass { IsPassOf (id_of self.now) pass.new }
        ensures halted { HasHalted (shown pass.old) (shown pass.new) }
    {
        self.words.raise_halt(&mut pass.seat);
    }

    /// Whether the halt word was not 0, at one look. In a preloaded table it always is 0.
    pub fn halted(&self, pass: &mut Pass) -> bool
        requires { IsPassOf (id_of self.now) pass.old }
        ensures pass { IsPassOf (id_of self.now) pass.new }
        ensures halted { HaltAnswers result (shown pass.old) (shown pass.new) }
        ensures preloaded { (job_of self.now).preloaded ≡ true → result ≡ false }
    {
        self.words.read_halt::<Brand>(&mut pass.seat) != 0
    }

    /// Whether the live word was 0, at one look: then no task is ready or runs, from that look on.
    pub fn see_quiet(&self, pass: &mut Pass) -> bool
        requires { IsPassOf (id_of self.now) pass.old }
        ensures pass { IsPassOf (id_of self.now) pass.new }
        ensures quiet { QuietAnswers result (shown pass.old) (shown pass.new) }
        ensures rule { IsTrue result → WasPass (job_of self.now) (shown pass.new) }
    {
        self.words.read_live::<Brand>(&mut pass.seat) == 0
    }

    /// The stamp of the task that the pass runs.
    pub fn stamp(&self, pass: &Pass) -> u64
        requires pass { IsPassOf (id_of self.now) pass.now }
        ensures { (t : Task) → (shown pass.now).running ≡ t ∷ [] → HasStamp (shown pass.now) t result }
    {
        pass.stamp
    }
}
