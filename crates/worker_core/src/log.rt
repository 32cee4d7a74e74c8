//! The log of the claims of a worker.

ghost use Rattle.std.specs.Prelude.{◌≡◌, ◌<◌, [], ◌∷◌, ◌++◌, true, false, vec_len, vec_capacity, OnOk, OnErr};
ghost use Rattle.ptg_base.specs.Task.{Task};

use ptg_base::{OutOfMemory, TaskId};

/// Where a worker notes each of its claims with its stamp.
pub(crate) trait Log {
    ghost use Rattle.std.specs.Prelude.{Bool, List, ℕ};
    ghost use Rattle.ptg_base.specs.Task.{Task};

    /// Whether the log keeps what is noted.
    ghost keeps: { Bool };

    /// What it has kept.
    ghost entries: { Self → List (ℕ × Task) };

    /// One more claim can be noted.
    ghost has_room: { Self → Type 0 };

    /// Makes room for one more claim. A log that keeps nothing needs none.
    fn make_room(&mut self) -> Result<(), OutOfMemory>
        ensures room { OnOk result (has_room self.new) }
        ensures same { entries self.new ≡ entries self.old }
        ensures err { OnErr result (keeps ≡ true) };

    /// Notes a claim with its stamp.
    fn note(&mut self, stamp: u64, task: &TaskId)
        requires { has_room self.old }
        ensures { keeps ≡ true → entries self.new ≡ entries self.old ++ (stamp, task.now) ∷ [] };
}

/// The log that keeps nothing.
#[derive(Drop)]
pub(crate) struct NoLog;

impl Log for NoLog {
    ghost keeps = { false };

    ghost entries = { λ _. [] };

    ghost has_room = { λ _. Unit {0} };

    fn make_room(&mut self) -> Result<(), OutOfMemory> {
        Ok(())
    }

    fn note(&mut self, _stamp: u64, _task: &TaskId) {}
}

impl Log for Vec<(u64, TaskId)> {
    ghost keeps = { true };

    ghost entries = { λ log. log.items };

    ghost has_room = { λ log. vec_len log < vec_capacity log };

    fn make_room(&mut self) -> Result<(), OutOfMemory> {
        self.reserve(1)?;
        Ok(())
    }

    fn note(&mut self, stamp: u64, task: &TaskId) {
        self.push((stamp, task.copy())).unwrap();
    }
}
