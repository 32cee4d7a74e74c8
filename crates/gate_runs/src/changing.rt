//! Files that change once one of them was read to its end.

ghost use Rattle.std.specs.Prelude.{◌<◌, ◌≤◌, length, IfOk};

use ptg_io::{Failed, Files, MemFiles, Offset, ReadHistory};

/// Files in memory, and those that take their place once one of them was read to its end.
#[derive(Drop)]
pub struct TwoStates {
    pub before: MemFiles,
    pub after: MemFiles,
    pub changed: bool,
}

impl TwoStates {
    // Reads a file as it is now, and changes all files if the read was at the end of one.
    fn read(&mut self, name: &str, from: u64, into: &mut [u8]) -> Result<usize, Failed>
        requires { 0 < length into.old }
        ensures { IfOk result (λ n. n ≤ length into.new) }
    {
        if self.changed {
            return self.after.read(name, from, into);
        }
        let n = self.before.read(name, from, into)?;
        self.changed = n == 0;
        Ok(n)
    }
}

/// Files that change once one of them was read to its end. Contracts see what the reads returned.
#[derive(Drop)]
pub struct ChangingFiles {
    states: TwoStates,
    // How many reads failed, of any name.
    faults: u64,
    // The reads that did not fail.
    history: ReadHistory,
}

impl ChangingFiles {
    /// Files that have not changed yet.
    pub fn new(before: MemFiles, after: MemFiles) -> ChangingFiles {
        let states = TwoStates {
            before,
            after,
            changed: false,
        };
        ChangingFiles {
            states,
            faults: 0,
            history: ReadHistory::new(),
        }
    }
}

impl Files for ChangingFiles {
    ghost use Rattle.std.specs.Prelude.{None};

    ghost contents = { λ _. None };

    ghost reads = { λ files. files.history.reads };

    ghost faults = { λ files _. files.faults };

    fn read(&mut self, name: &str, from: u64, into: &mut [u8]) -> Result<usize, Failed> {
        match self.states.read(name, from, into) {
            Ok(n) => {
                self.history
                    .note(name.as_bytes(), &Offset { value: from }, &into[..n]);
                Ok(n)
            }
            Err(Failed) => {
                self.faults = self.faults.saturating_add(1);
                Err(Failed)
            }
        }
    }
}
