//! The commands of the program.

ghost use Rattle.std.specs.Prelude.{◌≡◌};
ghost use Rattle.ptg_words.specs.declared.order.WordsRefusal.TheVariants.{OutOfMemory};

use ptg_base::Text;
use std::alloc::{AllocError, AllocFailed};

/// A command of the program.
#[derive(Drop)]
pub enum Order {
    /// Run the job of this JDF file on this data file, with these numbers of workers and of shards. The flag says
    /// whether all memory is reserved before the run.
    Run(Text, Text, u32, u32, bool),
    /// Print the canonical spelling of this JDF file.
    Show(Text),
    /// Check the consistency of the job of this JDF file with this data file.
    Check(Text, Text),
    /// Run the made job with this many rows of tiles.
    Demo(u32),
    /// Run the job of this JDF file on this data file, with these numbers of workers and of shards, and print the order
    /// in which its tasks ran.
    Trace(Text, Text, u32, u32),
    /// Run the job of this JDF file on this data file in the order of this trace file.
    Replay(Text, Text, Text),
    /// Run the job of this JDF file on this data file, and print a heaviest chain of its tasks or a cycle.
    Certify(Text, Text),
    /// Run the job of this JDF file on this data file on this many ranks, which send messages to each other. The seed
    /// determines the order in which these are delivered.
    Ranks(Text, Text, u32, u64),
}

/// Why no command was returned.
#[derive(Clone, Copy, Debug, PartialEq, Eq)]
pub enum WordsRefusal {
    /// The arguments form no valid command.
    Usage,
    OutOfMemory,
}

impl From<ptg_base::OutOfMemory> for WordsRefusal {
    ghost from_gives = { λ _ e. e ≡ OutOfMemory };

    fn from(_e: ptg_base::OutOfMemory) -> WordsRefusal {
        WordsRefusal::OutOfMemory
    }
}

impl From<AllocError> for WordsRefusal {
    ghost from_gives = { λ _ e. e ≡ OutOfMemory };

    fn from(_e: AllocError) -> WordsRefusal {
        WordsRefusal::OutOfMemory
    }
}

impl<T: Drop> From<AllocFailed<T>> for WordsRefusal {
    ghost from_gives = { λ _ e. e ≡ OutOfMemory };

    fn from(_e: AllocFailed<T>) -> WordsRefusal {
        WordsRefusal::OutOfMemory
    }
}
