//! Files that are read by name.

ghost use Rattle.std.specs.Prelude.{◌≡◌, ◌<◌, ◌≤◌, ⊤, List, [], ◌∷◌, ◌++◌, ℕ, Option, length, take, IfOk, OnOk, OnErr};
ghost use Rattle.ptg_io.specs.Faults.{Rose};
ghost use Rattle.ptg_io.specs.Files.{NamedFiles, ReadsPiece};
ghost use Rattle.ptg_io.specs.Reads.{Read};

/// A read or a write failed.
#[derive(Clone, Copy, Debug, PartialEq, Eq)]
pub struct Failed;

/// Files that can be read by name.
pub trait Files {
    /// The files as names and bytes, if these are known.
    ghost contents: { Self → Option NamedFiles };

    /// The reads so far that did not fail, in order, each with the bytes that it gave.
    ghost reads: { Self → List Read };

    /// How many reads of a name failed so far.
    ghost faults: { Self → List ℕ → ℕ };

    /// What is known of the files after a read of a name, from an offset, that gave this many bytes.
    ghost read_gives: { Self → List ℕ → ℕ → ℕ → Self → Type 0 } = { λ _ _ _ _ _. ⊤ };

    /// What is known of the files after a read of a name, from an offset, that failed.
    ghost read_fails: { Self → List ℕ → ℕ → Self → Type 0 } = { λ _ _ _ _. ⊤ };

    /// Copies bytes of a file, from an offset on, to the front of a buffer, and returns how many. These may be fewer
    /// than fit; 0 means the end of the file.
    fn read(&mut self, name: &str, from: u64, into: &mut [u8]) -> Result<usize, Failed>
        requires { 0 < length into.old }
        ensures stays { contents self.new ≡ contents self.old }
        ensures within { IfOk result (λ n. n ≤ length into.new) }
        ensures given { (files : NamedFiles) → contents self.old ≡ Some files →
            IfOk result (λ n. ReadsPiece files name.now from n into.new) }
        ensures noted { IfOk result (λ n. reads self.new
            ≡ reads self.old ++ record { name = name.now; from = from; piece = take n into.new } ∷ []) }
        ensures not_noted { OnErr result (reads self.new ≡ reads self.old) }
        ensures gives { IfOk result (λ n. read_gives self.old name.now from n self.new) }
        ensures read_fails { OnErr result (read_fails self.old name.now from self.new) }
        ensures grows { (other : List ℕ) → faults self.old other ≤ faults self.new other }
        ensures failed { OnErr result (Rose (faults self.old name.now) (faults self.new name.now)) }
        ensures no_fault { OnOk result ((other : List ℕ) → faults self.new other ≡ faults self.old other) };
}
