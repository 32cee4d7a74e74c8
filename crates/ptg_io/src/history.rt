//! What reads gave and what writes took, for proofs alone.

ghost use Rattle.std.specs.Prelude.{◌≡◌, ℕ, List, [], ◌∷◌, ◌++◌};
ghost use Rattle.std.specs.Borrow.{ftrue};
ghost use Rattle.ptg_io.specs.Reads.{Read};

use std::marker::Model;

/// An offset in a file.
#[derive(Drop)]
pub struct Offset {
    pub value: u64,
}

/// The reads that did not fail, in order. Only proofs see them, and they take no memory.
#[derive(Drop)]
pub struct ReadHistory {
    pub ghost reads: { List Read },
}

impl Model for ReadHistory {
    ghost also_owns = { λ _. ftrue };
}

impl ReadHistory {
    /// No reads.
    pub fn new() -> ReadHistory
        ensures { result.reads ≡ [] }
    {
        ReadHistory {}
    }

    /// Adds a read of the file with this name, from an offset, that gave this piece.
    pub fn note(&mut self, _name: &[u8], _from: &Offset, _piece: &[u8])
        ensures { self.new.reads
            ≡ self.old.reads
            ++ record { name = _name.now; from = _from.now.value; piece = _piece.now } ∷ [] }
    {}
}

/// The bytes that writes took, in order. Only proofs see them, and they take no memory.
#[derive(Drop)]
pub struct WriteHistory {
    pub ghost bytes: { List ℕ },
}

impl Model for WriteHistory {
    ghost also_owns = { λ _. ftrue };
}

impl WriteHistory {
    /// No bytes.
    pub fn new() -> WriteHistory
        ensures { result.bytes ≡ [] }
    {
        WriteHistory {}
    }

    /// Adds the bytes that a write took.
    pub fn note(&mut self, _piece: &[u8])
        ensures { self.new.bytes ≡ self.old.bytes ++ _piece.now }
    {}
}
