//! A file in memory.

ghost use Rattle.std.specs.Prelude.{◌≡◌};

use ptg_base::{Seq, Text};
use std::marker::Model;

/// A file in memory. Contracts see it as its name and its bytes.
#[derive(Drop)]
pub struct File {
    label: Text,
    content: Seq<u8>,
}

impl Model for File {
    ghost use Rattle.std.specs.Prelude.{List, ℕ};

    ghost Value = { List ℕ × List ℕ };

    ghost view = { λ f. (f.label, f.content) };
}

impl File {
    /// The file with this name and these bytes.
    pub fn new(name: Text, bytes: Seq<u8>) -> File
        ensures { result ≡ (name, bytes) }
    {
        File {
            label: name,
            content: bytes,
        }
    }

    /// The bytes of its name.
    pub fn name(&self) -> &[u8]
        ensures { result.now ≡ self.now.0 }
    {
        self.label.bytes()
    }

    /// Its content.
    pub fn bytes(&self) -> &[u8]
        ensures { result.now ≡ self.now.1 }
    {
        self.content.as_slice()
    }
}
