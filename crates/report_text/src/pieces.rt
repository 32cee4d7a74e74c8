//! Bytes that are kept back until there are enough for a piece, which is then written.

ghost use Rattle.std.specs.Prelude.{◌≡◌, ◌∷◌, [], ◌++◌, ◌<◌, length, IsFalse, OnOk};
ghost use Rattle.report_text.specs.Puts.{Puts, piece_size};

use ptg_io::{Failed, Sink, write_all};
use std::marker::Model;

// The size of a full piece in bytes.
const PIECE_SIZE: usize = 4096;

/// The bytes that are kept back until there are enough for a piece. Contracts see them as a list.
#[derive(Drop)]
pub struct Pieces {
    buffer: [u8; PIECE_SIZE],
    count: usize,
}

impl Model for Pieces {
    ghost use Rattle.std.specs.Prelude.{List, ℕ, take, ◌≤◌};
    ghost use Rattle.report_text.specs.Puts.{piece_size};

    ghost Value = { List ℕ };

    ghost view = { λ p. take p.count p.buffer };

    ghost invariant = { λ p. p.count ≤ piece_size };
}

// A buffer of zeros. Contracts see none of its bytes before one is put.
fn any_buffer() -> [u8; PIECE_SIZE] {
    [0; PIECE_SIZE]
}

impl Pieces {
    /// No bytes.
    pub fn new() -> Pieces
        ensures { result ≡ [] }
    {
        Pieces {
            buffer: any_buffer(),
            count: 0,
        }
    }

    // Whether the piece has no room for one more byte.
    fn is_full(&self) -> bool
        ensures { IsFalse result → length self.now < piece_size }
    {
        self.count == PIECE_SIZE
    }

    // The bytes that are kept back.
    fn as_slice(&self) -> &[u8]
        ensures { result.now ≡ self.now }
    {
        &self.buffer[..self.count]
    }

    // Forgets the bytes.
    fn clear(&mut self)
        ensures { self.new ≡ [] }
    {
        self.count = 0;
    }

    // Adds a byte.
    fn push(&mut self, byte: u8)
        requires { length self.old < piece_size }
        ensures { self.new ≡ self.old ++ byte ∷ [] }
    {
        self.buffer[self.count] = byte;
        self.count += 1;
    }
}

/// Writes what is kept back.
pub fn flush<O: Sink>(sink: &mut O, out: &mut Pieces) -> Result<(), Failed>
    ensures puts { Puts O.bytes O.faults result sink.old out.old sink.new out.new [] }
    ensures empty { OnOk result (out.new ≡ []) }
{
    write_all(sink, out.as_slice())?;
    out.clear();
    Ok(())
}

// Writes what is kept back if there is no room for one more byte.
fn make_room<O: Sink>(sink: &mut O, out: &mut Pieces) -> Result<(), Failed>
    ensures puts { Puts O.bytes O.faults result sink.old out.old sink.new out.new [] }
    ensures room { OnOk result (length out.new < piece_size) }
{
    if out.is_full() {
        flush(sink, out)
    } else {
        Ok(())
    }
}

/// Puts a byte.
pub fn put_byte<O: Sink>(sink: &mut O, out: &mut Pieces, byte: u8) -> Result<(), Failed>
    ensures { Puts O.bytes O.faults result sink.old out.old sink.new out.new (byte ∷ []) }
{
    make_room(sink, out)?;
    out.push(byte);
    Ok(())
}

/// Puts these bytes.
pub fn put_bytes<O: Sink>(sink: &mut O, out: &mut Pieces, bytes: &[u8]) -> Result<(), Failed>
    ensures { Puts O.bytes O.faults result sink.old out.old sink.new out.new bytes.now }
{
    for byte in bytes {
        put_byte(sink, out, *byte)?;
    }
    Ok(())
}
