//! Standard output.

ghost use Rattle.std.specs.Prelude.{◌≡◌, ◌<◌, ◌≤◌, [], ◌++◌, length, take, IfOk, OnErr, OnOk};
ghost use Rattle.std.specs.Io.KnownBytes.{WriteAppends};
ghost use Rattle.ptg_io.specs.Faults.{Rose};
ghost use Rattle.ptg_os.specs.Adapters.{writer_of};

use ptg_io::{Failed, Sink, WriteHistory};
use std::io::Write;

/// Standard output, or any other writer. Contracts know only what its writes took.
#[derive(Drop)]
pub struct OsSink<W: Write + Drop> {
    writer: W,
    // How many writes failed.
    faults: u64,
    // The bytes that writes took.
    history: WriteHistory,
}

impl<W: Write + Drop> OsSink<W> {
    /// A sink over this writer, before any write.
    pub fn new(writer: W) -> Self
        ensures no_bytes { ⟦<OsSink<W> as Sink>⟧.bytes result ≡ [] }
        ensures no_faults { ⟦<OsSink<W> as Sink>⟧.faults result ≡ 0 }
    {
        OsSink {
            writer,
            faults: 0,
            history: WriteHistory::new(),
        }
    }
}

impl<W: Write + Drop> Sink for OsSink<W> {
    ghost bytes = { λ sink. sink.history.bytes };

    ghost faults = { λ sink. sink.faults };

    fn write(&mut self, piece: &[u8]) -> Result<usize, Failed>
        requires { 0 < length piece.now }
        ensures some { IfOk result (λ n. 1 ≤ n) }
        ensures within { IfOk result (λ n. n ≤ length piece.now) }
        ensures ok { IfOk result (λ n. self.new.history.bytes ≡ self.old.history.bytes ++ take n piece.now) }
        ensures kept { OnErr result (self.new.history.bytes ≡ self.old.history.bytes) }
        ensures grows { self.old.faults ≤ self.new.faults }
        ensures failed { OnErr result (Rose self.old.faults self.new.faults) }
        ensures no_fault { OnOk result (self.new.faults ≡ self.old.faults) }

        // The writer took the bytes, or none if the write failed.
        ensures took { WriteAppends (W.contents (writer_of self.old)) (W.contents (writer_of self.new)) result piece.now }
    {
        match self.writer.write(piece) {
            // A write that takes no bytes fails: else the caller would try forever.
            Ok(n) if n > 0 => {
                self.history.note(&piece[..n]);
                Ok(n)
            }
            _ => {
                self.faults = self.faults.saturating_add(1);
                Err(Failed)
            }
        }
    }
}
