//! Writing all bytes.

ghost use Rattle.std.specs.Prelude.{◌≡◌, ◌<◌, ◌≤◌, ◌++◌, ℕ, length, take, OnOk, OnErr};
ghost use Rattle.ptg_io.specs.Faults.{Rose};

use crate::files::Failed;
use crate::sink::Sink;

// How many bytes are written at once, if the sink takes that many.
const WRITE_SIZE: usize = 4096;

/// Appends all of the bytes, piece by piece. On `Err` only some of the first bytes, or none, were written.
pub fn write_all<O: Sink>(sink: &mut O, bytes: &[u8]) -> Result<(), Failed>
    ensures ok { OnOk result (O.bytes sink.new ≡ O.bytes sink.old ++ bytes.now) }
    ensures prefix { OnErr result ((n : ℕ) × (n < length bytes.now) ×
        (O.bytes sink.new ≡ O.bytes sink.old ++ take n bytes.now)) }
    ensures grows { O.faults sink.old ≤ O.faults sink.new }
    ensures failed { OnErr result (Rose (O.faults sink.old) (O.faults sink.new)) }
    ensures no_fault { OnOk result (O.faults sink.new ≡ O.faults sink.old) }
{
    let mut done = 0;
    while done < bytes.len() {
        let end = bytes.len().min(done.saturating_add(WRITE_SIZE));
        done += sink.write(&bytes[done..end])?;
    }
    Ok(())
}
