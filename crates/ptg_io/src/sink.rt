//! Sinks, which take bytes.

ghost use Rattle.std.specs.Prelude.{◌≡◌, ◌<◌, ◌≤◌, ◌++◌, List, ℕ, length, take, IfOk, OnOk, OnErr};
ghost use Rattle.ptg_io.specs.Faults.{Rose};

use crate::files::Failed;

/// A sink: bytes are written to its end.
pub trait Sink {
    /// The bytes that writes took so far, in order.
    ghost bytes: { Self → List ℕ };

    /// How many writes failed so far.
    ghost faults: { Self → ℕ };

    /// Appends the first bytes of a piece, at least one, and returns how many. A failed write appends nothing.
    fn write(&mut self, piece: &[u8]) -> Result<usize, Failed>
        requires { 0 < length piece.now }
        ensures some { IfOk result (λ n. 1 ≤ n) }
        ensures within { IfOk result (λ n. n ≤ length piece.now) }
        ensures ok { IfOk result (λ n. bytes self.new ≡ bytes self.old ++ take n piece.now) }
        ensures kept { OnErr result (bytes self.new ≡ bytes self.old) }
        ensures grows { faults self.old ≤ faults self.new }
        ensures failed { OnErr result (Rose (faults self.old) (faults self.new)) }
        ensures no_fault { OnOk result (faults self.new ≡ faults self.old) };
}
