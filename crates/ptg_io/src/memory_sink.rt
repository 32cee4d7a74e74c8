//! A sink in memory, some of whose writes fail.

ghost use Rattle.std.specs.Prelude.{◌≡◌, ◌<◌, ◌≤◌, [], ◌++◌, length, take, Contains, IfOk, OnOk, OnErr, IsErr};
ghost use Rattle.ptg_io.specs.Faults.{Rose, one_more};

use crate::files::Failed;
use crate::sink::Sink;
use ptg_base::Seq;
use std::alloc::Global;
use std::marker::Model;

/// A sink in memory. A write takes its whole piece. Writes with chosen numbers fail.
#[derive(Drop)]
pub struct MemSink {
    content: Seq<u8>,
    failed: u64,
    writes: u64,
    failing: Seq<u64>,
}

impl Model for MemSink {
    ghost use Rattle.ptg_io.specs.Memory.{MemorySink};

    ghost Value = { MemorySink };

    ghost view = { λ m. record { bytes = m.content; failed = m.failed; writes = m.writes; fails = m.failing } };
}

impl MemSink {
    /// An empty sink; the writes with these numbers, counted from 1, will fail.
    pub fn new(alloc: Global, fails: Seq<u64>) -> MemSink
        ensures { result ≡ record { bytes = []; failed = 0; writes = 0; fails = fails } }
    {
        MemSink {
            content: Seq::new(alloc),
            failed: 0,
            writes: 0,
            failing: fails,
        }
    }

    /// The bytes written so far.
    pub fn bytes(&self) -> &[u8]
        ensures { ⟦<MemSink as Sink>⟧.bytes self.now ≡ result.now }
    {
        self.content.as_slice()
    }
}

impl Sink for MemSink {
    ghost bytes = { λ m. m.bytes };

    ghost faults = { λ m. m.failed };

    fn write(&mut self, piece: &[u8]) -> Result<usize, Failed>
        requires { 0 < length piece.now }
        ensures some { IfOk result (λ n. 1 ≤ n) }
        ensures within { IfOk result (λ n. n ≤ length piece.now) }
        ensures ok { IfOk result (λ n. self.new.bytes ≡ self.old.bytes ++ take n piece.now) }
        ensures kept { OnErr result (self.new.bytes ≡ self.old.bytes) }
        ensures grows { self.old.failed ≤ self.new.failed }
        ensures failed { OnErr result (Rose self.old.failed self.new.failed) }

        // A write takes its whole piece. The chosen writes fail; any other fails only if memory runs out.
        ensures whole { IfOk result (λ n. n ≡ length piece.now) }
        ensures failing { Contains self.old.fails self.new.writes → IsErr result }
        ensures counted { self.new.writes ≡ one_more self.old.writes }
        ensures fails { self.new.fails ≡ self.old.fails }

        // A failed write counts one fault, and another write counts none.
        ensures fault_counted { OnErr result (self.new.failed ≡ one_more self.old.failed) }
        ensures no_fault { OnOk result (self.new.failed ≡ self.old.failed) }
    {
        self.writes = self.writes.saturating_add(1);
        let fails = self.failing.as_slice().contains(&self.writes);
        if fails || self.content.append(piece).is_err() {
            self.failed = self.failed.saturating_add(1);
            return Err(Failed);
        }
        Ok(piece.len())
    }
}
