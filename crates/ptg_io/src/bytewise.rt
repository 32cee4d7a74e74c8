//! Files in memory that are read byte by byte, and a sink in memory that is written byte by byte.

ghost use Rattle.std.specs.Prelude.{Some};
ghost use Rattle.ptg_io.specs.Memory.{failed_reads};

use crate::files::{Failed, Files};
use crate::memory_files::MemFiles;
use crate::memory_sink::MemSink;
use crate::sink::Sink;

/// Files in memory. Each read gives at most one byte.
#[derive(Drop)]
pub struct ByteFiles {
    pub files: MemFiles,
}

impl Files for ByteFiles {
    ghost contents = { λ f. Some f.files.files };

    ghost reads = { λ f. f.files.history };

    ghost faults = { λ f. failed_reads f.files };

    fn read(&mut self, name: &str, from: u64, into: &mut [u8]) -> Result<usize, Failed> {
        self.files.read(name, from, &mut into[..1])
    }
}

/// A sink in memory. Each write takes one byte.
#[derive(Drop)]
pub struct ByteSink {
    pub sink: MemSink,
}

impl Sink for ByteSink {
    ghost bytes = { λ s. s.sink.bytes };

    ghost faults = { λ s. s.sink.failed };

    fn write(&mut self, piece: &[u8]) -> Result<usize, Failed> {
        self.sink.write(&piece[..1])
    }
}
