//! Lines of fields, printed as they come, up to a limit.

use crate::failure::Failure;
use std::alloc::Global;
use std::fmt::Display;
use std::io::Write;

// This many bytes are written at once.
const PIECE: usize = 65536;

/// Lines of fields that are joined by commas.
#[derive(Drop)]
pub struct Lines<W: Write + Drop> {
    writer: W,
    text: String,
    left: u64,
}

impl<W: Write + Drop> Lines<W> {
    /// Writes at most this many lines, to this writer.
    pub fn new(alloc: Global, writer: W, most: u64) -> Lines<W> {
        Lines {
            writer,
            text: String::new(alloc),
            left: most,
        }
    }

    /// Begins a line with this word, unless the limit is reached.
    pub fn begin(&mut self, word: &str) -> Result<(), Failure> {
        if self.left == 0 {
            return Err(Failure::Full);
        }
        self.left -= 1;
        self.text.push_str(word)?;
        Ok(())
    }

    /// Adds a field.
    pub fn field<T: Display>(&mut self, value: &T) -> Result<(), Failure> {
        write!(self.text, ",{value}")?;
        Ok(())
    }

    /// Ends a line.
    pub fn end(&mut self) -> Result<(), Failure> {
        self.text.push('\n')?;
        if self.text.len() >= PIECE {
            self.flush()?;
        }
        Ok(())
    }

    /// Writes what is not written yet.
    pub fn flush(&mut self) -> Result<(), Failure> {
        self.writer.write_all(self.text.as_bytes())?;
        self.text.clear();
        Ok(())
    }
}
