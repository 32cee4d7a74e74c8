//! Prefixes of a file. A row is tried with each of them.

use crate::files::{file_of, spelled};
use crate::items::first_word;
use crate::why::Why;
use crate::worked_row::{Printed, RowCall};
use ptg_base::Text;
use std::alloc::Global;

/// The prefixes of a file that have from `from` to `to` - 1 bytes.
#[derive(Drop)]
pub struct Prefixes {
    name: Vec<u8>,
    pub from: usize,
    pub to: usize,
}

impl Prefixes {
    /// The prefixes that `NAME FROM TO` names.
    pub fn of(alloc: Global, rest: &str) -> Result<Prefixes, Why> {
        let (name, lengths) = first_word(rest);
        let (from, to) = first_word(lengths);
        Ok(Prefixes {
            name: spelled(alloc, name)?,
            from: length_of(from)?,
            to: length_of(to)?,
        })
    }

    /// Refuses these prefixes if there are none, if one is longer than its file, or if a read or a write of the row is
    /// to fail.
    pub fn belong_to(&self, row_call: &RowCall) -> Result<(), Why> {
        if self.from >= self.to {
            return Err(Why("prefixes of no length"));
        }
        if !row_call.failing_reads.is_empty() || !row_call.failing_writes.is_empty() {
            return Err(Why("prefixes with failing calls"));
        }
        let longest = self.to - 1;
        for file in &row_call.files {
            if file.name() == self.name.as_slice() && longest <= file.bytes().len() {
                return Ok(());
            }
        }
        Err(Why("prefixes of a file that is not there, or is shorter"))
    }

    /// The same call, with the prefix of this length in place of the file. No read or write of it fails.
    pub fn row_call(&self, alloc: Global, whole: &RowCall, length: usize) -> Result<RowCall, Why> {
        let mut files = Vec::new(alloc);
        for file in &whole.files {
            let mut bytes = file.bytes().to_vec(alloc)?;
            if file.name() == self.name.as_slice() {
                bytes.truncate(length);
            }
            files.push(file_of(alloc, file.name(), bytes)?)?;
        }
        let mut words = Vec::new(alloc);
        for word in &whole.words {
            words.push(Text::of(alloc, word.bytes())?)?;
        }
        Ok(RowCall {
            files,
            words,
            failing_reads: Vec::new(alloc),
            failing_writes: Vec::new(alloc),
        })
    }
}

// The length that these digits spell.
fn length_of(digits: &str) -> Result<usize, Why> {
    digits
        .parse::<usize>()
        .map_err(|_| Why("a length that is none"))
}

/// What was wanted, if only the status is compared and this came: the same text, or only its first line if the status
/// is from 1 to 4.
pub fn wanted_of(alloc: Global, status: u8, came: &Printed) -> Result<Printed, Why> {
    let mut text = came.text.as_slice().to_vec(alloc)?;
    if (1..=4).contains(&status) {
        let line = came.text.iter().take_while(|byte| **byte != b'\n').count();
        text.truncate(line);
        text.push(b'\n')?;
    }
    Ok(Printed { text, status })
}
