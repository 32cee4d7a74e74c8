//! The arguments of the command line.

use ptg_base::{OutOfMemory, Seq, Text};
use std::alloc::Global;
use std::env::{Env, FillError};

// The room for one argument. Linux takes at most 131,072 bytes for one, with the zero at its end.
pub(crate) const LONGEST: usize = 262144;

/// The arguments of the command line without the program's name, byte for byte, UTF-8 or not.
///
/// No argument is dropped: one of more than 262,144 bytes is refused as out of memory.
pub fn words(system: &impl Env, alloc: Global) -> Result<Seq<Text>, OutOfMemory> {
    let mut list = Seq::new(alloc);
    let mut buffer = vec![in alloc; 0u8; LONGEST]?;
    for i in 1..usize::MAX {
        match system.arg(i, buffer.as_mut_slice()) {
            Ok(n) => list.push(Text::of(alloc, &buffer[..n])?)?,
            Err(FillError::NotPresent) => return Ok(list),
            Err(FillError::TooLong) => return Err(OutOfMemory),
        }
    }
    Err(OutOfMemory)
}
