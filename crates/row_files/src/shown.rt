//! What was wanted of a row and what came, on one line.

use crate::tried::Tried;
use crate::worked_row::Printed;
use std::alloc::{AllocError, Global};

// How many bytes of a text are shown.
const SHOWN: usize = 300;

// How many bytes are shown before the first that differs.
const BEFORE: usize = 60;

/// What was wanted and what came, near the first byte that differs.
pub fn difference(alloc: Global, tried: &Tried) -> Result<String, AllocError> {
    let wanted = tried.wanted.text.as_slice();
    let came = tried.came.text.as_slice();
    let same = wanted
        .iter()
        .zip(came)
        .take_while(|(a, b)| *a == *b)
        .count();
    let from = same.saturating_sub(BEFORE);
    let wanted = shown(alloc, &tried.wanted, from)?;
    let came = shown(alloc, &tried.came, from)?;
    format!(in alloc; "wanted {wanted}, came {came}")
}

// A text and a status as they are shown, from the byte `from` on.
fn shown(alloc: Global, printed: &Printed, from: usize) -> Result<String, AllocError> {
    let status = printed.status;
    let length = printed.text.len();
    let mut text = format!(in alloc; "status {status} and {length} bytes \"")?;
    if from > 0 {
        text.push_str("..")?;
    }
    for byte in printed.text.iter().skip(from).take(SHOWN) {
        add_visibly(*byte, &mut text)?;
    }
    if length > from.saturating_add(SHOWN) {
        text.push_str("..")?;
    }
    text.push_str("\"")?;
    Ok(text)
}

// Adds a byte as a file of rows would spell it.
fn add_visibly(byte: u8, text: &mut String) -> Result<(), AllocError> {
    match byte {
        b'\n' => text.push_str("\\n"),
        b'\\' => text.push_str("\\\\"),
        b' '..=b'~' => text.push(char::from(byte)),
        _ => write!(text, "\\x{byte:02x}"),
    }
}
