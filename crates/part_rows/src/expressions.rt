//! Expressions, read.

use crate::tokens::{self, refused};
use expr_read::read_expr;
use row_files::{Printed, Why};
use std::alloc::Global;

/// Reads the longest expression that begins a text. Returns how many tokens it has, or its first fault. If `elements`
/// is true, it is an expression of a body.
pub fn read(alloc: Global, text: &[u8], elements: bool) -> Result<Printed, Why> {
    let lexed = tokens::lexed(alloc, text)?.map_err(|_| Why(
        "an expression whose tokens have a fault",
    ))?;
    match read_expr(alloc, lexed.tokens.as_slice(), 0, elements, lexed.end) {
        Ok((_tree, count)) => Ok(Printed {
            text: format!(in alloc; "read,{count}\n")?.into_bytes(),
            status: 0,
        }),
        Err(refusal) => refused(alloc, refusal),
    }
}
