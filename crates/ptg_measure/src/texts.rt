//! Lexing of JDF texts with a given number of tokens.
use crate::count::{Count, Counts, Failure};
use jdf_lex::tokens;
use ptg_base::MOST_BYTES;
use std::alloc::Global;

// One class of tasks, with a flow.
const CLASS: &str = "T(k)\nk = 0 .. 0\n: D(0)\nRW A <- D(0)\n  -> D(0)\nBODY\nA[0] = 1;\nEND\n";

// The number of tokens of the class.
const CLASS_TOKENS: u32 = 35;

// A JDF text of this many tokens: globals, and then the class. If they are too few for that, it is one global and the
// class.
fn text(alloc: Global, size: u32) -> Result<String, Failure> {
    let mut text = String::from_str(alloc, "D\n")?;
    for number in 1..size.saturating_sub(CLASS_TOKENS) {
        write!(text, "g{number}\n")?;
    }
    text.push_str(CLASS)?;
    Ok(text)
}

/// Lexes a text of this many tokens. Counts the tokens that are found.
pub fn tokens_of_text(alloc: Global, size: u32) -> Result<Counts, Failure> {
    let text = text(alloc, size)?;
    if text.len() > MOST_BYTES {
        return Err(Failure::TooLarge);
    }
    let value = tokens(alloc, text.as_str())?.tokens.len() as i64;
    Ok(Counts::one(Count {
        name: "tokens",
        value,
    }))
}
