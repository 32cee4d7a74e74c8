//! Bodies of tasks, read and run.

use crate::scope::{globals, scope};
use crate::tokens::{self, refused};
use body_eval::{Scratch, run_body};
use body_lang::read_body;
use jdf_lex::Lexed;
use ptg_base::{Text, Tile};
use row_files::{Printed, Why};
use std::alloc::Global;
use term_core::Trap;

/// Reads the syntax of a body, whatever its names mean. Returns `read`, or its first fault.
pub fn read_syntax(alloc: Global, text: &[u8]) -> Result<Printed, Why> {
    let lexed = lexed(alloc, text)?;
    match body_lang::read(alloc, lexed.tokens.as_slice(), lexed.end) {
        Ok(_) => is_read(alloc),
        Err(refusal) => refused(alloc, refusal),
    }
}

/// Reads a body. Returns `read`, or its first fault.
pub fn read_names(alloc: Global, text: &[u8]) -> Result<Printed, Why> {
    let lexed = lexed(alloc, text)?;
    let globals = globals(alloc)?;
    let scope = scope(alloc, &globals)?;
    match read_body(alloc, lexed.tokens.as_slice(), lexed.end, &scope) {
        Ok(_) => is_read(alloc),
        Err(refusal) => refused(alloc, refusal),
    }
}

/// Runs a body with `k` = 2 and `m` = 5. The tiles of `A`, `R` and `B` have this many zeros, and `C` has no tile.
/// Returns the tile of `A` at the end, or why the body traps. With 0 elements `A` has no tile, and the other two have
/// one element.
pub fn run(alloc: Global, text: &[u8], elements: &[u8]) -> Result<Printed, Why> {
    let elements = elements_of(elements)?;
    let lexed = lexed(alloc, text)?;
    let globals = globals(alloc)?;
    let scope = scope(alloc, &globals)?;
    let Ok((body, words)) = read_body(alloc, lexed.tokens.as_slice(), lexed.end, &scope) else {
        return Err(Why("a body that is not read"));
    };
    if scope.locals.len() != 2 || scope.flows.len() != 4 {
        return Err(Why("another scope"));
    }
    let others = elements.max(1);
    let mut tiles = [
        tile(alloc, elements)?,
        tile(alloc, others)?,
        tile(alloc, others)?,
        None,
    ];
    match run_body(&body, &[2, 5], &mut tiles, &mut Scratch::new()) {
        Ok(()) => ended(alloc, &tiles[0]),
        Err(trap) => trapped(alloc, trap, words.as_slice()),
    }
}

// The tokens of a body.
fn lexed(alloc: Global, text: &[u8]) -> Result<Lexed, Why> {
    tokens::lexed(alloc, text)?.map_err(|_| Why("a body whose tokens have a fault"))
}

// The number of elements that a digit gives.
fn elements_of(digits: &[u8]) -> Result<u32, Why> {
    match digits {
        [digit @ b'0'..=b'9'] => Ok(u32::from(*digit - b'0')),
        _ => Err(Why("a number of elements that is no digit")),
    }
}

// A tile of this many zeros, or none for 0.
fn tile(alloc: Global, elements: u32) -> Result<Option<Tile>, Why> {
    if elements == 0 {
        return Ok(None);
    }
    Ok(Some(Tile::zeros(alloc, elements)?))
}

// What is printed of a body that is read alone.
fn is_read(alloc: Global) -> Result<Printed, Why> {
    printed(format!(in alloc; "read\n")?, 0)
}

// The numbers of a tile, or `absent` if there is none.
fn ended(alloc: Global, tile: &Option<Tile>) -> Result<Printed, Why> {
    let Some(tile) = tile else {
        return printed(format!(in alloc; "absent\n")?, 0);
    };
    let mut text = format!(in alloc; "tile")?;
    for number in tile.as_slice() {
        write!(text, ",{number}")?;
    }
    text.push('\n')?;
    printed(text, 0)
}

// The cause of a trap; for a trap word, the word itself.
fn trapped(alloc: Global, trap: Trap, words: &[Text]) -> Result<Printed, Why> {
    let Trap::Word(number) = trap else {
        return printed(format!(in alloc; "trap,{trap:?}\n")?, 5);
    };
    let Some(word) = words.get(number as usize) else {
        return Err(Why("a trap word that is not among the words"));
    };
    let word = str::from_utf8(word.bytes()).map_err(|_| Why("a trap word that is no text"))?;
    printed(format!(in alloc; "trap,word,{word}\n")?, 5)
}

// This text and status, as printed.
fn printed(text: String, status: u8) -> Result<Printed, Why> {
    Ok(Printed {
        text: text.into_bytes(),
        status,
    })
}
