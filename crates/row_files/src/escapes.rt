//! The bytes that a line of a file of rows spells.

ghost use Rattle.std.specs.Prelude.{◌<◌, ◌≤◌, length, IfOk};

use crate::why::Why;
use std::alloc::Global;

/// Adds the bytes that a line spells. Returns whether a line feed follows, as it does unless a lone backslash ends the
/// line.
pub fn spell(alloc: Global, line: &[u8], bytes: &mut Vec<u8>) -> Result<bool, Why> {
    let mut rest = line;
    while !rest.is_empty() {
        if rest == b"\\".as_slice() {
            return Ok(false);
        }
        rest = spell_next(alloc, rest, bytes)?;
    }
    Ok(true)
}

// Spells what a text begins with, and returns the rest of it.
fn spell_next<'a>(alloc: Global, text: &'a [u8], bytes: &mut Vec<u8>) -> Result<&'a [u8], Why>
    requires { 0 < length text.now }
    ensures { IfOk result (λ rest. length rest.now < length text.now) }
{
    match text {
        [b'\\', b'(', inside @ ..] => spell_repeated(alloc, inside, bytes),
        _ => spell_one(text, bytes),
    }
}

// Spells a byte that stands for itself, or an escape.
fn spell_one<'a>(text: &'a [u8], bytes: &mut Vec<u8>) -> Result<&'a [u8], Why>
    requires { 0 < length text.now }
    ensures { IfOk result (λ rest. length rest.now < length text.now) }
{
    match text {
        [b'\\', b'x', high, low, rest @ ..] => {
            let byte = hex(*high)? * 16 + hex(*low)?;
            bytes.push(byte)?;
            Ok(rest)
        }
        [b'\\', b'e', rest @ ..] => Ok(rest),
        [b'\\', letter, rest @ ..] => {
            bytes.push(escaped(*letter)?)?;
            Ok(rest)
        }
        [b'\\'] => Err(Why("a backslash escapes nothing")),
        [byte, rest @ ..] => {
            bytes.push(*byte)?;
            Ok(rest)
        }
        [] => unreachable!(),
    }
}

// The byte that an escape of this letter stands for.
fn escaped(letter: u8) -> Result<u8, Why> {
    match letter {
        b'n' => Ok(b'\n'),
        b'r' => Ok(b'\r'),
        b't' => Ok(b'\t'),
        b's' => Ok(b' '),
        b'\\' => Ok(b'\\'),
        _ => Err(Why("an escape that is none")),
    }
}

// The value of a hexadecimal digit.
fn hex(digit: u8) -> Result<u8, Why>
    ensures { IfOk result (λ value. value < 16) }
{
    match digit {
        b'0'..=b'9' => Ok(digit - b'0'),
        b'a'..=b'f' => Ok(digit - b'a' + 10),
        _ => Err(Why("\\x without two digits 0 to 9, a to f")),
    }
}

// Spells `TEXT * NUMBER)` and returns what follows. The text has no ` * ` and no repetition in it.
fn spell_repeated<'a>(alloc: Global, inside: &'a [u8], bytes: &mut Vec<u8>) -> Result<&'a [u8], Why>
    ensures { IfOk result (λ rest. length rest.now ≤ length inside.now) }
{
    let (text, rest) = split_at_first(inside, b" * ")?;
    let (count, rest) = split_at_first(rest, b")")?;
    let piece = spelled_plainly(alloc, text)?;
    for _ in 0..number(count)? {
        bytes.extend_from_slice(piece.as_slice())?;
    }
    Ok(rest)
}

// The text before the first occurrence of a mark, and the text after it.
fn split_at_first<'a>(text: &'a [u8], mark: &[u8]) -> Result<(&'a [u8], &'a [u8]), Why>
    ensures { IfOk result (λ parts. length parts.1.now ≤ length text.now) }
{
    for at in 0..text.len() {
        let (before, from) = text.split_at(at);
        if let Some(rest) = from.strip_prefix(mark) {
            return Ok((before, rest));
        }
    }
    Err(Why("a repetition that is not \\(TEXT * NUMBER)"))
}

// The bytes of a text that repeats nothing.
fn spelled_plainly(alloc: Global, text: &[u8]) -> Result<Vec<u8>, Why> {
    let mut bytes = Vec::new(alloc);
    let mut rest = text;
    while !rest.is_empty() {
        rest = spell_one(rest, &mut bytes)?;
    }
    Ok(bytes)
}

// The number of these digits.
fn number(digits: &[u8]) -> Result<u32, Why> {
    let text = str::from_utf8(digits).map_err(|_| Why("a number that is none"))?;
    text.parse::<u32>()
        .map_err(|_| Why("a number that is none"))
}
