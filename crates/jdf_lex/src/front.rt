//! Length of the lexical unit at a position.

ghost use Rattle.std.specs.Prelude.{◌≡◌, ◌≤◌, ◌+◌, ℕ, false, length, Some, option_map};
ghost use Rattle.std.specs.List.{prefix_len};
ghost use Rattle.jdf_lex.specs.Spelling.{continues, ends_unit, affects_next};
ghost use Rattle.jdf_lex.specs.Reading.{closed_len, unit_len, front_unit};

use crate::bytes::{continues_character, is_not_lf, mark_len};
use crate::kind::TokenKind;
use crate::lexical_unit::LexicalUnit;
use crate::opening::unit_at;
use ptg_base::is_part;

// Whether the byte continues a unit that has no closing mark.
fn continues(unit: LexicalUnit, b: u8) -> bool
    ensures { result ≡ continues unit b }
{
    match unit {
        LexicalUnit::LineComment | LexicalUnit::TokenOf(TokenKind::OptionLine) => is_not_lf(b),
        LexicalUnit::TokenOf(TokenKind::Name | TokenKind::Number) => is_part(b),
        LexicalUnit::TokenOf(TokenKind::Other) => continues_character(b),
        _ => false,
    }
}

// Whether the byte ends a unit that has a closing mark. `affected`: the byte before it escapes it, or may begin the
// closing mark with it.
fn ends_unit(unit: LexicalUnit, affected: bool, b: u8) -> bool
    ensures { result ≡ ends_unit unit affected b }
{
    match unit {
        LexicalUnit::BlockComment => affected && b == b'/',
        LexicalUnit::TokenOf(TokenKind::Raw) => affected && b == b'}',
        LexicalUnit::TokenOf(TokenKind::Quoted) => !affected && b == b'"',
        _ => false,
    }
}

// Whether the byte escapes the next byte, or may begin a closing mark with it.
fn affects_next(unit: LexicalUnit, affected: bool, b: u8) -> bool
    ensures { result ≡ affects_next unit affected b }
{
    match unit {
        LexicalUnit::BlockComment => b == b'*',
        LexicalUnit::TokenOf(TokenKind::Raw) => b == b'%',
        LexicalUnit::TokenOf(TokenKind::Quoted) => !affected && b == b'\\',
        _ => false,
    }
}

// The number of bytes at the front that continue the unit.
fn run_len(unit: LexicalUnit, rest: &[u8]) -> usize
    ensures value { result ≡ prefix_len (continues unit) rest.now }
    ensures within { result ≤ length rest.now }
{
    for (i, b) in rest.iter().enumerate() {
        if !continues(unit, *b) {
            return i;
        }
    }
    rest.len()
}

// The number of bytes up to and including the end of the unit, if the text ends it.
fn closed_len(unit: LexicalUnit, rest: &[u8]) -> Option<usize>
    ensures value { result ≡ closed_len unit false rest.now }
    ensures within { (n : ℕ) → result ≡ Some n → n ≤ length rest.now }
{
    let mut affected = false;
    for (i, b) in rest.iter().enumerate() {
        if ends_unit(unit, affected, *b) {
            return Some(i + 1);
        }
        affected = affects_next(unit, affected, *b);
    }
    None
}

// The length of a unit from the length of its opening and the bytes after the opening.
fn opened_len(unit: LexicalUnit, opening: usize, rest: &[u8]) -> Option<usize>
    requires { opening ≤ 2 }
    ensures { result ≡ option_map (λ len. opening + len) (closed_len unit false rest.now) }
{
    let n = closed_len(unit, rest)?;
    Some(opening + n)
}

// The length of the unit at the front, if the text ends it.
fn unit_len(unit: LexicalUnit, rest: &[u8]) -> Option<usize>
    ensures { result ≡ unit_len unit rest.now }
{
    let (_, after) = rest.split_first()?;
    match unit {
        LexicalUnit::BlockComment | LexicalUnit::TokenOf(TokenKind::Raw) => {
            let (_, inner) = after.split_first()?;
            opened_len(unit, 2, inner)
        }
        LexicalUnit::TokenOf(TokenKind::Quoted) => opened_len(unit, 1, after),
        LexicalUnit::TokenOf(TokenKind::Mark) => Some(mark_len(rest)),
        _ => Some(1 + run_len(unit, after)),
    }
}

/// The lexical unit at the front, with its length, if the text ends it.
pub fn front_unit(rest: &[u8]) -> Option<(LexicalUnit, usize)>
    ensures { result ≡ front_unit rest.now }
{
    let unit = unit_at(rest)?;
    let len = unit_len(unit, rest)?;
    Some((unit, len))
}
