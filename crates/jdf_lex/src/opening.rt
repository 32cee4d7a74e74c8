//! Which lexical unit begins at a position.

ghost use Rattle.std.specs.Prelude.{◌≡◌, ◌∷◌};
ghost use Rattle.jdf_lex.specs.Spelling.{begins_part, begins_option, begins_mark, plain_unit, unit_at};

use crate::bytes::{is_blank, is_digit, mark_len};
use crate::kind::TokenKind;
use crate::lexical_unit::LexicalUnit;
use ptg_base::{is_letter, is_part};

// Whether the first byte may continue a name.
fn begins_part(rest: &[u8]) -> bool
    ensures { result ≡ begins_part rest.now }
{
    match rest.first() {
        Some(b) => is_part(*b),
        None => false,
    }
}

// Whether `%option` is at the front, and no letter, digit or `_` follows it.
fn begins_option(rest: &[u8]) -> bool
    ensures { result ≡ begins_option rest.now }
{
    rest.starts_with(b"%option") && !begins_part(&rest[7..])
}

// Whether a mark is at the front.
fn begins_mark(rest: &[u8]) -> bool
    ensures { result ≡ begins_mark rest.now }
{
    mark_len(rest) > 0
}

// The unit that begins with the byte `b`, if it is not a comment, a raw block or an option line.
fn plain_unit(b: u8, rest: &[u8], whole: &[u8]) -> LexicalUnit
    requires { whole.now ≡ b ∷ rest.now }
    ensures { result ≡ plain_unit b rest.now }
{
    if b == b'"' {
        return LexicalUnit::TokenOf(TokenKind::Quoted);
    }
    if is_blank(b) {
        return LexicalUnit::Blank;
    }
    if is_letter(b) {
        return LexicalUnit::TokenOf(TokenKind::Name);
    }
    if is_digit(b) {
        return LexicalUnit::TokenOf(TokenKind::Number);
    }
    if begins_mark(whole) {
        return LexicalUnit::TokenOf(TokenKind::Mark);
    }
    LexicalUnit::TokenOf(TokenKind::Other)
}

/// The lexical unit that begins a text, decided by its first bytes.
pub fn unit_at(rest: &[u8]) -> Option<LexicalUnit>
    ensures { result ≡ unit_at rest.now }
{
    let (b, after) = rest.split_first()?;
    if rest.starts_with(b"//") {
        return Some(LexicalUnit::LineComment);
    }
    if rest.starts_with(b"/*") {
        return Some(LexicalUnit::BlockComment);
    }
    if rest.starts_with(b"%{") {
        return Some(LexicalUnit::TokenOf(TokenKind::Raw));
    }
    if begins_option(rest) {
        return Some(LexicalUnit::TokenOf(TokenKind::OptionLine));
    }
    Some(plain_unit(*b, after, rest))
}
