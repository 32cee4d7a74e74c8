//! Kinds of lexical units.

use crate::kind::TokenKind;

/// The kind of a lexical unit: a token, or a blank or comment between tokens.
#[derive(Clone, Copy, Debug, PartialEq, Eq)]
pub enum LexicalUnit {
    /// One space, tab, CR or LF.
    Blank,
    /// `//` up to the end of the line.
    LineComment,
    /// `/*` up to and including the first `*/` after it.
    BlockComment,
    /// A token of this kind.
    TokenOf(TokenKind),
}
