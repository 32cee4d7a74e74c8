//! Kinds of tokens.

/// The kind of a token, decided by its spelling.
#[derive(Clone, Copy, Debug, PartialEq, Eq)]
pub enum TokenKind {
    /// A letter or `_`, then letters, digits and `_`.
    Name,
    /// A digit, then letters, digits and `_`.
    Number,
    /// `"` up to and including the next `"` that no backslash escapes.
    Quoted,
    /// `%{` up to and including the first `%}` after it.
    Raw,
    /// `%option` up to the end of its line.
    OptionLine,
    /// Punctuation, arrows and operators.
    Mark,
    /// Any other single character.
    Other,
}
