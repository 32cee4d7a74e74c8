//! The codes of faults.

/// What is wrong with a text at one of its tokens.
#[derive(Clone, Copy, Debug, PartialEq, Eq)]
pub enum Code {
    /// No text of the grammar goes on with this token, or the tokens end and are no text.
    Syntax,
    /// A code that the grammar states for a token or a limit, by its number.
    Stated(u8),
}
