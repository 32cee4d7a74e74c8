//! The parts of a text that expressions are in.

/// The part of a text that an expression is in. In a body more words are reserved, and flows have elements.
#[derive(Clone, Copy, Debug, PartialEq, Eq)]
pub enum Part {
    /// A class, outside of its body.
    Class,
    /// The body of a class.
    Body,
}
