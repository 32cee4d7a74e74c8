//! Tokens as a grammar sees them.

use ptg_base::Text;

/// A position in a text: its line and its column in bytes, both from 1.
#[derive(Clone, Copy, Debug, PartialEq, Eq)]
pub struct Spot {
    pub line: u32,
    pub column: u32,
}

/// A token: the number of its terminal in the alphabet of the text, its spot, and its bytes. These are the bytes of the
/// text from index `start` up to but not including `end`.
#[derive(Drop)]
pub struct Token {
    /// From 0 to 63. A larger number stands for its remainder by 64.
    pub terminal: u8,
    pub text: Text,
    pub start: u32,
    pub end: u32,
    pub spot: Spot,
}
