//! The list of the tokens of a text.

use grammar_core::{Spot, Token};
use ptg_base::Seq;

/// The tokens of a text in order, and the spot after its last byte.
#[derive(Drop)]
pub struct Lexed {
    pub tokens: Seq<Token>,
    pub end: Spot,
}
