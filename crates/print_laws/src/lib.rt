//! Laws of the canonical spelling that no program cites: it reads back as the tree that it spells. In the tree of a
//! text, class names are spelled as names, and numbers in definitions have 64 bits.
#![tactic(auto)]

mod laws;

pub use laws::{reads_back, trees_are_spelled};
