//! Laws of texts that no program cites. A predictive grammar is read exactly; lexical units are the longest in their
//! written forms; a text has tokens or a first fault, and a tree or a first fault.
#![tactic(auto)]

mod grammar;
mod laws;

pub use grammar::{JdfGrammar, PredictiveGrammar, is_read_exactly};
pub use laws::{
    longest_is_taken, numbers_are_exact, tokens_or_one_fault, tree_or_fault, units_as_written,
};
