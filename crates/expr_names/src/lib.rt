//! Resolves the names of an expression, in bodies and elsewhere, or returns the fault that is reported of its names.
#![tactic(auto)]

mod expression;
mod meaning;
mod symbols;

pub use expression::term_of;
pub use meaning::{Meaning, outer_meaning, value_of};
pub use symbols::Symbols;
