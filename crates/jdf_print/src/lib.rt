//! Prints the canonical spelling of a JDF tree.
#![tactic(auto)]

mod argument;
mod body;
mod class;
mod expression;
mod number;
mod printing;
mod target;
mod writer;

pub use printing::print;
