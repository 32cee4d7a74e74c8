//! Reads a JDF text into its tree, or returns its first fault.
#![tactic(auto)]

mod argument;
mod body;
mod class;
mod dependence;
mod flow;
mod globals;
mod head;
mod laws;
mod target;
mod text;

pub use laws::{one_fault, one_tree};
pub use text::read;
