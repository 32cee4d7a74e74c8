//! Reads the expressions and the names of a JDF text.
#![tactic(auto)]

mod front;
mod names;
mod number;
mod operators;
mod precedence;
mod window;

pub use front::{fault_at, read_expr};
pub use names::{is_name_next, name};
pub use window::{guard, outer};
