//! Reads the body of a class: its text into a tree, and the tree into statements with all names resolved into slots,
//! numbers and flows. Returns the body, or its first fault. In a body whose text has a fault, it judges the names before
//! that fault.
#![tactic(auto)]

mod bindings;
mod expression;
mod flow;
mod front;
mod laws;
mod limits;
mod lookup;
mod names;
mod role;
mod scanner;
mod scope;
mod statement;
mod statement_text;
mod text;
mod variable;
mod whole;

pub use front::front_fault;
pub use laws::one_answer;
pub use names::resolve;
pub use scope::{FlowName, Scope};
pub use text::{read, tree};
pub use whole::read_body;
