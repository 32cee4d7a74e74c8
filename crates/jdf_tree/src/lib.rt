//! The tree of a JDF text and of the text of a body; the grammars of the whole language, and the first fault of a text,
//! as definitions.
#![tactic(auto)]

mod body;
mod code;
mod expression;
mod laws;
mod part;
mod tree;

pub use body::{BlockTree, StmtTree};
pub use code::code_at_token;
pub use expression::{ExprNode, ExprTree, ExprWithSpot, Word};
pub use laws::trees_are_within_limits;
pub use part::Part;
pub use tree::{ArgTree, ClassTree, DefTree, DepTree, FlowTree, Jdf, TargetTree};
