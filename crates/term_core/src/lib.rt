//! Expressions, integer arithmetic and the one evaluator; the types of ranges, spaces, flows, directions, statements
//! and traps.
#![tactic(auto)]

mod arithmetic;
mod body;
mod bounding;
mod closed;
mod direction;
mod evaluate;
mod expr;
mod fault;
mod flow;
mod operator;
mod space;
mod trap;
mod value_bound;

pub use arithmetic::{arith, decide, unary};
pub use body::{Block, Body, Stmt};
pub use bounding::{are_small, bound_of};
pub use closed::is_closed;
pub use direction::Direction;
pub use evaluate::{ReadElement, eval, eval_with, local};
pub use expr::Expr;
pub use fault::ExprFault;
pub use flow::FlowKind;
pub use operator::{BinOp, UnOp};
pub use space::{ClassSpace, Def, Params, Range};
pub use trap::Trap;
pub use value_bound::ValueBound;
