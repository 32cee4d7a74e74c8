//! The tokens of a JDF text with their lines and columns, and the alphabet of its grammar: the terminals, the codes of
//! faults, and how long an expression may be.
#![tactic(auto)]

mod bytes;
mod code;
mod cursor;
mod fault;
mod front;
mod kind;
mod laws;
mod lex;
mod lexical_unit;
mod limit;
mod next;
mod opening;
mod terminal;
mod token;

pub use code::GrammarCode;
pub use fault::{JdfCode, JdfFault, JdfRefusal, fault_at};
pub use grammar_core::{Spot, Token};
pub use kind::TokenKind;
pub use laws::one_list_of_tokens;
pub use lex::tokens;
pub use lexical_unit::LexicalUnit;
pub use limit::expression_limit;
pub use next::{expect, is_next};
pub use terminal::Terminal;
pub use token::Lexed;
