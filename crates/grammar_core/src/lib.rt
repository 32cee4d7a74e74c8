//! Grammars as data over tokens with numbered terminals: what they derive, and with which first fault. They are read
//! with one token of lookahead, or two if productions begin alike; it is proved that both agree.
#![tactic(auto)]

mod code;
mod fault;
mod token;

pub use code::Code;
pub use fault::{ReadFault, ReadRefusal, refusal_at};
pub use token::{Spot, Token};
