//! The text of every answer and refusal, in pieces of 4,096 bytes, without memory.
#![tactic(auto)]

mod answer;
mod certificate;
mod codes;
mod demo_line;
mod fields;
mod links;
mod numbers;
mod pieces;
mod ranks_line;
mod refusal_line;
mod row_list;
mod rows;
mod tiles;

pub use answer::{consistent, report};
pub use certificate::{FoundCycle, HeaviestChain, found_cycle, heaviest_chain};
pub use demo_line::{Summary, summary_line};
pub use ranks_line::{RankedAnswer, ranked_answer};
pub use refusal_line::{Line, refusal};
