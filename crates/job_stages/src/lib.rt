//! What a JDF and its data come to: a refusal, an inconsistency, or a consistent plan with its data.
#![tactic(auto)]

mod data_text;
mod jdf_text;
mod judging;
mod laws;
mod verdict;

pub use data_text::{data_too_long, given_of};
pub use jdf_text::{jdf_too_long, tree_of};
pub use judging::{job_of_texts, judge_data, judge_texts};
pub use laws::one_verdict;
pub use verdict::JobVerdict;
