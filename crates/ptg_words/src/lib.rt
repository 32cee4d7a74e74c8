//! Parses the command line into the command of one of the eight verbs, with its numbers in range.
#![tactic(auto)]

mod clap_words;
mod laws;
mod options;
mod order;
mod reading;
mod verb;
mod verbs;

pub use laws::{commands_have_numbers_in_range, files_are_text};
pub use order::{Order, WordsRefusal};
pub use reading::words;
pub use verbs::Verb;
