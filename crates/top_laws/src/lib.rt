//! Laws of commands that no program cites: arguments and files denote one verdict, or several only for a trace, and
//! `replay` accepts what `trace` prints. Others say which settings change nothing, how many bytes a preload takes with
//! one type, and how the program's clauses hold over known files.
#![tactic(auto)]

mod known;
mod laws;

pub use known::{loads_are_files, over_known_files, reads_determine_the_loads};
pub use laws::{
    one_job, one_meaning, settings_change_nothing_else, some_meaning, traces_replay,
    with_one_type_the_preload_is_a_product,
};
