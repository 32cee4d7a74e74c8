//! The type check: the plan of a JDF with its data, or the first fault of the whole text. Also the globals of a JDF by
//! name, and whether the data lack one.
#![tactic(auto)]

mod checking;
mod class;
mod globals;
mod head;
mod laws;
mod missing_globals;
mod plan;
mod scope;
mod whole;

pub use checking::check;
pub use globals::globals_of;
pub use laws::{one_answer, what_is_resolved_is_a_plan};
pub use missing_globals::missing;
