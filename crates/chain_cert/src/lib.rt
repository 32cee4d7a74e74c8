//! A greatest legal order of the tasks of a job, from its edges alone. Chains, cycles, weights and levels of tasks; what
//! a certificate of a job is; `certify`, which makes it.
#![tactic(auto)]

mod certificate;
mod certifying;
mod class_weights;
mod greatest;
mod lacking;
mod laws;
mod leftover;
mod leveling;
mod longest;
mod order;
mod order_builder;
mod roots;
mod tasks;
mod walking;

pub use certificate::Certificate;
pub use certifying::certify;
pub use class_weights::weights;
pub use greatest::greatest_level;
pub use laws::a_task_outside_has_a_source_outside;
pub use order::order_of;
pub use tasks::{is_before, weight_of};
