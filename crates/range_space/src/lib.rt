//! The values of ranges, and the tasks of a class with their locals: one after another in walk order, and how many
//! there are.
#![tactic(auto)]

mod all_locals;
mod fault;
mod laws;
mod member;
mod numbers;
mod size;
mod steps;
mod tasks;
mod values;
mod walk;

pub use all_locals::AllLocals;
pub use fault::{SpaceFault, SpanFault};
pub use laws::{a_task_has_one_list_of_locals, one_first_fault, tasks_are_distinct};
pub use member::{fill_locals, find_locals, in_space, locals_of, param_value};
pub use numbers::Numbers;
pub use size::space_size;
pub use steps::{Steps, steps_of};
pub use tasks::Space;
pub use values::Values;
