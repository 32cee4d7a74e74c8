//! The edges of a task in both directions, computed during the walk and never stored. Also the tasks of a plan and what
//! their classes say of them, and when a job is consistent.
#![tactic(auto)]

mod argument;
mod combining;
mod counts;
mod edges;
mod ends;
mod guard;
mod hints;
mod item;
mod laws;
mod lent;
mod link;
mod links;
mod locals;
mod matched;
mod membership;
mod near_end;
mod place;
mod position;
mod single;
mod source;
mod task;
mod task_at;
mod task_items;
mod task_walk;
mod tile_source;
mod well;
mod write_position;
mod writes;

pub use combining::Combinations;
pub use counts::Counts;
pub use edges::{InEdges, OutEdges, TaskEdges, in_edges, out_edges};
pub use ends::has_other_end;
pub use guard::{guard_value, held_target, target_by};
pub use hints::{affinity, place_number, priority};
pub use laws::{
    a_task_has_no_more_edges_than_the_job, all_tasks_are_listed, edges_are_links,
    edges_of_a_dependence_differ,
};
pub use lent::LentEdge;
pub use link::Link;
pub use links::arguments_at_most;
pub use matched::Matched;
pub use membership::{has_combination, has_edge_before};
pub use place::place_of;
pub use position::Position;
pub use single::push_only;
pub use source::Source;
pub use task::{fill_locals, find_locals, flows_of, is_task, locals_of};
pub use task_at::TaskAt;
pub use task_items::TaskItems;
pub use task_walk::{Tasks, all_tasks};
pub use tile_source::data_source;
pub use well::{IllTask, has_arguments, well_task};
pub use writes::{WriteBacks, write_backs};
