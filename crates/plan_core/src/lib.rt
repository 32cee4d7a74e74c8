//! A plan: a job with all its names resolved into numbers of classes, flows, locals and collections. The parts of a
//! plan always fit one another.
#![tactic(auto)]

mod class;
mod flow;
mod names;
mod plan;
mod shape;
mod target;

pub use class::{AffinityPlan, ClassPlan};
pub use flow::{DepPlan, FlowPlan};
pub use names::{class_name, flow_name};
pub use plan::Plan;
pub use shape::Shape;
pub use target::{Arg, Target};
