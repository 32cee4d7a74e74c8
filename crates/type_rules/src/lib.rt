//! Resolves the names of a JDF outside bodies, in its expressions, arguments and definitions, and the targets,
//! dependences, datatypes and flows of a class, or returns their first fault.
#![tactic(auto)]

mod argument;
mod coll_element;
mod context;
mod datatype;
mod definition;
mod dependence;
mod expression;
mod fault;
mod flow_laws;
mod kind;
mod name_laws;
mod part;
mod repeat;
mod rule;
mod target;

pub use argument::{arguments, indices, no_ranges, range};
pub use coll_element::element;
pub use context::{Context, Globals, class_named, coll_named, int_named};
pub use definition::space;
pub use dependence::flow;
pub use expression::{option_term, term_of};
pub use fault::fault_if;
pub use flow_laws::{a_resolved_element_exists, a_resolved_flow_is_well_made};
pub use name_laws::{a_resolved_space_is_well_made, names_given_once_are_distinct};
pub use part::{and_rules, join, refused, with_part};
pub use repeat::{HasName, repeats};
pub use target::first_spot;
