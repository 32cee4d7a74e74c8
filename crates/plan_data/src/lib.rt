//! When data fit a plan: they have its collections and datatypes, and so a tile at each of its places.
#![tactic(auto)]

mod fit;
mod laws;

pub use fit::opening_tile;
pub use laws::places_of_the_plan_are_places_of_the_data;
