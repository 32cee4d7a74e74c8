//! What the tile of a data flow may come from.

use ptg_base::{Edge, Place};

/// Where the tile of a data flow of a task comes from.
#[derive(Drop)]
pub enum Source {
    /// A flow of a task, by this edge.
    Task(Edge),
    /// An element of a collection, as the data give it.
    Place(Place),
    /// A tile of zeros.
    New,
    /// No tile: the flow is absent.
    Null,
    /// No in dependence of the flow holds.
    Nothing,
}
