//! Edges, write-backs and items.

use crate::place::Place;
use crate::task::TaskId;

/// An edge: a flow of one task sends its tile to a flow of another task, or of the same task.
///
/// Edges are in order of the first field that differs.
#[derive(Debug, Drop, PartialEq, Eq, PartialOrd, Ord, Hash)]
pub struct Edge {
    pub from: TaskId,
    pub out_flow: u8,
    pub to: TaskId,
    pub in_flow: u8,
}

/// A write-back: a flow of a task writes its tile to a place of a collection.
///
/// Write-backs are in order of the first field that differs.
#[derive(Debug, Drop, PartialEq, Eq, PartialOrd, Ord, Hash)]
pub struct WriteBack {
    pub from: TaskId,
    pub flow: u8,
    pub place: Place,
}

/// What a task sends: an edge or a write-back. Edges come before write-backs.
#[derive(Debug, Drop, PartialEq, Eq, PartialOrd, Ord, Hash)]
pub enum Item {
    Edge(Edge),
    Write(WriteBack),
}
