//! Messages between ranks.

use ptg_base::{Edge, Tile};

/// A message from one rank to another: an edge and its tile. An edge to a CTL flow has no tile.
#[derive(Drop)]
pub struct Message {
    pub edge: Edge,
    pub tile: Option<Tile>,
}
