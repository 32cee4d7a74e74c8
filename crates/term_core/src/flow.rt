//! Kinds of flows.

ghost use Rattle.std.specs.Prelude.{◌≡◌};
ghost use Rattle.term_core.specs.Kinds as kinds;

use crate::direction::Direction;

/// What a flow of a task does with its tile.
#[derive(Clone, Copy, Debug, PartialEq, Eq)]
pub enum FlowKind {
    /// Takes a tile and passes it on unchanged.
    Read,
    /// Starts with zeros or with a tile of a collection, and changes it.
    Write,
    /// Takes a tile and changes it.
    Rw,
    /// Carries order alone, and no tile.
    Ctl,
}

impl FlowKind {
    /// Whether it carries order alone, and no tile.
    pub fn is_control(self) -> bool
        ensures { result ≡ kinds.is_control self }
    {
        match self {
            FlowKind::Read => false,
            FlowKind::Write => false,
            FlowKind::Rw => false,
            FlowKind::Ctl => true,
        }
    }

    /// Whether it carries a tile.
    pub fn is_data(self) -> bool
        ensures { result ≡ kinds.is_data self }
    {
        match self {
            FlowKind::Read => true,
            FlowKind::Write => true,
            FlowKind::Rw => true,
            FlowKind::Ctl => false,
        }
    }

    /// Whether its tile is only written, so that no task may send it one.
    pub fn is_write(self) -> bool
        ensures { result ≡ kinds.is_write self }
    {
        match self {
            FlowKind::Read => false,
            FlowKind::Write => true,
            FlowKind::Rw => false,
            FlowKind::Ctl => false,
        }
    }

    /// Whether it takes a tile, so that one of its in dependences must hold.
    pub fn takes_tile(self) -> bool
        ensures { result ≡ kinds.takes_tile self }
    {
        match self {
            FlowKind::Read => true,
            FlowKind::Write => false,
            FlowKind::Rw => true,
            FlowKind::Ctl => false,
        }
    }

    /// Whether, of its dependences in this direction, only the first one that holds is active.
    pub fn first_only(self, direction: Direction) -> bool
        ensures { result ≡ kinds.first_only direction self }
    {
        match direction {
            Direction::In => self.is_data(),
            Direction::Out => false,
        }
    }
}
