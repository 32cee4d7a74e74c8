//! The two directions of edges and of dependences.

ghost use Rattle.std.specs.Prelude.{◌≡◌};
ghost use Rattle.term_core.specs.Directions as directions;

/// A direction of the edges of a task or of a flow, or of the dependences of a flow.
#[derive(Clone, Copy, Debug, PartialEq, Eq)]
pub enum Direction {
    /// Into the task or flow.
    In,
    /// Out of the task or flow.
    Out,
}

impl Direction {
    /// The other direction.
    pub fn opposite(self) -> Direction
        ensures { result ≡ directions.opposite self }
    {
        match self {
            Direction::In => Direction::Out,
            Direction::Out => Direction::In,
        }
    }
}
