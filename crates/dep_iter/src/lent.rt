//! Edges whose tasks are borrowed.

ghost use Rattle.std.specs.Prelude.{◌≡◌};
ghost use Rattle.dep_iter.specs.Directions as directions;

use ptg_base::{Edge, TaskId};
use std::marker::Model;
use term_core::Direction;

/// An edge whose tasks are borrowed, so that no task is copied. Contracts see it as the edge.
#[derive(Drop)]
pub struct LentEdge<'a> {
    from: &'a TaskId,
    out_flow: u8,
    to: &'a TaskId,
    in_flow: u8,
}

impl<'a> Model for LentEdge<'a> {
    ghost use Rattle.ptg_base.specs.declared.edge.Edge.{Edge};
    ghost use Rattle.dep_iter.specs.Edges.{edge};

    ghost Value = { Edge };

    ghost view = { λ e. edge e.from.now e.out_flow e.to.now e.in_flow };
}

impl<'a> LentEdge<'a> {
    /// This edge, with its tasks borrowed.
    pub fn of(edge: &'a Edge) -> LentEdge<'a>
        ensures { result ≡ edge.now }
    {
        LentEdge {
            from: &edge.from,
            out_flow: edge.out_flow,
            to: &edge.to,
            in_flow: edge.in_flow,
        }
    }

    /// The edge between a flow of the near task and a flow of the far one: into the near task for `In`, out of it for
    /// `Out`.
    pub fn between(
        direction: Direction,
        near: &'a TaskId,
        near_flow: u8,
        far: &'a TaskId,
        far_flow: u8,
    ) -> LentEdge<'a>
        ensures { result ≡ directions.edge_at direction near.now near_flow far.now far_flow }
    {
        match direction {
            Direction::In => LentEdge {
                from: far,
                out_flow: far_flow,
                to: near,
                in_flow: near_flow,
            },
            Direction::Out => LentEdge {
                from: near,
                out_flow: near_flow,
                to: far,
                in_flow: far_flow,
            },
        }
    }

    /// The task whose edge this is, in this direction: the target for `In`, the source for `Out`.
    pub fn near_task(&self, direction: Direction) -> &TaskId
        ensures { result.now ≡ directions.near_task direction self.now }
    {
        match direction {
            Direction::In => self.to,
            Direction::Out => self.from,
        }
    }

    /// The number of the flow of that task.
    pub fn near_flow(&self, direction: Direction) -> u8
        ensures { result ≡ directions.near_flow direction self.now }
    {
        match direction {
            Direction::In => self.in_flow,
            Direction::Out => self.out_flow,
        }
    }

    /// The task at the other end of the edge.
    pub fn far_task(&self, direction: Direction) -> &TaskId
        ensures { result.now ≡ directions.far_task direction self.now }
    {
        match direction {
            Direction::In => self.from,
            Direction::Out => self.to,
        }
    }

    /// The number of the flow of that task.
    pub fn far_flow(&self, direction: Direction) -> u8
        ensures { result ≡ directions.far_flow direction self.now }
    {
        match direction {
            Direction::In => self.out_flow,
            Direction::Out => self.in_flow,
        }
    }
}
