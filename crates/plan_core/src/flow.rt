//! Flows of a plan and their dependences.

ghost use Rattle.std.specs.Prelude.{◌≡◌};
ghost use Rattle.plan_core.specs.Flows as flows;

use crate::target::Target;
use ptg_base::{Seq, Text};
use term_core::{Direction, Expr, FlowKind};

/// A dependence on `yes` if it has no guard or its guard is not 0, else on `no`, if there is one.
pub struct DepPlan {
    pub guard: Option<Expr>,
    pub yes: Target,
    pub no: Option<Target>,
}

impl Drop for DepPlan {
    fn drop(self) {
        let DepPlan {
            guard: _guard,
            yes: _yes,
            no: _no,
        } = self;
    }
}

/// A flow of a class.
pub struct FlowPlan {
    pub name: Text,
    pub kind: FlowKind,
    /// The number of the type of its tiles; 0 for a CTL flow, which has no tiles.
    pub datatype: u32,
    /// Its in dependences, in the text's order.
    pub ins: Seq<DepPlan>,
    /// Its out dependences, in the text's order.
    pub outs: Seq<DepPlan>,
}

impl Drop for FlowPlan {
    fn drop(self) {
        let FlowPlan {
            name: _name,
            kind: _kind,
            datatype: _datatype,
            ins: _ins,
            outs: _outs,
        } = self;
    }
}

impl FlowPlan {
    /// Its dependences in this direction.
    pub fn dependences(&self, direction: Direction) -> &[DepPlan]
        ensures { result.now ≡ flows.dependences direction self.now }
    {
        match direction {
            Direction::In => self.ins.as_slice(),
            Direction::Out => self.outs.as_slice(),
        }
    }
}
