//! Rows of a list, each of which is put as lines.

ghost use Rattle.std.specs.Prelude.{flat_map};
ghost use Rattle.report_text.specs.Puts.{Puts};

use crate::pieces::Pieces;
use plan_core::Plan;
use ptg_io::{Failed, Sink};

/// A row of a list, which a plan puts in words.
pub trait Row {
    ghost use Rattle.std.specs.Prelude.{List, ℕ};
    ghost use Rattle.plan_core.specs.declared.plan.Plan.{Plan as PlanOf};

    /// Its lines.
    ghost lines: { PlanOf → Self → List ℕ };

    /// Puts its lines.
    fn put<'a, O: Sink>(
        &'a self,
        sink: &mut O,
        out: &mut Pieces,
        plan: &'a Plan,
    ) -> Result<(), Failed>
        ensures { Puts O.bytes O.faults result sink.old out.old sink.new out.new (lines plan.now self.now) };
}

/// Puts the lines of the rows of a list.
pub fn put_list<O: Sink, T: Row>(
    sink: &mut O,
    out: &mut Pieces,
    plan: &Plan,
    rows: &[T],
) -> Result<(), Failed>
    ensures { Puts O.bytes O.faults result sink.old out.old sink.new out.new (flat_map (T.lines plan.now) rows.now) }
{
    for row in rows {
        row.put(sink, out, plan)?;
    }
    Ok(())
}
