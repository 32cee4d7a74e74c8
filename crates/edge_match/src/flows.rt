//! Checks of the flows of a task.

ghost use Rattle.std.specs.Prelude.{◌≡◌, ◌≢◌, ◌↔◌, IsTrue, drop};
ghost use Rattle.ptg_base.specs.declared.place.Place.{Place as PlaceValue};
ghost use Rattle.plan_core.specs.Place.{HasPlace};
ghost use Rattle.dep_iter.specs.declared.source.Source.TheVariants as source_variant;
ghost use Rattle.dep_iter.specs.Consistent as consistent;
ghost use Rattle.dep_iter.specs.Edges.{data_source};
ghost use Rattle.dep_iter.specs.Tasks.{flows_of};
ghost use Rattle.dep_iter.specs.Active.{by_number};
ghost use Rattle.edge_match.specs.Counted.{Checked};
ghost use Rattle.edge_match.specs.Marks.{direction_marks, flow_marks, flow_start};
ghost use Rattle.edge_match.specs.declared.counted.Counted.{Counted as CountedValue};
ghost use Rattle.edge_match.specs.FlowParts.{plan_of, task_of};

use crate::counted::Counted;
use crate::dependences::check_dependences;
use crate::fault::{MatchCode, MatchFault};
use crate::flow_at::FlowAt;
use crate::phase::Phase;
use dep_iter::{Source, TaskAt};
use plan_core::Plan;
use term_core::{Direction, FlowKind};

// Whether a flow of this kind with this source has an in dependence that holds, if it must.
fn has_input(kind: FlowKind, source: &Source) -> bool
    ensures { IsTrue result ↔ (IsTrue (consistent.takes_tile kind) → source.now ≢ source_variant.Nothing) }
{
    match source {
        Source::Nothing => !kind.takes_tile(),
        _ => true,
    }
}

// Whether the source is not `NULL`.
fn has_tile(source: &Source) -> bool
    ensures { IsTrue result ↔ (source.now ≢ source_variant.Null) }
{
    !matches!(source, Source::Null)
}

// Whether the place of the source exists, if it is one.
fn has_place(plan: &Plan, source: &Source) -> bool
    ensures { IsTrue result ↔ ((p : PlaceValue) → source.now ≡ source_variant.Place p → HasPlace plan.now.colls p) }
{
    match source {
        Source::Place(p) => plan.has_place(p),
        _ => true,
    }
}

// Checks in the first phase that the flow has a source, if it must, and that the place of its source exists.
fn start_flow(at: &FlowAt, source: &Source) -> Result<(), MatchFault>
    requires { source.now ≡ data_source (plan_of at.now) (task_of at.now) at.now.number }
    ensures { (s : CountedValue) → Checked (plan_of at.now) s s result
        (flow_start at.now.phase (plan_of at.now) (task_of at.now) at.now.number at.now.flow.now) }
{
    match at.phase {
        Phase::Connecting => {
            at.require(has_input(at.flow.kind, source), MatchCode::NoInput)?;
            at.require(has_place(at.task.plan, source), MatchCode::BadPlace)
        }
        Phase::Matching => Ok(()),
    }
}

// Checks the edges of the flow in one direction; for `Out`, its write-backs too.
fn check_direction(
    at: &FlowAt,
    direction: Direction,
    counted: &mut Counted,
) -> Result<(), MatchFault>
    ensures { Checked (plan_of at.now) counted.old counted.new result
        (direction_marks direction at.now.phase (plan_of at.now) (task_of at.now) at.now.number at.now.flow.now) }
{
    check_dependences(at, direction, 0, counted)
}

// Checks the flow, the edges into it and what it sends.
fn check_flow(at: &FlowAt, source: &Source, counted: &mut Counted) -> Result<(), MatchFault>
    requires { source.now ≡ data_source (plan_of at.now) (task_of at.now) at.now.number }
    ensures { Checked (plan_of at.now) counted.old counted.new result
        (flow_marks at.now.phase (plan_of at.now) (task_of at.now) at.now.number at.now.flow.now) }
{
    start_flow(at, source)?;
    check_direction(at, Direction::In, counted)?;
    check_direction(at, Direction::Out, counted)
}

// Checks the flows of a task from this number on.
pub(crate) fn check_flows(
    phase: Phase,
    task: &TaskAt,
    number: u8,
    counted: &mut Counted,
) -> Result<(), MatchFault>
    ensures { Checked task.now.plan.now counted.old counted.new result
        (by_number (flow_marks phase task.now.plan.now task.now.task.now) number
        (drop number (flows_of task.now.plan.now task.now.task.now))) }
{
    let Some(flow) = task.flow(number) else {
        return Ok(());
    };
    let source = task.data_source(number);
    let at = FlowAt {
        phase,
        task: &*task,
        number,
        flow,
        has_tile: has_tile(&source),
    };
    check_flow(&at, &source, counted)?;
    check_flows(phase, task, number + 1, counted)
}
