//! Checks of an edge or of a write-back of a flow.

ghost use Rattle.std.specs.Prelude.{◌≡◌, ◌↔◌, List};
ghost use Rattle.ptg_base.specs.Lists.{IsIn};
ghost use Rattle.ptg_base.specs.declared.edge.Edge.{Edge as EdgeValue};
ghost use Rattle.ptg_base.specs.declared.edge.WriteBack.{WriteBack as WriteBackValue};
ghost use Rattle.term_core.specs.declared.direction.Direction.TheVariants.{In};
ghost use Rattle.plan_core.specs.declared.plan.Plan.{Plan as PlanValue};
ghost use Rattle.dep_iter.specs.Consistent.{is_data_edge};
ghost use Rattle.dep_iter.specs.Directions.{near_flow, near_task};
ghost use Rattle.edge_match.specs.Counted.{Decides};
ghost use Rattle.edge_match.specs.FlowParts.{CheckedAt, before_at, task_of};
ghost use Rattle.edge_match.specs.FirstFault.{fact_code};
ghost use Rattle.edge_match.specs.Marks.{HasOther, counts, edge_marks, tile_marks, write_marks};
ghost use Rattle.edge_match.specs.declared.counted.Counted.{Counted as CountedValue};
ghost use Rattle.edge_match.specs.declared.phase.Phase.{Phase as PhaseValue};
ghost use Rattle.edge_match.specs.declared.phase.Phase.TheVariants as phase;

use crate::counted::Counted;
use crate::fault::{MatchCode, MatchFault};
use crate::flow_at::FlowAt;
use crate::phase::Phase;
use dep_iter::{LentEdge, has_edge_before, has_other_end, is_task};
use ptg_base::Place;
use term_core::Direction;

// The code of an edge that the task at its other end does not have.
fn unmatched(direction: Direction) -> MatchCode
    ensures { (e : EdgeValue) → fact_code (HasOther direction e) ≡ result }
{
    match direction {
        Direction::In => MatchCode::NoMatchingOut,
        Direction::Out => MatchCode::NoMatchingIn,
    }
}

// Counts an edge, which may carry a tile. Returns false if the limit is reached.
fn count_edge(direction: Direction, carries_tile: bool, counted: &mut Counted) -> bool
    ensures { (P : PlanValue) (e : EdgeValue) → (direction ≡ In → is_data_edge P e ≡ carries_tile)
        → Decides P counted.old counted.new result (counts direction e) }
{
    match direction {
        Direction::In => counted.add_in(carries_tile),
        Direction::Out => counted.add_item(),
    }
}

// Checks that a flow that sends something has a tile.
fn check_tile(at: &FlowAt, direction: Direction) -> Result<(), MatchFault>
    ensures { (p : PhaseValue) (s : CountedValue) → CheckedAt p at.now s s result (λ _. tile_marks direction) }
{
    match direction {
        Direction::In => Ok(()),
        Direction::Out => at.require(at.has_tile, MatchCode::NullSent),
    }
}

// Checks that the flow has a tile if it sends the edge, that the edge's other task exists, and that there are not too
// many edges.
fn connect_edge(
    at: &FlowAt,
    direction: Direction,
    edge: &LentEdge,
    counted: &mut Counted,
) -> Result<(), MatchFault>
    requires task { near_task direction edge.now ≡ (task_of at.now) }
    requires flow { near_flow direction edge.now ≡ at.now.number }
    ensures { (earlier : List EdgeValue)
        → CheckedAt phase.Connecting at.now counted.old counted.new result (edge_marks direction earlier edge.now) }
{
    check_tile(at, direction)?;
    at.require(
        is_task(at.task.plan, edge.far_task(direction)),
        MatchCode::OutOfSpace,
    )?;
    let fits = count_edge(direction, at.flow.kind.is_data(), counted);
    at.require(fits, MatchCode::TooManyEdges)
}

// Checks that the task at the other end of the edge has it too, and that it comes from no dependence of the flow before
// `k`.
fn match_edge(
    at: &FlowAt,
    direction: Direction,
    k: usize,
    edge: &LentEdge,
) -> Result<(), MatchFault>
    requires task { near_task direction edge.now ≡ (task_of at.now) }
    requires flow { near_flow direction edge.now ≡ at.now.number }
    ensures { (earlier : List EdgeValue) (s : CountedValue)
        → IsIn edge.now earlier ↔ IsIn edge.now (before_at direction at.now k)
        → CheckedAt phase.Matching at.now s s result (edge_marks direction earlier edge.now) }
{
    at.require(
        has_other_end(at.task.plan, direction, edge),
        unmatched(direction),
    )?;
    let double = has_edge_before(at.flow, direction, at.task.locals, edge, k);
    at.require(!double, MatchCode::DoubleEdge)
}

// Checks an edge of the flow that comes from dependence `k`.
pub(crate) fn check_edge(
    at: &FlowAt,
    direction: Direction,
    k: usize,
    edge: &LentEdge,
    counted: &mut Counted,
) -> Result<(), MatchFault>
    requires task { near_task direction edge.now ≡ (task_of at.now) }
    requires flow { near_flow direction edge.now ≡ at.now.number }
    ensures { (earlier : List EdgeValue) → IsIn edge.now earlier ↔ IsIn edge.now (before_at direction at.now k)
        → CheckedAt at.now.phase at.now counted.old counted.new result (edge_marks direction earlier edge.now) }
{
    match at.phase {
        Phase::Connecting => connect_edge(at, direction, edge, counted),
        Phase::Matching => match_edge(at, direction, k, edge),
    }
}

// Checks that the flow has a tile, that a place that it writes to exists and was not written before, and that there are
// not too many items.
fn connect_write(at: &FlowAt, place: Place, counted: &mut Counted) -> Result<(), MatchFault>
    ensures { (w : WriteBackValue) → w.place ≡ place
        → CheckedAt phase.Connecting at.now counted.old counted.new result (write_marks w) }
{
    check_tile(at, Direction::Out)?;
    at.require(at.task.plan.has_place(&place), MatchCode::BadPlace)?;
    let fits = counted.add_item();
    at.require(fits, MatchCode::TooManyEdges)?;
    let new = counted.add_place(place);
    at.require(new, MatchCode::DoubleWrite)
}

// Checks a place that an out dependence of the flow names.
pub(crate) fn check_write(
    at: &FlowAt,
    place: Place,
    counted: &mut Counted,
) -> Result<(), MatchFault>
    ensures { (w : WriteBackValue) → w.place ≡ place
        → CheckedAt at.now.phase at.now counted.old counted.new result (write_marks w) }
{
    match at.phase {
        Phase::Connecting => connect_write(at, place, counted),
        Phase::Matching => Ok(()),
    }
}
