//! The tiles that a task starts on.

ghost use Rattle.std.specs.Prelude.{◌≡◌, ◌+◌, ◌<◌, true, Some, length, pos, replicate, slice_get, slice_index};
ghost use Rattle.ptg_base.specs.Limits.{most_flows};
ghost use Rattle.plan_core.specs.Kinds as kinds;
ghost use Rattle.coll_data.specs.Tiles.{tile_at};
ghost use Rattle.dep_iter.specs.declared.source.Source.TheVariants as source;
ghost use Rattle.dep_iter.specs.Edges as edges;
ghost use Rattle.dep_iter.specs.Tasks as tasks;
ghost use Rattle.flow_meaning.specs.Starting as starting;
ghost use Rattle.task_run.specs.Pools.{LendsTo};
ghost use Rattle.task_run.specs.Start.{HasInputsFrom, data_of, delivered, plan_of, task_of};
ghost use Rattle.flow_meaning.specs.Starting.{nothing_delivered};

use crate::pools::Pools;
use crate::start::Start;
use dep_iter::Source;
use dep_shard::FlowTiles;
use plan_core::FlowPlan;
use plan_data::opening_tile;
use ptg_base::{Place, Tile};
use term_core::FlowKind;

// A copy of the tile of a place, for a flow that reads it.
fn lend_place(pools: &mut Pools, start: &Start, flow: &FlowPlan, place: &Place) -> Option<Tile>
    requires elems { pools.old.elems ≡ (plan_of start.now).elems }
    requires flows { length pools.old.lent < most_flows }
    requires flow { slice_get (tasks.flows_of (plan_of start.now) (task_of start.now)) (length pools.old.lent)
        ≡ Some flow.now }
    requires kind { kinds.is_data (Some flow.now.kind) ≡ true }
    requires place { edges.data_source (plan_of start.now) (task_of start.now) (length pools.old.lent)
        ≡ source.Place place.now }
    ensures tile { result ≡ tile_at (data_of start.now).colls place.now }
    ensures lent { LendsTo pools.old pools.new result }
{
    let tile = opening_tile(start.at.plan, start.given, place);
    Some(pools.lend(flow.datatype, Some(tile)))
}

// The tile of a flow that has no source.
fn lend_unsourced(pools: &mut Pools, flow: &FlowPlan) -> Option<Tile>
    requires flows { length pools.old.lent < most_flows }
    requires known { flow.now.datatype < length pools.old.elems }
    ensures tile { result
        ≡ starting.unsourced_tile flow.now.kind (replicate (slice_index pools.old.elems flow.now.datatype) (pos 0)) }
    ensures lent { LendsTo pools.old pools.new result }
{
    match flow.kind {
        FlowKind::Write => Some(pools.lend(flow.datatype, None)),
        FlowKind::Read | FlowKind::Rw | FlowKind::Ctl => {
            pools.lend_none();
            None
        }
    }
}

// The tile of a data flow that comes by no edge, from the source of the flow.
fn lend_from(pools: &mut Pools, start: &Start, flow: &FlowPlan, source: &Source) -> Option<Tile>
    requires elems { pools.old.elems ≡ (plan_of start.now).elems }
    requires flows { length pools.old.lent < most_flows }
    requires flow { slice_get (tasks.flows_of (plan_of start.now) (task_of start.now)) (length pools.old.lent)
        ≡ Some flow.now }
    requires kind { kinds.is_data (Some flow.now.kind) ≡ true }
    requires source { edges.data_source (plan_of start.now) (task_of start.now) (length pools.old.lent) ≡ source.now }
    ensures tile { result
        ≡ starting.tile_from (plan_of start.now) (data_of start.now) nothing_delivered flow.now source.now }
    ensures lent { LendsTo pools.old pools.new result }
{
    match source {
        Source::Place(place) => lend_place(pools, start, flow, place),
        Source::New => Some(pools.lend(flow.datatype, None)),
        Source::Nothing => lend_unsourced(pools, flow),
        Source::Task(_) | Source::Null => {
            pools.lend_none();
            None
        }
    }
}

// The tile that the next flow of the task starts on, if it comes by no edge.
fn lend_source(pools: &mut Pools, start: &Start, flow: &FlowPlan) -> Option<Tile>
    requires elems { pools.old.elems ≡ (plan_of start.now).elems }
    requires flows { length pools.old.lent < most_flows }
    requires flow { slice_get (tasks.flows_of (plan_of start.now) (task_of start.now)) (length pools.old.lent)
        ≡ Some flow.now }
    ensures tile { result
        ≡ starting.starting_tile (plan_of start.now) (data_of start.now) nothing_delivered (task_of start.now)
        (length pools.old.lent) flow.now }
    ensures lent { LendsTo pools.old pools.new result }
{
    if !flow.kind.is_data() {
        pools.lend_none();
        return None;
    }
    let source = start.at.data_source(pools.flows() as u8);
    lend_from(pools, start, flow, &source)
}

// The tile that the next flow of the task starts on: the one that arrived, or else one from its source.
pub(crate) fn next_tile(
    pools: &mut Pools,
    start: &Start,
    flow: &FlowPlan,
    arrivals: &mut FlowTiles,
) -> Option<Tile>
    requires elems { pools.old.elems ≡ (plan_of start.now).elems }
    requires flows { length pools.old.lent < most_flows }
    requires flow { slice_get (tasks.flows_of (plan_of start.now) (task_of start.now)) (length pools.old.lent)
        ≡ Some flow.now }
    requires inputs { HasInputsFrom (plan_of start.now) (data_of start.now) (task_of start.now) (length pools.old.lent)
        arrivals.old }
    ensures tile { result
        ≡ starting.starting_tile (plan_of start.now) (data_of start.now)
        (delivered (plan_of start.now) (data_of start.now)) (task_of start.now) (length pools.old.lent) flow.now }
    ensures lent { LendsTo pools.old pools.new result }
    ensures rest { HasInputsFrom (plan_of start.now) (data_of start.now) (task_of start.now) (length pools.old.lent + 1)
        arrivals.new }
{
    match arrivals.take(pools.flows() as u8) {
        Some(tile) => {
            pools.lend_none();
            Some(tile)
        }
        None => lend_source(pools, start, flow),
    }
}
