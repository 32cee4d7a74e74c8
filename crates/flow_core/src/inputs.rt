//! The tiles that a task starts on.

ghost use Rattle.std.specs.Prelude.{◌≡◌, ◌≢◌, ℤ, ◌+◌, ◌<◌, ◌≤◌, [], ◌∷◌, ◌++◌, length, option_map, slice_set, IfOk, OnOk, IsTrue, List, Option, Some};
ghost use Rattle.std.specs.Option.{option_copied};
ghost use Rattle.ptg_base.specs.Limits.{most_flows};
ghost use Rattle.flow_meaning.specs.Starting as starting;
ghost use Rattle.flow_core.specs.Inputs as inputs;
ghost use Rattle.flow_core.specs.Inputs.{edge_into, edge_of_source, edges_from, has_datatype, have_datatypes};
ghost use Rattle.ptg_base.specs.Task.{Task};
ghost use Rattle.ptg_base.specs.declared.edge.Item.TheVariants as item;
ghost use Rattle.plan_core.specs.declared.plan.Plan.{Plan as PlanValue};
ghost use Rattle.flow_core.specs.Kept.{TakesOnlyTo};
ghost use Rattle.coll_data.specs.Data.{Data};
ghost use Rattle.ptg_base.specs.declared.edge.Edge.{Edge as EdgeValue};
ghost use Rattle.plan_core.specs.declared.flow.FlowPlan.{FlowPlan as FlowValue};
ghost use Rattle.dep_iter.specs.Tasks as tasks;
ghost use Rattle.flow_meaning.specs.Starting.{nothing_delivered};
ghost use Rattle.flow_meaning.specs.Machine.{sent_tile};

use crate::sent_items::SentItems;
use coll_data::Given;
use dep_iter::{Source, TaskAt};
use plan_core::{FlowPlan, Plan};
use ptg_base::{Item, OutOfMemory, Tile};
use std::alloc::Global;
use term_core::FlowKind;

// A copy of a tile, if there is one.
pub(crate) fn copy_if_any(alloc: Global, tile: Option<&Tile>) -> Result<Option<Tile>, OutOfMemory>
    ensures { IfOk result (λ copy. copy ≡ option_copied tile.entry) }
{
    match tile {
        Some(tile) => Ok(Some(tile.copy(alloc)?)),
        None => Ok(None),
    }
}

// A new tile for a flow.
fn new_tile(alloc: Global, plan: &Plan, flow: &FlowPlan) -> Result<Tile, OutOfMemory>
    requires { IsTrue (has_datatype plan.now flow.now) }
    ensures { IfOk result (λ tile. tile ≡ starting.new_tile plan.now flow.now) }
{
    Tile::zeros(alloc, plan.elements(flow.datatype))
}

// The tile of a flow that has no source.
fn unsourced_tile(alloc: Global, plan: &Plan, flow: &FlowPlan) -> Result<Option<Tile>, OutOfMemory>
    requires { IsTrue (has_datatype plan.now flow.now) }
    ensures { IfOk result (λ tile. tile ≡ starting.unsourced_tile flow.now.kind (starting.new_tile plan.now flow.now)) }
{
    match flow.kind {
        FlowKind::Write => Ok(Some(new_tile(alloc, plan, flow)?)),
        FlowKind::Read => Ok(None),
        FlowKind::Rw => Ok(None),
        FlowKind::Ctl => Ok(None),
    }
}

// The tile that a flow gets from its source, or None if it comes by an edge.
fn tile_from(
    alloc: Global,
    plan: &Plan,
    given: &Given,
    flow: &FlowPlan,
    source: &Source,
) -> Result<Option<Tile>, OutOfMemory>
    requires { IsTrue (has_datatype plan.now flow.now) }
    ensures { IfOk result (λ tile.
        tile ≡ starting.tile_from plan.now given.now nothing_delivered flow.now source.now) }
{
    match source {
        Source::Task(_) => Ok(None),
        Source::Place(place) => copy_if_any(alloc, given.tile(place)),
        Source::New => Ok(Some(new_tile(alloc, plan, flow)?)),
        Source::Null => Ok(None),
        Source::Nothing => unsourced_tile(alloc, plan, flow),
    }
}

// The source of a flow of a task; a CTL flow has none.
fn source_of(at: &TaskAt, number: u8, flow: &FlowPlan) -> Source
    ensures { result ≡ inputs.source_of at.now.plan.now at.now.task.now number flow.now }
{
    if !flow.kind.is_data() {
        return Source::Null;
    }
    at.data_source(number)
}

// The edge, if the source is one.
fn edge_of(source: Source) -> Option<Item>
    ensures { result ≡ option_map (λ e. item.Edge e) (edge_of_source source) }
{
    match source {
        Source::Task(edge) => Some(Item::Edge(edge)),
        Source::Place(_) => None,
        Source::New => None,
        Source::Null => None,
        Source::Nothing => None,
    }
}

// What a task starts on, an entry for each of its flows: the tiles that come by no edge, and the edges that bring the
// others.
#[derive(Drop)]
pub(crate) struct Inputs {
    pub(crate) tiles: Vec<Option<Tile>>,
    pub(crate) edges: Vec<Option<Item>>,
}

// Adds what each of these flows starts on; the flows are numbered from `number` on.
fn push_inputs(
    alloc: Global,
    given: &Given,
    at: &TaskAt,
    number: u8,
    flows: &[FlowPlan],
    inputs: &mut Inputs,
) -> Result<(), OutOfMemory>
    requires at_most { number + length flows.now ≤ most_flows }
    requires datatypes { IsTrue (have_datatypes at.now.plan.now flows.now) }
    ensures tiles { OnOk result
        (inputs.new.tiles.items
        ≡ inputs.old.tiles.items
        ++ starting.tiles_from at.now.plan.now given.now nothing_delivered at.now.task.now
        number flows.now) }
    ensures edges { OnOk result
        (inputs.new.edges.items
        ≡ inputs.old.edges.items ++ edges_from at.now.plan.now at.now.task.now number flows.now) }
{
    let Some((flow, others)) = flows.split_first() else {
        return Ok(());
    };
    let source = source_of(at, number, flow);
    let tile = tile_from(alloc, at.plan, given, flow, &source)?;
    inputs.tiles.push(tile)?;
    inputs.edges.push(edge_of(source))?;
    push_inputs(alloc, given, at, number + 1, others, inputs)
}

// What a task starts on. The source of each of its flows is looked up once.
pub(crate) fn inputs_of(alloc: Global, given: &Given, at: &TaskAt) -> Result<Inputs, OutOfMemory>
    ensures tiles { IfOk result (λ found.
        found.tiles.items
        ≡ starting.starting_tiles at.now.plan.now given.now nothing_delivered at.now.task.now) }
    ensures edges { IfOk result (λ found.
        found.edges.items
        ≡ edges_from at.now.plan.now at.now.task.now 0 (tasks.flows_of at.now.plan.now at.now.task.now)) }
    ensures at_most { IfOk result (λ found. length found.edges.items ≤ most_flows) }
{
    let mut found = Inputs {
        tiles: Vec::new(alloc),
        edges: Vec::new(alloc),
    };
    push_inputs(alloc, given, at, 0, at.flows(), &mut found)?;
    Ok(found)
}

// Sets the tile of a flow.
fn set_tile(tiles: &mut Vec<Option<Tile>>, at: usize, tile: Option<Tile>)
    requires { at < length tiles.old.items }
    ensures { tiles.new.items ≡ slice_set tiles.old.items at tile }
{
    tiles[at] = tile;
}

// Takes the tile of a flow, if it comes by an edge.
fn take_tile(edge: &Option<Item>, number: u8, sent: &mut SentItems, tiles: &mut Vec<Option<Tile>>)
    requires places { number < length tiles.old.items }
    ensures tiles { (P : PlanValue) (G : Data) (t : Task) (before : List (Option (List ℤ))) (f : FlowValue)
        (rest : List FlowValue)
        → edge.now ≡ option_map (λ e. item.Edge e) (edge_into P t number f) → length before ≡ number
        → tiles.old.items ≡ before ++ starting.tiles_from P G nothing_delivered t number (f ∷ rest)
        → tiles.new.items
        ≡ (before ++ starting.starting_tile P G (sent_tile sent.old.edges) t number f ∷ [])
        ++ starting.tiles_from P G nothing_delivered t (number + 1) rest }
    ensures others { (P : PlanValue) (t : Task) (f : FlowValue)
        → edge.now ≡ option_map (λ e. item.Edge e) (edge_into P t number f) → (e : EdgeValue) → e.in_flow ≢ number
        → sent_tile sent.new.edges e ≡ sent_tile sent.old.edges e }
    ensures kept { (P : PlanValue) (t : Task) (f : FlowValue)
        → edge.now ≡ option_map (λ e. item.Edge e) (edge_into P t number f)
        → TakesOnlyTo t sent.old.edges sent.new.edges }
    ensures sends { sent.new.sends ≡ sent.old.sends }
    ensures writes { sent.new.writes ≡ sent.old.writes }
    ensures places { length tiles.new.items ≡ length tiles.old.items }
{
    let edge = match edge {
        Some(edge) => edge,
        None => return,
    };
    set_tile(tiles, number as usize, sent.take(edge));
}

// Takes the tiles that come by these edges, for the flows of a task from `number` on.
pub(crate) fn take_tiles(
    edges: &[Option<Item>],
    number: u8,
    sent: &mut SentItems,
    tiles: &mut Vec<Option<Tile>>,
)
    requires at_most { number + length edges.now ≤ most_flows }
    requires places { number + length edges.now ≤ length tiles.old.items }
    ensures tiles { (P : PlanValue) (G : Data) (t : Task) (before : List (Option (List ℤ))) (fs : List FlowValue)
        → edges.now ≡ edges_from P t number fs → length before ≡ number
        → tiles.old.items ≡ before ++ starting.tiles_from P G nothing_delivered t number fs
        → tiles.new.items ≡ before ++ starting.tiles_from P G (sent_tile sent.old.edges) t number fs }
    ensures kept { (P : PlanValue) (t : Task) (fs : List FlowValue) → edges.now ≡ edges_from P t number fs
        → TakesOnlyTo t sent.old.edges sent.new.edges }
    ensures sends { sent.new.sends ≡ sent.old.sends }
    ensures writes { sent.new.writes ≡ sent.old.writes }
    ensures places { length tiles.new.items ≡ length tiles.old.items }
{
    let Some((edge, others)) = edges.split_first() else {
        return;
    };
    take_tile(edge, number, sent, tiles);
    take_tiles(others, number + 1, sent, tiles)
}
