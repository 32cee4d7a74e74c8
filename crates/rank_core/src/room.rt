//! The memory of a run, taken before it.

ghost use Rattle.std.specs.Prelude.{◌≡◌, ◌+◌, ◌<◌, true, false, IfOk, None, OnOk, Some, length, option_map};
ghost use Rattle.std.specs.Prelude.{slice_index, if◌then◌else◌};
ghost use Rattle.plan_core.specs.Kinds as kinds;
ghost use Rattle.dep_iter.specs.Items as items;
ghost use Rattle.dep_iter.specs.Tasks.{IsTask};
ghost use Rattle.dep_shard.specs.Content.{IsUnchanged};
ghost use Rattle.rank_core.specs.World.{is_between};
ghost use Rattle.rank_core.specs.Outgoings.{AddsBlank, AddsWithin};
ghost use Rattle.rank_core.specs.RankRoom.{HasRoomFor};
ghost use Rattle.rank_core.specs.RunningTasks.{AreBlank, IsShapeOf, IsRunningTask, its_edges_between, its_edges_within};
ghost use Rattle.rank_core.specs.RunningTasks.{plan_of, task_of};

use crate::message::Message;
use crate::running_task::RunningTask;
use dep_iter::Matched;
use dep_shard::Shard;
use plan_core::FlowPlan;
use ptg_base::{Edge, OutOfMemory, Tile};
use shard_calls::{flow_at, home_of};
use std::alloc::Global;

// What a task will send: the messages to other ranks, whose tiles are still blank, and how many edges stay within its
// rank.
#[derive(Drop)]
pub(crate) struct Outgoing {
    pub(crate) messages: Vec<Message>,
    pub(crate) within: u64,
}

// The count plus 1. A count that does not fit is refused: no memory holds so much.
fn one_more(count: u64) -> Result<u64, OutOfMemory>
    ensures { IfOk result (λ more. more ≡ count + 1) }
{
    match count.checked_add(1) {
        Some(more) => Ok(more),
        None => Err(OutOfMemory),
    }
}

// A tile for a flow of this kind and type, whose numbers are any. None for a CTL flow.
fn blank_tile(alloc: Global, m: &Matched, flow: &FlowPlan) -> Result<Option<Tile>, OutOfMemory>
    requires { flow.now.datatype < length m.now.elems }
    ensures { IfOk result (λ tile.
        option_map length tile
        ≡ (if kinds.is_data (Some flow.now.kind) then Some (slice_index m.now.elems flow.now.datatype) else None)) }
{
    if !flow.kind.is_data() {
        return Ok(None);
    }
    let elems = m.plan().elems.as_slice()[flow.datatype as usize];
    Ok(Some(Tile::zeros(alloc, elems)?))
}

// A tile for the flow that an edge goes to, whose numbers are any. None for a CTL flow.
fn blank_for(alloc: Global, m: &Matched, edge: &Edge) -> Result<Option<Tile>, OutOfMemory>
    requires { IsTask m.now edge.now.to }
    ensures { IfOk result (IsShapeOf m.now edge.now) }
{
    match flow_at(m.plan(), &edge.to, edge.in_flow) {
        Some(flow) => blank_tile(alloc, m, flow),
        None => Ok(None),
    }
}

// A message of an edge to a task, with a blank tile.
fn blank(alloc: Global, m: &Matched, edge: Edge) -> Result<Message, OutOfMemory>
    requires { IsTask m.now edge.to }
    ensures edge { IfOk result (λ message. message.edge ≡ edge) }
    ensures shape { IfOk result (λ message. IsShapeOf m.now message.edge message.tile) }
{
    let tile = blank_for(alloc, m, &edge)?;
    Ok(Message { edge, tile })
}

// Whether an edge out of a running task goes to another rank.
pub(crate) fn goes_away(at: &RunningTask, edge: &Edge) -> bool
    requires runs { IsRunningTask at.now }
    requires from { edge.now.from ≡ task_of at.now }
    requires to { IsTask (plan_of at.now) edge.now.to }
    ensures { result ≡ is_between (plan_of at.now) at.now.ranks edge.now }
{
    home_of(at.matched, at.ranks, &edge.to) != at.rank
}

// Adds an edge out of a running task to what it will send.
fn add_edge(
    alloc: Global,
    at: &RunningTask,
    outgoing: &mut Outgoing,
    edge: Edge,
) -> Result<(), OutOfMemory>
    requires runs { IsRunningTask at.now }
    requires from { edge.from ≡ task_of at.now }
    requires to { IsTask (plan_of at.now) edge.to }
    ensures between { OnOk result
        (is_between (plan_of at.now) at.now.ranks edge ≡ true
        → AddsBlank (plan_of at.now) edge outgoing.old outgoing.new) }
    ensures within { OnOk result
        (is_between (plan_of at.now) at.now.ranks edge ≡ false → AddsWithin outgoing.old outgoing.new) }
{
    if goes_away(at, &edge) {
        outgoing.messages.push(blank(alloc, at.matched, edge)?)?;
        return Ok(());
    }
    outgoing.within = one_more(outgoing.within)?;
    Ok(())
}

// What a running task will send, if it has outputs.
pub(crate) fn outgoing_of(alloc: Global, at: &RunningTask) -> Result<Outgoing, OutOfMemory>
    requires { IsRunningTask at.now }
    ensures messages { IfOk result (λ o. AreBlank (plan_of at.now) (its_edges_between at.now) o.messages.items) }
    ensures within { IfOk result (λ o. o.within ≡ length (its_edges_within at.now)) }
{
    let mut outgoing = Outgoing {
        messages: Vec::new(alloc),
        within: 0,
    };
    for edge in at.task.out_edges() {
        add_edge(alloc, at, &mut outgoing, edge)?;
    }
    Ok(outgoing)
}

// How many write-backs a running task has.
pub(crate) fn count_writes(at: &RunningTask) -> Result<u64, OutOfMemory>
    requires { IsRunningTask at.now }
    ensures { IfOk result (λ n. n ≡ length (items.write_backs (plan_of at.now) (task_of at.now))) }
{
    let mut count = 0;
    for _write in at.task.write_backs() {
        count = one_more(count)?;
    }
    Ok(count)
}

// Takes memory in a rank for this many edges and write-backs of whatever types, and for a trap.
pub(crate) fn make_room(
    alloc: Global,
    m: &Matched,
    shard: &mut Shard,
    edges: u64,
    writes: u64,
) -> Result<(), OutOfMemory>
    requires { shard.old.elems ≡ m.now.elems }
    ensures ok { OnOk result (HasRoomFor edges writes shard.new) }
    ensures same { IsUnchanged shard.old shard.new }
{
    let Some(most) = edges.checked_add(writes) else {
        return Err(OutOfMemory);
    };
    let types = m.plan().elems.as_slice().len();
    let tiles = vec![in alloc; most; types]?;
    shard.reserve(edges, tiles.as_slice(), writes, 1)
}
