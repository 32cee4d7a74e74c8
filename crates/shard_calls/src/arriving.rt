//! An edge that arrives at its target's entry.

ghost use Rattle.std.specs.Prelude.{◌≡◌, ◌<◌, ◌↔◌, None, Some, IfOk, IfSome, IsOk, IsSome, OnErr, OnOk, if◌then◌else◌, is_some, slice_index};
ghost use Rattle.std.specs.Option.{option_copied};
ghost use Rattle.ptg_base.specs.Limits.{most_flows};
ghost use Rattle.plan_core.specs.declared.flow.FlowPlan.{FlowPlan as FlowPlanValue};
ghost use Rattle.plan_core.specs.Kinds.{flow_of};
ghost use Rattle.dep_iter.specs.Edges as edges;
ghost use Rattle.dep_iter.specs.Tasks.{IsTask};
ghost use Rattle.dep_shard.specs.declared.shard.Arrived.TheVariants.{Fired};
ghost use Rattle.dep_shard.specs.Content.{IsReady, IsTileOf, IsWaiting, KeepsAllButEntries, KeepsSpares, Updates, Uses, entry_of};
ghost use Rattle.shard_meaning.specs.Share.{entry_after, entry_found};

use dep_iter::{Matched, TaskAt, flows_of};
use dep_shard::{Arrived, Shard};
use goal_count::goal_of;
use ptg_base::{Edge, OutOfMemory, TaskId, Tile};
use range_space::Numbers;

// The number of the type of the tiles of a flow.
pub(crate) fn type_of_flow(m: &Matched, t: &TaskId, flow: u8) -> u32
    requires task { IsTask m.now t.now }
    requires flow { IsSome (flow_of m.now.classes t.now.class flow) }
    ensures { (f : FlowPlanValue) → flow_of m.now.classes t.now.class flow ≡ Some f → result ≡ f.datatype }
{
    let flows = flows_of(m.plan(), t);
    flows[flow as usize].datatype
}

// Notes the first edge to a task. Only here are the goal and the priority of the task computed.
fn arrive_first(
    shard: &mut Shard,
    m: &Matched,
    edge: &Edge,
    datatype: u32,
    tile: Option<&Tile>,
) -> Result<Arrived, OutOfMemory>
    requires task { IsTask m.now edge.now.to }
    requires flow { edge.now.in_flow < most_flows }
    requires goal { 0 < edges.goal m.now edge.now.to }
    requires new { entry_of shard.old edge.now.to ≡ None }
    requires tile { IfSome (option_copied tile) (λ t. IsTileOf shard.old.elems datatype t) }
    ensures ok { OnOk result
        (Updates shard.old.entries shard.new.entries edge.now.to
        (Some (entry_after m.now edge.now (option_copied tile.entry) shard.old))) }
    ensures fired { IfOk result (λ a.
        (a ≡ Fired) ↔ IsReady (entry_after m.now edge.now (option_copied tile.entry) shard.old)) }
    ensures err { OnErr result (shard.new.entries ≡ shard.old.entries) }
    ensures rest { KeepsAllButEntries shard.old shard.new }
    ensures spare { Uses shard.old.spare shard.new.spare (if is_some (entry_of shard.old edge.now.to) then 0 else 1)
        (if is_some tile.entry then Some datatype else None) 0 0 }
    ensures kept { OnErr result (KeepsSpares shard.old.spare shard.new.spare) }
    ensures succeeds { 0 < shard.old.spare.entries
        → (IsSome tile.entry → 0 < slice_index shard.old.spare.tiles datatype) → IsOk result }
{
    let mut room = Numbers::new();
    let at = TaskAt::of(m.plan(), &edge.to, &mut room);
    shard.arrive_first(edge, goal_of(&at), at.priority(), datatype, tile)
}

// Notes an edge to its target, with its tile. If memory is refused, the shard stays as it was, but for spares that may
// grow.
pub(crate) fn arrive(
    shard: &mut Shard,
    m: &Matched,
    edge: &Edge,
    datatype: u32,
    tile: Option<&Tile>,
) -> Result<Arrived, OutOfMemory>
    requires task { IsTask m.now edge.now.to }
    requires flow { edge.now.in_flow < most_flows }
    requires goal { 0 < edges.goal m.now edge.now.to }
    requires waits { IsWaiting (entry_found m.now edge.now shard.old) }
    requires tile { IfSome (option_copied tile) (λ t. IsTileOf shard.old.elems datatype t) }
    ensures ok { OnOk result
        (Updates shard.old.entries shard.new.entries edge.now.to
        (Some (entry_after m.now edge.now (option_copied tile.entry) shard.old))) }
    ensures fired { IfOk result (λ a.
        (a ≡ Fired) ↔ IsReady (entry_after m.now edge.now (option_copied tile.entry) shard.old)) }
    ensures err { OnErr result (shard.new.entries ≡ shard.old.entries) }
    ensures rest { KeepsAllButEntries shard.old shard.new }
    ensures spare { Uses shard.old.spare shard.new.spare (if is_some (entry_of shard.old edge.now.to) then 0 else 1)
        (if is_some tile.entry then Some datatype else None) 0 0 }
    ensures kept { OnErr result (KeepsSpares shard.old.spare shard.new.spare) }
    ensures succeeds { (entry_of shard.old edge.now.to ≡ None → 0 < shard.old.spare.entries)
        → (IsSome tile.entry → 0 < slice_index shard.old.spare.tiles datatype) → IsOk result }
{
    match shard.index_of(&edge.to) {
        Some(index) => shard.arrive_at(index, edge.in_flow, datatype, tile),
        None => arrive_first(shard, m, edge, datatype, tile),
    }
}
