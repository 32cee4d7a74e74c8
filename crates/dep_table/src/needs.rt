//! What a shard of a preloaded table needs, counted task by task.

ghost use Rattle.std.specs.Prelude.{◌≡◌, ◌+◌, ◌<◌, ◌==◌, ◌^◌, ℕ, [], ◌∷◌, Bool, Some, length, slice_index, IfOk};
ghost use Rattle.ptg_base.specs.Lists.{IsIn};
ghost use Rattle.plan_core.specs.declared.flow.FlowPlan.{FlowPlan as FlowPlanValue};
ghost use Rattle.dep_iter.specs.Active.{held_targets};
ghost use Rattle.dep_iter.specs.Consistent.{IsConsistent};
ghost use Rattle.dep_iter.specs.Edges as edges;
ghost use Rattle.dep_iter.specs.Items as items;
ghost use Rattle.dep_iter.specs.Tasks.{IsTask};
ghost use Rattle.list_lemmas.specs.Counting.{as_number};
ghost use Rattle.dep_table.specs.Needs as needs;
ghost use Rattle.dep_table.specs.Needs.{AddsTask, AddsTiles, CanCount, IsNoNeed, edge_tiles, flow_tiles, flows_tiles, write_tiles};

use dep_iter::{TaskAt, held_target};
use goal_count::goal_of;
use plan_core::{DepPlan, FlowPlan, Plan, Target};
use ptg_base::{OutOfMemory, TaskId, WriteBack};
use shard_calls::flow_at;
use std::alloc::Global;

// What one shard needs for all that it will receive.
#[derive(Drop)]
pub(crate) struct Needs {
    // Entries of the tasks that edges go into.
    pub(crate) entries: u64,
    // Tiles, by type number.
    pub(crate) tiles: Vec<u64>,
    // Places of write-backs.
    pub(crate) writes: u64,
    // Rows of the tasks, each of which may trap.
    pub(crate) traps: u64,
}

// Adds one to a count.
fn add_one(count: &mut u64)
    requires { count.old + 1 < 2 ^ 64 }
    ensures { count.new ≡ count.old + 1 }
{
    *count += 1;
}

// Whether the target of an in dependence is a task, so that the dependence gives an edge.
fn is_edge(target: &Target) -> bool
    ensures { result ≡ needs.begins_with_edge (target.now ∷ []) }
{
    match target {
        Target::Task(_, _, _) => true,
        Target::Element(_, _) => false,
        Target::New => false,
        Target::Null => false,
    }
}

// Whether the first of these in dependences that holds gives an edge.
fn begins_with_edge(deps: &[DepPlan], env: &[i64]) -> bool
    ensures { (first_only : Bool) → result ≡ needs.begins_with_edge (held_targets first_only deps.now env.now) }
{
    let Some((d, later)) = deps.split_first() else {
        return false;
    };
    match held_target(d, env) {
        Some(target) => is_edge(target),
        None => begins_with_edge(later, env),
    }
}

impl Needs {
    // No needs, for a plan with this many types of tiles.
    pub(crate) fn new(alloc: Global, types: usize) -> Result<Needs, OutOfMemory>
        ensures { IfOk result (IsNoNeed types) }
    {
        Ok(Needs {
            entries: 0,
            tiles: vec![in alloc; 0; types]?,
            writes: 0,
            traps: 0,
        })
    }

    // Adds a tile of this type.
    fn add_tile(&mut self, datatype: u32)
        requires known { datatype < length self.old.tiles.items }
        requires room { slice_index self.old.tiles.items datatype + 1 < 2 ^ 64 }
        ensures { AddsTiles (λ d. as_number (datatype == d)) 0 self.old self.new }
    {
        add_one(&mut self.tiles[datatype as usize]);
    }

    // Adds the tile that comes by an edge into a flow of a task with these locals, if one does.
    fn add_flow(&mut self, flow: &FlowPlan, env: &[i64])
        requires known { flow.now.datatype < length self.old.tiles.items }
        requires room { (d : ℕ) → slice_index self.old.tiles.items d + flow_tiles env.now flow.now d < 2 ^ 64 }
        ensures { AddsTiles (flow_tiles env.now flow.now) 0 self.old self.new }
    {
        if flow.kind.is_data() && begins_with_edge(flow.ins.as_slice(), env) {
            self.add_tile(flow.datatype);
        }
    }

    // Adds the tiles that come by edges into these flows of a task with these locals.
    fn add_flows(&mut self, flows: &[FlowPlan], env: &[i64])
        requires known { (f : FlowPlanValue) → IsIn f flows.now → f.datatype < length self.old.tiles.items }
        requires room { (d : ℕ) → slice_index self.old.tiles.items d + flows_tiles env.now flows.now d < 2 ^ 64 }
        ensures { AddsTiles (flows_tiles env.now flows.now) 0 self.old self.new }
    {
        let Some((flow, others)) = flows.split_first() else {
            return;
        };
        self.add_flow(flow, env);
        self.add_flows(others, env);
    }

    // Adds the tiles of the edges into a task of a consistent plan, without a walk over the edges.
    fn add_edges(&mut self, at: &TaskAt)
        requires plan { IsConsistent at.now.plan.now }
        requires types { length self.old.tiles.items ≡ length at.now.plan.now.elems }
        requires room { (d : ℕ)
            → slice_index self.old.tiles.items d
            + edge_tiles at.now.plan.now (edges.in_edges at.now.plan.now at.now.task.now) d < 2 ^ 64 }
        ensures { AddsTiles (edge_tiles at.now.plan.now (edges.in_edges at.now.plan.now at.now.task.now)) 0 self.old
            self.new }
    {
        self.add_flows(at.flows(), at.locals);
    }

    // Adds the place and the tile of a write-back of a task.
    fn add_write(&mut self, plan: &Plan, t: &TaskId, write: &WriteBack)
        requires task { IsTask plan.now t.now }
        requires from { write.now.from ≡ t.now }
        requires types { length self.old.tiles.items ≡ length plan.now.elems }
        requires tiles { (d : ℕ)
            → slice_index self.old.tiles.items d + write_tiles plan.now (write.now ∷ []) d < 2 ^ 64 }
        requires places { self.old.writes + 1 < 2 ^ 64 }
        ensures { AddsTiles (write_tiles plan.now (write.now ∷ [])) 1 self.old self.new }
    {
        add_one(&mut self.writes);
        if let Some(flow) = flow_at(plan, t, write.flow) {
            self.add_tile(flow.datatype);
        }
    }

    // Adds the places and the tiles of the write-backs of a task.
    fn add_writes(&mut self, at: &TaskAt)
        requires types { length self.old.tiles.items ≡ length at.now.plan.now.elems }
        requires tiles { (d : ℕ)
            → slice_index self.old.tiles.items d
            + write_tiles at.now.plan.now (items.write_backs at.now.plan.now at.now.task.now) d < 2 ^ 64 }
        requires places { self.old.writes + length (items.write_backs at.now.plan.now at.now.task.now) < 2 ^ 64 }
        ensures { AddsTiles (write_tiles at.now.plan.now (items.write_backs at.now.plan.now at.now.task.now))
            (length (items.write_backs at.now.plan.now at.now.task.now)) self.old self.new }
    {
        for write in at.write_backs() {
            self.add_write(at.plan, at.task, &write);
        }
    }

    // Adds all that a task of a consistent plan needs in its shard.
    pub(crate) fn add_task(&mut self, at: &TaskAt)
        requires plan { IsConsistent at.now.plan.now }
        requires types { length self.old.tiles.items ≡ length at.now.plan.now.elems }
        requires room { CanCount at.now.plan.now (at.now.task.now ∷ []) self.old }
        ensures { AddsTask at.now.plan.now at.now.task.now self.old self.new }
    {
        if goal_of(at) != 0 {
            add_one(&mut self.entries);
        }
        self.add_edges(at);
        self.add_writes(at);
        add_one(&mut self.traps);
    }
}
