//! Where one worker runs tasks.

ghost use Rattle.std.specs.Prelude.{◌≡◌, ◌+◌, ◌<◌, [], ◌∷◌, ◌++◌, Some, Err, length, slice_get};
ghost use Rattle.std.specs.Prelude.{IfOk, OnOk, IfErr, IsSome};
ghost use Rattle.std.specs.Option.{option_copied};
ghost use Rattle.ptg_base.specs.Limits.{most_flows};
ghost use Rattle.body_eval.specs.Element.{tile_of};
ghost use Rattle.dep_iter.specs.Tasks as tasks;
ghost use Rattle.flow_meaning.specs.Starting as starting;
ghost use Rattle.flow_meaning.specs.Backward.{ended, inputs, MayRun};
ghost use Rattle.task_run.specs.Bench.{HoldsOutputs, IsBenchOf};
ghost use Rattle.task_run.specs.Start.{HasInputsFrom, data_of, delivered, plan_of, task_of};

use crate::pools::Pools;
use crate::start::Start;
use crate::starting::next_tile;
use body_eval::{Scratch, run_body};
use dep_iter::Matched;
use dep_shard::{Arrivals, FlowTiles};
use plan_core::FlowPlan;
use ptg_base::{MOST_FLOWS, OutOfMemory, Tile};
use std::alloc::Global;
use std::marker::Model;
use std::mem;
use term_core::Trap;

/// Where one worker runs tasks, one after another. It has a place for the tile of each flow, eight tiles of each type
/// for the flows whose tile comes by no edge, and room for the variables of a body. Only `new` takes memory.
#[derive(Drop)]
pub struct Bench {
    scratch: Scratch,
    pools: Pools,
    tiles: [Option<Tile>; MOST_FLOWS],
    // The nodes of the tiles that came with the task.
    nodes: Arrivals,
}

impl Model for Bench {
    ghost use Rattle.std.specs.Prelude.{◌≡◌, length, take};
    ghost use Rattle.ptg_base.specs.Limits.{most_flows};
    ghost use Rattle.task_run.specs.Bench.{FitLent, Laid};

    ghost Value = { Laid };

    ghost view = { λ b. record { elems = b.pools.elems; tiles = take (length b.pools.lent) b.tiles } };

    ghost invariant = { λ b. FitLent b.pools.elems b.pools.lent b.tiles × (length b.tiles ≡ most_flows) };
}

impl Bench {
    /// A bench for the tasks of a job.
    pub fn new(alloc: Global, m: &Matched) -> Result<Bench, OutOfMemory>
        ensures { IfOk result (IsBenchOf m.now) }
    {
        Ok(Bench {
            scratch: Scratch::new(),
            pools: Pools::new(alloc, m.plan())?,
            tiles: [None, None, None, None, None, None, None, None],
            nodes: Arrivals::new(),
        })
    }

    // How many flows the task on the bench has.
    fn flows(&self) -> usize
        ensures { result ≡ length self.now.tiles }
    {
        self.pools.flows()
    }

    // Lays the tile of the next flow of a task on the bench: the one that arrived, or else one from its source.
    fn lay(&mut self, start: &Start, flow: &FlowPlan, arrivals: &mut FlowTiles)
        requires elems { self.old.elems ≡ (plan_of start.now).elems }
        requires room { length self.old.tiles < most_flows }
        requires flow { slice_get (tasks.flows_of (plan_of start.now) (task_of start.now)) (length self.old.tiles)
            ≡ Some flow.now }
        requires inputs { HasInputsFrom (plan_of start.now) (data_of start.now) (task_of start.now)
            (length self.old.tiles) arrivals.old }
        ensures elems { self.new.elems ≡ self.old.elems }
        ensures tiles { self.new.tiles
            ≡ self.old.tiles
            ++ starting.starting_tile (plan_of start.now) (data_of start.now)
            (delivered (plan_of start.now) (data_of start.now)) (task_of start.now) (length self.old.tiles)
            flow.now
            ∷ [] }
        ensures inputs { HasInputsFrom (plan_of start.now) (data_of start.now) (task_of start.now)
            (length self.old.tiles + 1) arrivals.new }
    {
        let number = self.pools.flows();
        let tile = next_tile(&mut self.pools, start, flow, arrivals);
        self.tiles[number] = tile;
    }

    // Lays the tiles of all flows of a task on the bench.
    fn lay_all(&mut self, start: &Start, arrivals: &mut FlowTiles)
        requires bench { IsBenchOf (plan_of start.now) self.old }
        requires inputs { arrivals.old ≡ inputs (plan_of start.now) (data_of start.now) (task_of start.now) }
        ensures elems { self.new.elems ≡ self.old.elems }
        ensures tiles { self.new.tiles
            ≡ starting.starting_tiles (plan_of start.now) (data_of start.now)
            (delivered (plan_of start.now) (data_of start.now)) (task_of start.now) }
    {
        for flow in start.at.flows() {
            self.lay(start, flow, arrivals);
        }
    }

    // Runs the body of the task whose tiles are on the bench.
    fn run_laid(&mut self, start: &Start) -> Result<(), Trap>
        requires tiles { self.old.tiles
            ≡ starting.starting_tiles (plan_of start.now) (data_of start.now)
            (delivered (plan_of start.now) (data_of start.now)) (task_of start.now) }
        requires runs { IsSome (ended (plan_of start.now) (data_of start.now) (task_of start.now)) }
        ensures elems { self.new.elems ≡ self.old.elems }
        ensures ok { OnOk result
            (HoldsOutputs (plan_of start.now) (data_of start.now) (task_of start.now) self.new) }
        ensures trap { IfErr result (λ cause.
            ended (plan_of start.now) (data_of start.now) (task_of start.now) ≡ Some (Err cause)) }
    {
        let class = start.at.plan.class(start.at.task.class());
        let flows = self.pools.flows();
        run_body(
            &class.body,
            start.at.locals,
            &mut self.tiles[..flows],
            &mut self.scratch,
        )
    }

    /// Runs a task on the tiles that came to it by edges and on those from its other sources. It ends as the meaning of
    /// the job says. A tile that came is moved, not copied; only for the other flows is the source evaluated. It takes
    /// no memory.
    pub fn run(&mut self, start: &Start, arrivals: Arrivals) -> Result<(), Trap>
        requires bench { IsBenchOf (plan_of start.now) self.old }
        requires inputs { MayRun (plan_of start.now) (data_of start.now) (task_of start.now) arrivals }
        ensures elems { self.new.elems ≡ self.old.elems }
        ensures ok { OnOk result
            (HoldsOutputs (plan_of start.now) (data_of start.now) (task_of start.now) self.new) }
        ensures trap { IfErr result (λ cause.
            ended (plan_of start.now) (data_of start.now) (task_of start.now) ≡ Some (Err cause)) }
    {
        self.nodes = arrivals;
        let mut tiles = FlowTiles::new();
        self.nodes.move_to(&mut tiles);
        self.lay_all(start, &mut tiles);
        self.run_laid(start)
    }

    /// The tile of a flow of the task on the bench, if it has one.
    pub fn tile(&self, flow: u8) -> Option<&Tile>
        ensures { option_copied result ≡ tile_of self.now.tiles flow }
    {
        if flow as usize >= self.pools.flows() {
            return None;
        }
        self.tiles[flow as usize].as_ref()
    }

    // Clears the place of the last flow of the task on the bench. `spent` takes a tile along that came by an edge.
    fn clear_last(&mut self, spent: &mut Arrivals)
        requires { 0 < length self.old.tiles }
        ensures elems { self.new.elems ≡ self.old.elems }
        ensures fewer { length self.new.tiles + 1 ≡ length self.old.tiles }
    {
        let last = self.pools.flows() - 1;
        let tile = self.tiles[last].take();
        if let Some(tile) = self.pools.take_back(tile) {
            spent.take_along(tile);
        }
    }

    /// Takes the task off the bench. The tiles of the bench come back to it. Those that came with the task are
    /// returned, so that their memory can be used again.
    pub fn clear(&mut self) -> Arrivals
        ensures elems { self.new.elems ≡ self.old.elems }
        ensures idle { self.new.tiles ≡ [] }
    {
        let mut spent = mem::replace(&mut self.nodes, Arrivals::new());
        for _flow in 0..self.flows() {
            self.clear_last(&mut spent);
        }
        spent
    }
}
