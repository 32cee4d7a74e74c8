//! The tiles that a bench lends to the flows of a task.

ghost use Rattle.std.specs.Prelude.{◌≡◌, ◌<◌, ◌≤◌, [], pos, length, replicate, slice_index, unwrap_or};
ghost use Rattle.std.specs.Prelude.{IfOk, IfSome, Some, None};
ghost use Rattle.std.specs.Option.{option_copied};
ghost use Rattle.ptg_base.specs.Limits.{most_flows};
ghost use Rattle.tile_pool.specs.Pool.{IsTakenFrom};
ghost use Rattle.task_run.specs.Pools.{LendsTo, with_lent, without_last};
ghost use Rattle.task_run.specs.PoolList.{CanGive, IsGivenBack};

use arrayvec::ArrayVec;
use plan_core::Plan;
use ptg_base::{MOST_FLOWS, OutOfMemory, Tile};
use std::alloc::Global;
use std::marker::Model;
use tile_pool::TilePool;

// The tiles of one type, and one of zeros.
#[derive(Drop)]
pub(crate) struct TypePool {
    pub(crate) pool: TilePool,
    pub(crate) zeros: Tile,
}

// As many tiles of this length as a class may have flows, which is the most that a task may start on, and one of zeros.
fn new_pool(alloc: Global, elems: u32) -> Result<TypePool, OutOfMemory>
    ensures elems { IfOk result (λ p. p.pool.elems ≡ elems) }
    ensures spare { IfOk result (λ p. most_flows ≤ p.pool.spare) }
    ensures room { IfOk result (λ p. p.pool.room ≡ 0) }
    ensures zeros { IfOk result (λ p. p.zeros ≡ replicate elems (pos 0)) }
{
    let mut pool = TilePool::new(alloc, elems);
    pool.reserve(MOST_FLOWS as u64)?;
    let zeros = Tile::zeros(alloc, elems)?;
    Ok(TypePool { pool, zeros })
}

// A copy of this tile in a tile of the pool, or of the zeros if there is none.
fn copy_in(p: &mut TypePool, from: Option<&Tile>) -> Tile
    requires spare { 0 < p.old.pool.spare }
    requires length { IfSome (option_copied from) (λ tile. length tile ≡ p.old.pool.elems) }
    requires zeros { length p.old.zeros ≡ p.old.pool.elems }
    ensures tile { result ≡ unwrap_or (option_copied from.entry) p.old.zeros }
    ensures taken { IsTakenFrom p.old.pool p.new.pool }
    ensures zeros { p.new.zeros ≡ p.old.zeros }
{
    match from {
        Some(tile) => p.pool.copy_of(tile).unwrap(),
        None => p.pool.copy_of(&p.zeros).unwrap(),
    }
}

// The tiles of each type, and which of them are lent: for each flow of the task on the bench, in order, a type or none.
#[derive(Drop)]
pub(crate) struct Pools {
    pools: Vec<TypePool>,
    lent: ArrayVec<Option<u32>, MOST_FLOWS>,
}

impl Model for Pools {
    ghost use Rattle.std.specs.Prelude.{length, map};
    ghost use Rattle.task_run.specs.Pools.{Lent, AreBelow};
    ghost use Rattle.task_run.specs.PoolList.{ArePools};
    ghost use Rattle.task_run.specs.declared.pools.TypePool.{TypePool};

    ghost Value = { Lent };

    ghost view = { λ b. record { elems = map (λ (p : TypePool). p.pool.elems) b.pools.items; lent = b.lent.items } };

    ghost invariant = { λ b. ArePools b.pools.items b.lent.items × AreBelow (length b.pools.items) b.lent.items };
}

impl Pools {
    // Eight tiles of each type of a plan, none of them lent.
    pub(crate) fn new(alloc: Global, plan: &Plan) -> Result<Pools, OutOfMemory>
        ensures { IfOk result (λ b. b ≡ record { elems = plan.now.elems; lent = [] }) }
    {
        let mut pools = Vec::new(alloc);
        for elems in plan.elems.as_slice() {
            pools.push(new_pool(alloc, *elems)?)?;
        }
        Ok(Pools {
            pools,
            lent: ArrayVec::new(),
        })
    }

    // How many flows the task on the bench has so far.
    pub(crate) fn flows(&self) -> usize
        ensures flows { result ≡ length self.now.lent }
        ensures at_most { result ≤ most_flows }
    {
        self.lent.len()
    }

    // Adds a flow that needs no tile of the pools.
    pub(crate) fn lend_none(&mut self)
        requires { length self.old.lent < most_flows }
        ensures { self.new ≡ with_lent self.old None }
    {
        self.lent.push(None);
    }

    // Adds a flow that starts on a copy of this tile, or on zeros if there is none.
    pub(crate) fn lend(&mut self, datatype: u32, from: Option<&Tile>) -> Tile
        requires flows { length self.old.lent < most_flows }
        requires known { datatype < length self.old.elems }
        requires length { IfSome (option_copied from) (λ tile. length tile ≡ slice_index self.old.elems datatype) }
        ensures tile { result
            ≡ unwrap_or (option_copied from.entry) (replicate (slice_index self.old.elems datatype) (pos 0)) }
        ensures lent { self.new ≡ with_lent self.old (Some datatype) }
    {
        self.lent.push(Some(datatype));
        copy_in(&mut self.pools[datatype as usize], from)
    }

    // Takes back the last flow, which has ended with this tile. A tile that was lent goes back to its pool; a tile that
    // came by an edge is returned.
    pub(crate) fn take_back(&mut self, tile: Option<Tile>) -> Option<Tile>
        requires some { 0 < length self.old.lent }
        requires fits { LendsTo (without_last self.old) self.old tile }
        ensures { self.new ≡ without_last self.old }
    {
        let lent = self.lent.pop().unwrap();
        give_back(&mut self.pools, lent, tile)
    }
}

// Gives a tile back to the pool of its type, if it was lent. Otherwise returns it.
fn give_back(pools: &mut Vec<TypePool>, lent: Option<u32>, tile: Option<Tile>) -> Option<Tile>
    requires { CanGive pools.old.items lent tile }
    ensures { IsGivenBack pools.old.items lent pools.new.items }
{
    let Some(datatype) = lent else {
        return tile;
    };
    if let Some(tile) = tile {
        pools[datatype as usize].pool.give(tile);
    }
    None
}
