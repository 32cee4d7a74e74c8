//! The deques of some workers, and the hands of each.
ghost use Rattle.std.specs.Prelude.{◌≡◌, ◌<◌, ◌≤◌, All, IfOk, length, map};
ghost use Rattle.ready_deques.specs.Ends.{DequeId, IsNew, less, new_thief};
ghost use Rattle.ready_deques.specs.Hands.{AreFresh};
ghost use Rattle.std.specs.Prelude.{List};
ghost use Rattle.ptg_base.specs.Limits.{IsWorkerCount, most_workers};

use crate::ends::{OwnerEnd, ThiefEnd};
use crate::hands::Hands;
use ptg_base::OutOfMemory;
use std::alloc::Global;

/// Makes an empty deque for each of this many workers, and returns their hands in order of the workers' numbers from 0.
pub fn make(alloc: Global, workers: u32) -> Result<Vec<Hands>, OutOfMemory>
    requires { IsWorkerCount workers }
    ensures { IfOk result (λ hands. (deques : List DequeId) × AreFresh workers deques hands.items) }
{
    let mut owners = new_owners(alloc, workers)?;
    let rows = thief_rows(alloc, &mut owners)?;
    assemble(alloc, owners, rows)
}

// A deque for each worker.
fn new_owners(alloc: Global, workers: u32) -> Result<Vec<OwnerEnd>, OutOfMemory>
    ensures { IfOk result (λ owners. (length owners.items ≡ workers) × All (IsNew 0) owners.items) }
{
    let mut owners = Vec::new(alloc);
    for _ in 0..workers {
        owners.push(OwnerEnd::new(alloc)?)?;
    }
    Ok(owners)
}

// A row of thieves' ends for each worker: one end of each deque.
fn thief_rows(alloc: Global, owners: &mut Vec<OwnerEnd>) -> Result<Vec<Vec<ThiefEnd>>, OutOfMemory>
    requires { All (λ b. length owners.old.items < b.parts) owners.old.items }
    ensures { IfOk result (λ rows. (length rows.items ≡ length owners.old.items)
        × All (λ row. row.items ≡ map new_thief owners.old.items) rows.items
        × (owners.new.items ≡ map (less (length owners.old.items)) owners.old.items)) }
{
    let mut rows = Vec::new(alloc);
    for _ in 0..owners.len() {
        rows.push(thieves(alloc, owners)?)?;
    }
    Ok(rows)
}

// A thief's end of each deque.
fn thieves(alloc: Global, owners: &mut Vec<OwnerEnd>) -> Result<Vec<ThiefEnd>, OutOfMemory>
    requires { All (λ b. 1 < b.parts) owners.old.items }
    ensures { IfOk result (λ thieves.
        (thieves.items ≡ map new_thief owners.old.items) × (owners.new.items ≡ map (less 1) owners.old.items)) }
{
    let mut thieves = Vec::new(alloc);
    for k in 0..owners.len() {
        thieves.push(owners[k].thief()?)?;
    }
    Ok(thieves)
}

// Each worker's hands: its own deque and a row of thieves' ends.
fn assemble(
    alloc: Global,
    owners: Vec<OwnerEnd>,
    rows: Vec<Vec<ThiefEnd>>,
) -> Result<Vec<Hands>, OutOfMemory>
    requires workers_at_most { length owners.items ≤ most_workers }
    requires new { All (IsNew (length owners.items)) owners.items }
    requires rows { (length rows.items ≡ length owners.items)
        × All (λ row. row.items ≡ map new_thief owners.items) rows.items }
    ensures { IfOk result (λ hands. AreFresh (length owners.items) (map (λ b. b.deque) owners.items) hands.items) }
{
    let mut hands = Vec::new(alloc);
    let mut rows = rows;
    for own in owners {
        let Some(thieves) = rows.pop() else {
            unreachable!()
        };
        hands.push(Hands::new(hands.len() as u32, own, thieves))?;
    }
    Ok(hands)
}
