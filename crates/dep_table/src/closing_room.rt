//! The memory that a table keeps for its close, taken before its first step.

ghost use Rattle.std.specs.Prelude.{◌≡◌, ◌≤◌, [], IfOk, vec_capacity};

use dep_shard::Shard;
use ptg_base::OutOfMemory;
use shard_answer::Room;
use std::alloc::Global;

// Room for the shards of a table, and for the rows of its answer.
#[derive(Drop)]
pub(crate) struct ClosingRoom {
    pub(crate) shards: Vec<Shard>,
    pub(crate) rows: Room,
}

// Takes memory for this many shards and rows.
pub(crate) fn closing_room(
    alloc: Global,
    shards: u32,
    rows: u64,
) -> Result<ClosingRoom, OutOfMemory>
    ensures empty { IfOk result (λ room. room.shards.items ≡ []) }
    ensures shards { IfOk result (λ room. shards ≤ vec_capacity room.shards) }
    ensures rows { IfOk result (λ room. rows ≤ room.rows) }
{
    let shards = Vec::with_capacity(alloc, shards as usize)?;
    let mut room = Room::new(alloc);
    room.reserve(rows)?;
    Ok(ClosingRoom { shards, rows: room })
}
