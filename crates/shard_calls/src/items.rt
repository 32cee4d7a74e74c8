//! The items that a shard takes in.

ghost use Rattle.std.specs.Prelude.{◌≡◌, ◌↔◌, IfOk, IsOk, OnErr, OnOk};
ghost use Rattle.std.specs.Option.{option_copied};
ghost use Rattle.dep_shard.specs.declared.shard.Arrived.TheVariants.{Fired};
ghost use Rattle.dep_shard.specs.Content.{IsReady, IsUnchanged, KeepsSpares};
ghost use Rattle.shard_calls.specs.Taken.{HasSpareForEdge, HasSpareForWrite, MayTakeEdge, MayTakeWrite, TakesEdge, TakesWrite};
ghost use Rattle.shard_meaning.specs.Share.{entry_after};

use crate::arriving::{arrive, type_of_flow};
use dep_iter::Matched;
use dep_shard::{Arrived, Shard};
use ptg_base::{Edge, OutOfMemory, Tile, WriteBack};

/// Takes an edge into a shard, with its tile. If memory is refused, the shard stays as it was, but for spares that may
/// grow.
pub fn take_edge(
    shard: &mut Shard,
    m: &Matched,
    edge: &Edge,
    tile: Option<&Tile>,
) -> Result<Arrived, OutOfMemory>
    requires { MayTakeEdge m.now edge.now (option_copied tile) shard.old }
    ensures takes { OnOk result (TakesEdge m.now edge.now (option_copied tile.entry) shard.old shard.new) }
    ensures fired { IfOk result (λ a.
        (a ≡ Fired) ↔ IsReady (entry_after m.now edge.now (option_copied tile.entry) shard.old)) }
    ensures same { OnErr result (IsUnchanged shard.old shard.new) }
    ensures kept { OnErr result (KeepsSpares shard.old.spare shard.new.spare) }
    ensures succeeds { HasSpareForEdge m.now edge.now (option_copied tile.entry) shard.old → IsOk result }
{
    let datatype = type_of_flow(m, &edge.to, edge.in_flow);
    arrive(shard, m, edge, datatype, tile)
}

/// Takes a write-back into a shard, with its tile. If memory is refused, the shard stays as it was, but for spares that
/// may grow.
pub fn take_write(
    shard: &mut Shard,
    m: &Matched,
    write: &WriteBack,
    tile: Option<&Tile>,
) -> Result<(), OutOfMemory>
    requires { MayTakeWrite m.now write.now (option_copied tile) shard.old }
    ensures takes { OnOk result (TakesWrite m.now write.now (option_copied tile.entry) shard.old shard.new) }
    ensures same { OnErr result (IsUnchanged shard.old shard.new) }
    ensures kept { OnErr result (KeepsSpares shard.old.spare shard.new.spare) }
    ensures succeeds { HasSpareForWrite m.now write.now shard.old → IsOk result }
{
    let datatype = type_of_flow(m, &write.from, write.flow);
    shard.write(write, datatype, tile.unwrap())
}
