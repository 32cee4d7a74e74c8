//! What the send of an item changes in its shard.

ghost use Rattle.std.specs.Prelude.{◌≡◌, IfOk, IsOk, OnErr, OnOk};
ghost use Rattle.std.specs.Option.{option_copied};
ghost use Rattle.dep_shard.specs.Content.{IsUnchanged, KeepsSpares};
ghost use Rattle.work_board.specs.Sends.{AnswersFor};
ghost use Rattle.table_rule.specs.GivingBack.{TakesItem};
ghost use Rattle.dep_table.specs.Sending as sending;
ghost use Rattle.dep_table.specs.Sending.{HasSpareForItem, MayTakeItem};

use dep_iter::Matched;
use dep_shard::{Arrived, Shard};
use ptg_base::{Item, OutOfMemory, Tile};
use shard_calls::{take_edge, take_write};
use work_board::Sent;

// What a send returns if this became of the target.
fn answer_of(arrived: Arrived) -> Sent
    ensures { result ≡ sending.answer_of arrived }
{
    match arrived {
        Arrived::Waits => Sent::Waits,
        Arrived::Fired => Sent::Fired,
    }
}

// Adds an item with its tile to a shard. If memory is refused, the shard stays as it was, except that spares may grow.
pub(crate) fn take_item(
    shard: &mut Shard,
    m: &Matched,
    item: &Item,
    tile: Option<&Tile>,
) -> Result<Sent, OutOfMemory>
    requires { MayTakeItem m.now item.now (option_copied tile) shard.old }
    ensures takes { OnOk result (TakesItem m.now item.now (option_copied tile.entry) shard.old shard.new) }
    ensures answer { IfOk result (λ a. AnswersFor m.now shard.old item.now a) }
    ensures same { OnErr result (IsUnchanged shard.old shard.new) }
    ensures kept { OnErr result (KeepsSpares shard.old.spare shard.new.spare) }
    ensures succeeds { HasSpareForItem m.now item.now (option_copied tile.entry) shard.old → IsOk result }
{
    match item {
        Item::Edge(edge) => Ok(answer_of(take_edge(shard, m, edge, tile)?)),
        Item::Write(write) => {
            take_write(shard, m, write, tile)?;
            Ok(Sent::Kept)
        }
    }
}
