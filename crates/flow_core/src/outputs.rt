//! The tiles that a task left.

ghost use Rattle.std.specs.Prelude.{◌≡◌, ◌<◌};
ghost use Rattle.std.specs.Option.{option_copied};
ghost use Rattle.indexmap.specs.IndexMap.{spare};
ghost use Rattle.body_eval.specs.Element.{tile_of};
ghost use Rattle.flow_core.specs.RunState.{with_tiles};

use crate::body::Ran;
use indexmap::IndexMap;
use ptg_base::{Seq, TaskId, Tile};

// Keeps the tiles that a task left, if it has not trapped.
pub(crate) fn keep_tiles(table: &mut IndexMap<TaskId, Seq<Option<Tile>>>, t: &TaskId, ran: Ran)
    requires { 0 < spare table.old }
    ensures { table.new.entries ≡ with_tiles t.now ran.end table.old.entries }
{
    let Ok(tiles) = ran.end else {
        return;
    };
    let _old = table.insert(t.copy(), tiles).unwrap();
}

// The tile of a flow, if it has one.
pub(crate) fn tile_at(tiles: &Seq<Option<Tile>>, flow: u8) -> Option<&Tile>
    ensures { option_copied result ≡ tile_of tiles.now flow }
{
    match tiles.as_slice().get(flow as usize) {
        Some(tile) => tile.as_ref(),
        None => None,
    }
}
