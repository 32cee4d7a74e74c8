//! Reads and writes the elements of the tiles of a task's flows.

ghost use Rattle.std.specs.Prelude.{◌≡◌, OnOk, IfErr};
ghost use Rattle.term_core.specs.Trap.{trap_of};
ghost use Rattle.body_eval.specs.Element.{element_value, put_element, body_value};
ghost use Rattle.body_eval.specs.Sizes.{KeepsSizes};

use ptg_base::{Tile, index_in};
use term_core::{Expr, ExprFault, ReadElement, Trap, eval_with};

// The tiles of a task's flows, as a source of elements.
#[derive(Drop)]
struct Tiles<'a> {
    tiles: &'a [Option<Tile>],
}

impl ReadElement for Tiles<'_> {
    type Fault = Trap;

    ghost fault_of = { trap_of };

    ghost element_of = { λ t. element_value t.tiles.now };

    fn fault(fault: ExprFault) -> Trap
        ensures { result ≡ trap_of fault }
    {
        Trap::from(fault)
    }

    #[inline(always)]
    fn element(&self, flow: u8, at: i64) -> Result<i64, Trap>
        ensures { result ≡ element_value self.now.tiles.now flow at }
    {
        let flow = flow as usize;
        if flow >= self.tiles.len() {
            return Err(Trap::Absent);
        }
        let Some(tile) = &self.tiles[flow] else {
            return Err(Trap::Absent);
        };
        match index_in(tile.len(), at) {
            None => Err(Trap::Index),
            Some(i) => Ok(tile.get(i)),
        }
    }
}

/// Returns the value of an expression of a body, or the trap of its evaluation.
#[inline(always)]
pub(crate) fn value(e: &Expr, slots: &[i64], tiles: &[Option<Tile>]) -> Result<i64, Trap>
    ensures { result ≡ body_value slots.now tiles.now e.now }
{
    eval_with(e, slots, &Tiles { tiles })
}

/// Writes a value to the element of the flow's tile at the index; traps if the flow is absent or the index is not in
/// the tile.
#[inline(always)]
pub(crate) fn put(tiles: &mut [Option<Tile>], flow: u8, at: i64, v: i64) -> Result<(), Trap>
    ensures ok { OnOk result (put_element tiles.old flow at v ≡ Ok tiles.new) }
    ensures trap { IfErr result (λ cause. put_element tiles.old flow at v ≡ Err cause) }
    ensures sizes { KeepsSizes tiles.old tiles.new }
{
    let flow = flow as usize;
    if flow >= tiles.len() {
        return Err(Trap::Absent);
    }
    match &mut tiles[flow] {
        None => Err(Trap::Absent),
        Some(tile) => match index_in(tile.len(), at) {
            None => Err(Trap::Index),
            Some(i) => {
                tile.set(i, v);
                Ok(())
            }
        },
    }
}
