//! Runs of bodies of tasks.
ghost use Rattle.std.specs.Prelude.{IfOk};
ghost use Rattle.term_core.specs.WellBody.{IsWellBody};

use crate::count::{Count, Counts, Failure};
use body_eval::{Scratch, run_body};
use ptg_base::{Seq, Tile};
use std::alloc::Global;
use term_core::{BinOp, Block, Body, Expr, Stmt};

// The slot of `x`.
const X: u16 = 0;

// The slot of `i`.
const I: u16 = 1;

// The body `int x = 0; for i = 1 .. size { x = x + i; } A[0] = x;`, with `A` as its one flow.
fn turns(alloc: Global, size: u32) -> Result<Body, Failure>
    ensures { IfOk result (IsWellBody 0 1) }
{
    let sum = Expr::binary(alloc, BinOp::Add, Expr::local(X), Expr::local(I))?;
    let turn = Block::of(Seq::of(vec![in alloc; Stmt::Set(X, sum)]?));
    let last = Expr::num(i64::from(size));
    let statements = vec![in alloc;
        Stmt::Set(X, Expr::num(0)),
        Stmt::For(I, Expr::num(1), last, turn),
        Stmt::Put(0, Expr::num(0), Expr::local(X)),
    ]?;
    Ok(Body {
        statements: Block::of(Seq::of(statements)),
        slots: 2,
    })
}

/// Runs a body with this many turns of a loop. Counts the sum that it leaves in its tile.
pub fn body(alloc: Global, size: u32) -> Result<Counts, Failure> {
    let body = turns(alloc, size)?;
    let mut tiles = vec![in alloc; Some(Tile::zeros(alloc, 1)?)]?;
    run_body(&body, &[], tiles.as_mut_slice(), &mut Scratch::new()).map_err(Failure::Trapped)?;
    let value = match &tiles[0] {
        Some(tile) if tile.len() > 0 => tile.get(0),
        _ => return Err(Failure::NotWellMade),
    };
    Ok(Counts::one(Count { name: "sum", value }))
}
