//! Runs a body, statement by statement.

ghost use Rattle.std.specs.Prelude.{◌≡◌, OnOk, IfErr, length};
ghost use Rattle.term_core.specs.WellBody.{IsWellBody};
ghost use Rattle.body_eval.specs.Sizes.{KeepsSizes};
ghost use Rattle.body_eval.specs.State.{state_of};
ghost use Rattle.body_eval.specs.Meaning.{run, turns, turn_values, meaning_within, body_meaning};
ghost use Rattle.body_eval.specs.Statement.{statement_meaning};

use crate::element::{put, value};
use crate::scratch::Scratch;
use ptg_base::Tile;
use term_core::{Block, Body, Stmt, Trap};

// The units of a task's budget: 2^24.
const TASK_BUDGET: u32 = 16777216;

/// Runs a body on the tiles of its task. After a trap the contents of the tiles are unspecified; their sizes stay.
///
/// The recursion is as deep as blocks nest, whatever the number of statements and turns.
#[tactic(auto, unfolding(crate::specs::Meaning::task_budget))]
pub fn run_body(
    body: &Body,
    locals: &[i64],
    tiles: &mut [Option<Tile>],
    scratch: &mut Scratch,
) -> Result<(), Trap>
    requires { IsWellBody (length locals.now) (length tiles.old) body.now }
    ensures ok { OnOk result (body_meaning body.now locals.now tiles.old ≡ Ok tiles.new) }
    ensures trap { IfErr result (λ cause. body_meaning body.now locals.now tiles.old ≡ Err cause) }
    ensures sizes { KeepsSizes tiles.old tiles.new }
{
    run_within(TASK_BUDGET, body, locals, tiles, scratch)
}

// Runs a body within this many units.
fn run_within(
    units: u32,
    body: &Body,
    locals: &[i64],
    tiles: &mut [Option<Tile>],
    scratch: &mut Scratch,
) -> Result<(), Trap>
    requires { IsWellBody (length locals.now) (length tiles.old) body.now }
    ensures ok { OnOk result (meaning_within units body.now locals.now tiles.old ≡ Ok tiles.new) }
    ensures trap { IfErr result (λ cause. meaning_within units body.now locals.now tiles.old ≡ Err cause) }
    ensures sizes { KeepsSizes tiles.old tiles.new }
{
    scratch.start(locals, body.slots, units);
    run_inner_block(&body.statements, scratch, tiles)
}

// Runs the statements of a block. Each costs one unit as it starts. It stands where it is called, so that a loop runs
// simple statements with no call.
#[inline(always)]
#[cycle(run)]
fn run_block(block: &Block, scratch: &mut Scratch, tiles: &mut [Option<Tile>]) -> Result<(), Trap>
    ensures ok { OnOk result (run block.now (state_of scratch.old tiles.old) ≡ Ok (state_of scratch.new tiles.new)) }
    ensures trap { IfErr result (λ cause. run block.now (state_of scratch.old tiles.old) ≡ Err cause) }
    ensures sizes { KeepsSizes tiles.old tiles.new }
{
    for statement in block.as_slice() {
        scratch.spend()?;
        run_statement(statement, scratch, tiles)?;
    }
    Ok(())
}

// Runs a block as `run_block` does, by a call: here the recursion closes.
#[inline(never)]
#[cycle(run)]
fn run_inner_block(
    block: &Block,
    scratch: &mut Scratch,
    tiles: &mut [Option<Tile>],
) -> Result<(), Trap>
    ensures ok { OnOk result (run block.now (state_of scratch.old tiles.old) ≡ Ok (state_of scratch.new tiles.new)) }
    ensures trap { IfErr result (λ cause. run block.now (state_of scratch.old tiles.old) ≡ Err cause) }
    ensures sizes { KeepsSizes tiles.old tiles.new }
{
    run_block(block, scratch, tiles)
}

// Runs a statement whose unit is spent.
#[inline(always)]
#[cycle(run)]
fn run_statement(
    statement: &Stmt,
    scratch: &mut Scratch,
    tiles: &mut [Option<Tile>],
) -> Result<(), Trap>
    ensures ok { OnOk result
        (statement_meaning statement.now (state_of scratch.old tiles.old) ≡ Ok (state_of scratch.new tiles.new)) }
    ensures trap { IfErr result (λ cause.
        statement_meaning statement.now (state_of scratch.old tiles.old) ≡ Err cause) }
    ensures sizes { KeepsSizes tiles.old tiles.new }
{
    match statement {
        Stmt::Set(number, e) => {
            let v = value(e, scratch.slots(), tiles)?;
            scratch.assign(*number, v);
            Ok(())
        }
        Stmt::Put(flow, at, e) => {
            let i = value(at, scratch.slots(), tiles)?;
            let v = value(e, scratch.slots(), tiles)?;
            put(tiles, *flow, i, v)
        }
        Stmt::If(condition, first, second) => {
            let x = value(condition, scratch.slots(), tiles)?;
            if x == 0 {
                run_inner_block(second, scratch, tiles)
            } else {
                run_inner_block(first, scratch, tiles)
            }
        }
        Stmt::For(number, lo, hi, turn) => {
            let lo = value(lo, scratch.slots(), tiles)?;
            let hi = value(hi, scratch.slots(), tiles)?;
            let variable = LoopVariable {
                number: *number,
                lo,
                hi,
            };
            run_turns(variable, turn, scratch, tiles)
        }
        Stmt::Trap(word) => Err(Trap::Word(*word)),
    }
}

// The variable of a loop: the number of its slot, and its first and last values.
#[derive(Drop)]
struct LoopVariable {
    number: u16,
    lo: i64,
    hi: i64,
}

// Runs a block once for each value of the variable, upwards. Each turn costs one unit as it starts.
#[inline(never)]
#[cycle(run)]
fn run_turns(
    variable: LoopVariable,
    turn: &Block,
    scratch: &mut Scratch,
    tiles: &mut [Option<Tile>],
) -> Result<(), Trap>
    ensures ok { OnOk result
        (turns (run turn.now) variable.number (turn_values variable.lo variable.hi) (state_of scratch.old tiles.old)
        ≡ Ok (state_of scratch.new tiles.new)) }
    ensures trap { IfErr result (λ cause.
        turns (run turn.now) variable.number (turn_values variable.lo variable.hi) (state_of scratch.old tiles.old)
        ≡ Err cause) }
    ensures sizes { KeepsSizes tiles.old tiles.new }
{
    let LoopVariable { number, lo, hi } = variable;
    let mut next = Some(lo);
    while let Some(v) = next {
        if v > hi {
            return Ok(());
        }
        scratch.spend()?;
        scratch.assign(number, v);
        run_block(turn, scratch, tiles)?;
        next = v.checked_add(1);
    }
    Ok(())
}
