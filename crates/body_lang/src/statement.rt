//! Resolves the names of statements and blocks.

ghost use Rattle.std.specs.Prelude.{true};
ghost use Rattle.body_lang.specs.Environment.{environment_of};
ghost use Rattle.ptg_base.specs.Returns.{Returns};
ghost use Rattle.body_lang.specs.Bindings.{bindings_of, block_opened};
ghost use Rattle.body_lang.specs.Statements.{declare, set, put, in_block, if_else, for_loop, trap, resolved, statement_of};

use crate::bindings::{
    BindingTable, add_variable, close, next_slot, require_fresh, require_room, word_number,
};
use crate::expression::{slot_of, term_of};
use crate::flow::written_flow;
use crate::scope::Context;
use jdf_lex::JdfRefusal;
use jdf_tree::{BlockTree, ExprTree, StmtTree, Word};
use ptg_base::Seq;
use term_core::{Block, Stmt};

// A declaration. Its variable is seen after it.
#[tactic(auto, using(ptg_base::proofs::Refusals::refuses_before))]
fn declare(
    context: &Context,
    bindings: &mut BindingTable,
    word: &Word,
    value: &ExprTree,
) -> Result<Stmt, JdfRefusal>
    ensures { Returns (λ s. (s, bindings_of bindings.new)) result
        (declare (environment_of context.now.scope.now) word.now value.now (bindings_of bindings.old)) }
{
    require_room(word, bindings)?;
    require_fresh(word, bindings)?;
    let value = term_of(context, bindings.seen.as_slice(), value)?;
    let slot = next_slot(context.scope, bindings);
    add_variable(context, bindings, word, false)?;
    Ok(Stmt::Set(slot, value))
}

// An assignment to a variable.
#[tactic(auto, using(ptg_base::proofs::Refusals::refuses_before))]
fn set(
    context: &Context,
    bindings: &BindingTable,
    word: &Word,
    value: &ExprTree,
) -> Result<Stmt, JdfRefusal>
    ensures { Returns (λ s. (s, bindings_of bindings.now)) result
        (set (environment_of context.now.scope.now) word.now value.now (bindings_of bindings.now)) }
{
    let seen = bindings.seen.as_slice();
    let slot = slot_of(context.scope, seen, word)?;
    let value = term_of(context, seen, value)?;
    Ok(Stmt::Set(slot, value))
}

// An assignment to an element of a tile.
#[tactic(auto, using(ptg_base::proofs::Refusals::refuses_before))]
fn put(
    context: &Context,
    bindings: &BindingTable,
    word: &Word,
    at: &ExprTree,
    value: &ExprTree,
) -> Result<Stmt, JdfRefusal>
    ensures { Returns (λ s. (s, bindings_of bindings.now)) result
        (put (environment_of context.now.scope.now) word.now at.now value.now (bindings_of bindings.now)) }
{
    let seen = bindings.seen.as_slice();
    let flow = written_flow(context.scope, word)?;
    let at = term_of(context, seen, at)?;
    let value = term_of(context, seen, value)?;
    Ok(Stmt::Put(flow, at, value))
}

// A trap, with the number of its word.
fn trap(context: &Context, bindings: &mut BindingTable, word: &Word) -> Result<Stmt, JdfRefusal>
    ensures { Returns (λ s. (s, bindings_of bindings.new)) result (trap word.now (bindings_of bindings.old)) }
{
    let number = word_number(context.alloc, bindings, word)?;
    Ok(Stmt::Trap(number))
}

// A block. After it, its variables are no longer seen.
#[cycle(block)]
#[tactic(auto, using(ptg_base::proofs::Refusals::refuses_before))]
fn in_block(
    context: &Context,
    bindings: &mut BindingTable,
    tree: &BlockTree,
) -> Result<Block, JdfRefusal>
    ensures { Returns (λ b. (b, bindings_of bindings.new)) result
        (in_block block_opened (resolved (environment_of context.now.scope.now) tree.now) (bindings_of bindings.old)) }
{
    let seen = bindings.seen.len();
    let outside = bindings.outside;
    bindings.outside = seen;
    let resolved = block(context, bindings, tree)?;
    close(bindings, seen, outside);
    Ok(resolved)
}

// A choice between two blocks.
#[cycle(block)]
#[tactic(auto, using(ptg_base::proofs::Refusals::refuses_before))]
fn if_else(
    context: &Context,
    bindings: &mut BindingTable,
    condition: &ExprTree,
    first: &BlockTree,
    second: &BlockTree,
) -> Result<Stmt, JdfRefusal>
    ensures { Returns (λ s. (s, bindings_of bindings.new)) result
        (if_else (environment_of context.now.scope.now) condition.now
        (resolved (environment_of context.now.scope.now) first.now)
        (resolved (environment_of context.now.scope.now) second.now) (bindings_of bindings.old)) }
{
    let condition = term_of(context, bindings.seen.as_slice(), condition)?;
    let first = in_block(context, bindings, first)?;
    let second = in_block(context, bindings, second)?;
    Ok(Stmt::If(condition, first, second))
}

// The first and last values of a loop's variable.
#[derive(Drop)]
struct Bounds<'a> {
    low: &'a ExprTree,
    high: &'a ExprTree,
}

// A loop. Its variable is seen in its block alone.
#[cycle(block)]
#[tactic(auto, using(ptg_base::proofs::Refusals::refuses_before))]
fn for_loop(
    context: &Context,
    bindings: &mut BindingTable,
    word: &Word,
    bounds: Bounds,
    turn: &BlockTree,
) -> Result<Stmt, JdfRefusal>
    ensures { Returns (λ s. (s, bindings_of bindings.new)) result
        (for_loop (environment_of context.now.scope.now) word.now bounds.entry.low.now bounds.entry.high.now
        (resolved (environment_of context.now.scope.now) turn.now) (bindings_of bindings.old)) }
{
    require_room(word, bindings)?;
    let low = term_of(context, bindings.seen.as_slice(), bounds.low)?;
    let high = term_of(context, bindings.seen.as_slice(), bounds.high)?;
    let slot = next_slot(context.scope, bindings);
    let seen = bindings.seen.len();
    let outside = bindings.outside;
    bindings.outside = seen;
    add_variable(context, bindings, word, true)?;
    let turn = block(context, bindings, turn)?;
    close(bindings, seen, outside);
    Ok(Stmt::For(slot, low, high, turn))
}

// Resolves the names of a statement.
#[cycle(block)]
fn statement(
    context: &Context,
    bindings: &mut BindingTable,
    tree: &StmtTree,
) -> Result<Stmt, JdfRefusal>
    ensures { Returns (λ s. (s, bindings_of bindings.new)) result
        (statement_of (environment_of context.now.scope.now) tree.now (bindings_of bindings.old)) }
{
    match tree {
        StmtTree::Declare(word, value) => declare(context, bindings, word, value),
        StmtTree::Set(word, value) => set(context, bindings, word, value),
        StmtTree::Put(word, at, value) => put(context, bindings, word, at, value),
        StmtTree::If(condition, first, second) => if_else(
            context, bindings, condition, first, second,
        ),
        StmtTree::For(word, low, high, turn) => {
            for_loop(context, bindings, word, Bounds { low, high }, turn)
        }
        StmtTree::Trap(word) => trap(context, bindings, word),
    }
}

/// Resolves the statements of a block, in order.
#[cycle(block)]
pub(crate) fn block(
    context: &Context,
    bindings: &mut BindingTable,
    tree: &BlockTree,
) -> Result<Block, JdfRefusal>
    ensures { Returns (λ b. (b, bindings_of bindings.new)) result
        (resolved (environment_of context.now.scope.now) tree.now (bindings_of bindings.old)) }
{
    let mut list = Seq::new(context.alloc);
    for statement_tree in tree.as_slice() {
        let next = statement(context, bindings, statement_tree)?;
        list.push(next)?;
    }
    Ok(Block::of(list))
}
