//! Reads statements and blocks.

ghost use Rattle.std.specs.Prelude.{◌≡◌};
ghost use Rattle.jdf_lex.specs.Sets.{starts};
ghost use Rattle.jdf_tree.specs.BodyGrammar.{value, declaration, element, assignment, condition, block, otherwise, choice, for_loop, trap_statement, statement, begins_statement, statements, block_rest};
ghost use Rattle.jdf_tree.specs.Reads.{Reads};

use expr_read::{is_name_next, name, outer};
use grammar_core::ReadRefusal;
use jdf_lex::{Terminal, Token, expect, is_next};
use jdf_tree::{BlockTree, ExprWithSpot, Part, StmtTree};
use ptg_base::Seq;
use std::alloc::Global;

// `"=" expr ";"`
#[tactic(auto, unfolding(jdf_tree::specs::BodyGrammar::value))]
fn value(alloc: Global, tokens: &[Token]) -> Result<(ExprWithSpot, &[Token]), ReadRefusal>
    ensures { Reads value tokens.now result }
{
    let (_, rest) = expect(tokens, Terminal::Assign)?;
    let (value, rest) = outer(alloc, Part::Body, rest)?;
    let (_, rest) = expect(rest, Terminal::Semicolon)?;
    Ok((value, rest))
}

// `int name value`
#[tactic(auto, unfolding(jdf_tree::specs::BodyGrammar::declaration))]
fn declaration(alloc: Global, tokens: &[Token]) -> Result<(StmtTree, &[Token]), ReadRefusal>
    ensures { Reads declaration tokens.now result }
{
    let (_, rest) = expect(tokens, Terminal::Int)?;
    let (name, rest) = name(alloc, Part::Body, rest)?;
    let (value, rest) = value(alloc, rest)?;
    Ok((StmtTree::Declare(name, value.tree), rest))
}

// `"[" expr "]"`
#[tactic(auto, unfolding(jdf_tree::specs::BodyGrammar::element))]
fn element(alloc: Global, tokens: &[Token]) -> Result<(ExprWithSpot, &[Token]), ReadRefusal>
    ensures { Reads element tokens.now result }
{
    let (_, rest) = expect(tokens, Terminal::LeftBracket)?;
    let (at, rest) = outer(alloc, Part::Body, rest)?;
    let (_, rest) = expect(rest, Terminal::RightBracket)?;
    Ok((at, rest))
}

// `name element? value`
#[tactic(auto, using(crate::proofs::AfterLookahead::assignment_reads))]
fn assignment(alloc: Global, tokens: &[Token]) -> Result<(StmtTree, &[Token]), ReadRefusal>
    ensures { Reads assignment tokens.now result }
{
    let (name, rest) = name(alloc, Part::Body, tokens)?;
    if !is_next(rest, Terminal::LeftBracket) {
        let (value, rest) = value(alloc, rest)?;
        return Ok((StmtTree::Set(name, value.tree), rest));
    }
    let (at, rest) = element(alloc, rest)?;
    let (value, rest) = value(alloc, rest)?;
    Ok((StmtTree::Put(name, at.tree, value.tree), rest))
}

// `"(" expr ")"`
#[tactic(auto, unfolding(jdf_tree::specs::BodyGrammar::condition))]
fn condition(alloc: Global, tokens: &[Token]) -> Result<(ExprWithSpot, &[Token]), ReadRefusal>
    ensures { Reads condition tokens.now result }
{
    let (_, rest) = expect(tokens, Terminal::LeftParen)?;
    let (condition, rest) = outer(alloc, Part::Body, rest)?;
    let (_, rest) = expect(rest, Terminal::RightParen)?;
    Ok((condition, rest))
}

// `"{" statement* "}"`
#[cycle(block)]
#[tactic(auto, using(crate::proofs::Begins::block_is, expr_read::proofs::Loops::token_shrinks), unfolding(jdf_tree::specs::BodyGrammar::block))]
pub(crate) fn block(alloc: Global, tokens: &[Token]) -> Result<(BlockTree, &[Token]), ReadRefusal>
    ensures { Reads block tokens.now result }
{
    let (_, rest) = expect(tokens, Terminal::LeftBrace)?;
    let (block, rest) = block_rest(alloc, rest)?;
    Ok((block, rest))
}

// `else block`
#[cycle(block)]
#[tactic(auto, using(expr_read::proofs::Loops::token_shrinks), unfolding(jdf_tree::specs::BodyGrammar::otherwise))]
fn otherwise(alloc: Global, tokens: &[Token]) -> Result<(BlockTree, &[Token]), ReadRefusal>
    ensures { Reads otherwise tokens.now result }
{
    let (_, rest) = expect(tokens, Terminal::Else)?;
    let (block, rest) = block(alloc, rest)?;
    Ok((block, rest))
}

// `if condition block otherwise?`
#[cycle(block)]
#[tactic(auto, using(crate::proofs::AfterLookahead::choice_reads, expr_read::proofs::Loops::token_shrinks, expr_read::proofs::Loops::reading_shrinks))]
fn choice(alloc: Global, tokens: &[Token]) -> Result<(StmtTree, &[Token]), ReadRefusal>
    ensures { Reads choice tokens.now result }
{
    let (_, rest) = expect(tokens, Terminal::If)?;
    let (condition, rest) = condition(alloc, rest)?;
    let (first, rest) = block(alloc, rest)?;
    if !is_next(rest, Terminal::Else) {
        let none = BlockTree::of(Seq::new(alloc));
        return Ok((StmtTree::If(condition.tree, first, none), rest));
    }
    let (second, rest) = otherwise(alloc, rest)?;
    Ok((StmtTree::If(condition.tree, first, second), rest))
}

// `for name "=" expr ".." expr block`
#[cycle(block)]
#[tactic(auto, using(expr_read::proofs::Loops::token_shrinks, expr_read::proofs::Loops::reading_shrinks), unfolding(jdf_tree::specs::BodyGrammar::for_loop))]
fn for_loop(alloc: Global, tokens: &[Token]) -> Result<(StmtTree, &[Token]), ReadRefusal>
    ensures { Reads for_loop tokens.now result }
{
    let (_, rest) = expect(tokens, Terminal::For)?;
    let (name, rest) = name(alloc, Part::Body, rest)?;
    let (_, rest) = expect(rest, Terminal::Assign)?;
    let (low, rest) = outer(alloc, Part::Body, rest)?;
    let (_, rest) = expect(rest, Terminal::Dots)?;
    let (high, rest) = outer(alloc, Part::Body, rest)?;
    let (turn, rest) = block(alloc, rest)?;
    Ok((StmtTree::For(name, low.tree, high.tree, turn), rest))
}

// `trap name ";"`
#[tactic(auto, unfolding(jdf_tree::specs::BodyGrammar::trap_statement))]
fn trap_statement(alloc: Global, tokens: &[Token]) -> Result<(StmtTree, &[Token]), ReadRefusal>
    ensures { Reads trap_statement tokens.now result }
{
    let (_, rest) = expect(tokens, Terminal::Trap)?;
    let (word, rest) = name(alloc, Part::Body, rest)?;
    let (_, rest) = expect(rest, Terminal::Semicolon)?;
    Ok((StmtTree::Trap(word), rest))
}

// Whether a statement is next.
fn is_statement_next(tokens: &[Token]) -> bool
    ensures { result ≡ starts begins_statement tokens.now }
{
    match tokens.split_first() {
        None => false,
        Some((first, _)) => match Terminal::of(first) {
            Terminal::Int | Terminal::If | Terminal::For | Terminal::Trap => true,
            _ => is_name_next(Part::Body, tokens),
        },
    }
}

// A statement, chosen by its first token.
#[cycle(block)]
#[tactic(auto, using(crate::proofs::Begins::statement_reads))]
fn statement(alloc: Global, tokens: &[Token]) -> Result<(StmtTree, &[Token]), ReadRefusal>
    ensures { Reads statement tokens.now result }
{
    if is_next(tokens, Terminal::Int) {
        return declaration(alloc, tokens);
    }
    if is_next(tokens, Terminal::If) {
        return choice(alloc, tokens);
    }
    if is_next(tokens, Terminal::For) {
        return for_loop(alloc, tokens);
    }
    if is_next(tokens, Terminal::Trap) {
        return trap_statement(alloc, tokens);
    }
    assignment(alloc, tokens)
}

/// Reads statements as long as one is next.
#[cycle(block)]
#[tactic(auto, using(crate::proofs::Begins::statements_listed, crate::proofs::Begins::statements_end, crate::proofs::Begins::statements_fail, crate::proofs::Begins::statements_go_on, crate::proofs::Begins::statements_begin))]
pub(crate) fn statements(
    alloc: Global,
    tokens: &[Token],
) -> Result<(BlockTree, &[Token]), ReadRefusal>
    ensures { Reads statements tokens.now result }
{
    let mut list = Seq::new(alloc);
    let mut rest = tokens;
    'more: while is_statement_next(rest) {
        let (next, after) = statement(alloc, rest)?;
        list.push(next)?;
        rest = after;
    }
    Ok((BlockTree::of(list), rest))
}

// The rest of a block after its opening brace.
#[cycle(block)]
#[tactic(auto, unfolding(jdf_tree::specs::BodyGrammar::block_rest))]
fn block_rest(alloc: Global, tokens: &[Token]) -> Result<(BlockTree, &[Token]), ReadRefusal>
    ensures { Reads block_rest tokens.now result }
{
    let (list, rest) = statements(alloc, tokens)?;
    let (_, rest) = expect(rest, Terminal::RightBrace)?;
    Ok((list, rest))
}
