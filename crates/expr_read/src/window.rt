//! Outermost expressions, which have a limit.

ghost use Rattle.std.specs.Prelude.{◌≡◌, IfSome, Ok};
ghost use Rattle.grammar_core.specs.Reading.{reading};
ghost use Rattle.jdf_tree.specs.ExpressionGrammar.{outer, guard};
ghost use Rattle.jdf_tree.specs.Grammar.{productions};
ghost use Rattle.jdf_tree.specs.Reads.{Reads};
ghost use Rattle.expr_read.specs.Precedences.{form_of, limited_form};

use crate::operators::{expression, operands};
use crate::precedence::Precedence;
use grammar_core::{ReadFault, ReadRefusal, refusal_at};
use jdf_lex::{GrammarCode, Token, expression_limit};
use jdf_tree::{ExprWithSpot, Part};
use std::alloc::Global;

// This many tokens are within the limit of an expression, whatever they are.
const WITHIN: usize = 128;

// The kinds of outermost expressions.
#[derive(Clone, Copy)]
enum Outermost {
    // Any expression.
    Expression(Part),
    // A guard: an expression of a class with no `? :` outside of parentheses.
    Guard,
}

// Reads an outermost expression, without its limit.
fn form(
    alloc: Global,
    outermost: Outermost,
    tokens: &[Token],
) -> Result<(ExprWithSpot, &[Token]), ReadRefusal>
    ensures { Reads (form_of outermost) tokens.now result }
{
    match outermost {
        Outermost::Expression(part) => expression(alloc, part, tokens),
        Outermost::Guard => operands(alloc, Part::Class, Precedence::Disjunction, tokens),
    }
}

// Reads an outermost expression that ends within the first `WITHIN` tokens, so that its limit need not be found. None
// if it does not end there.
#[tactic(auto, using(crate::proofs::Brief::brief_reads, crate::proofs::Loops::reading_shrinks))]
fn brief(alloc: Global, outermost: Outermost, tokens: &[Token]) -> Option<(ExprWithSpot, &[Token])>
    ensures { IfSome result (λ (tree, rest).
        reading productions (limited_form outermost) tokens.now ≡ Ok (tree, rest.now)) }
{
    if tokens.len() <= WITHIN {
        return None;
    }
    let (window, _) = tokens.split_at(WITHIN + 1);
    match form(alloc, outermost, window) {
        Ok((tree, rest)) if !rest.is_empty() => Some((tree, &tokens[window.len() - rest.len()..])),
        _ => None,
    }
}

// Reads an outermost expression in a window of tokens up to its limit, so that no text makes the recursion deep.
#[tactic(auto, using(crate::proofs::InWindow::short, crate::proofs::InWindow::slice, crate::proofs::InWindow::cut, crate::proofs::InWindow::form_within, crate::proofs::Loops::reading_shrinks))]
fn within_limit(
    alloc: Global,
    outermost: Outermost,
    tokens: &[Token],
) -> Result<(ExprWithSpot, &[Token]), ReadRefusal>
    ensures { Reads (limited_form outermost) tokens.now result }
{
    if let Some(read) = brief(alloc, outermost, tokens) {
        return Ok(read);
    }
    let limit = expression_limit(tokens);
    if tokens.len() <= limit {
        return form(alloc, outermost, tokens);
    }
    let (window, after) = tokens.split_at(limit + 1);
    match form(alloc, outermost, window) {
        Ok((tree, rest)) if !rest.is_empty() => Ok((tree, &tokens[window.len() - rest.len()..])),
        Ok(_) => Err(refusal_at(&tokens[limit..], GrammarCode::ExprTooLong.code())),
        Err(ReadRefusal::OutOfMemory) => Err(ReadRefusal::OutOfMemory),
        Err(ReadRefusal::Fault(ReadFault { left: 0, .. })) => Err(refusal_at(
            &tokens[limit..],
            GrammarCode::ExprTooLong.code(),
        )),
        Err(ReadRefusal::Fault(ReadFault { left, code })) => Err(ReadRefusal::Fault(ReadFault {
            left: left + after.len(),
            code,
        })),
    }
}

/// Reads an outermost expression. Returns its tree with its spot, and the tokens after it.
pub fn outer(
    alloc: Global,
    part: Part,
    tokens: &[Token],
) -> Result<(ExprWithSpot, &[Token]), ReadRefusal>
    ensures { Reads (outer part) tokens.now result }
{
    within_limit(alloc, Outermost::Expression(part), tokens)
}

/// Reads a guard. Returns its tree with its spot, and the tokens after it.
pub fn guard(alloc: Global, tokens: &[Token]) -> Result<(ExprWithSpot, &[Token]), ReadRefusal>
    ensures { Reads guard tokens.now result }
{
    within_limit(alloc, Outermost::Guard, tokens)
}
