//! Reads expressions, without the limit of an outermost one.

ghost use Rattle.std.specs.Prelude.{◌≡◌, MatchOption, IfOk, Ok, true, false};
ghost use Rattle.ptg_base.specs.Returns.{Returns};
ghost use Rattle.grammar_core.specs.Production.{map};
ghost use Rattle.jdf_lex.specs.Sets.{one_of, starts, token_at};
ghost use Rattle.grammar_core.specs.Reading.{reading};
ghost use Rattle.jdf_lex.specs.Terminals.{terminal_of};
ghost use Rattle.jdf_tree.specs.ExpressionGrammar.{index, parens, reference, signed, unary, branches, expr, is_sign, sign_by, operator_by, operator_of};
ghost use Rattle.jdf_tree.specs.Grammar.{productions};
ghost use Rattle.jdf_tree.specs.Reads.{Reads};
ghost use Rattle.jdf_tree.specs.declared.part.Part.TheVariants.{Body};
ghost use Rattle.expr_read.specs.Precedences.{operators_of, operand_of, of_precedence};

use crate::names::{is_name_next, name};
use crate::number::number;
use crate::precedence::Precedence;
use grammar_core::{Code, ReadRefusal, refusal_at};
use jdf_lex::{Terminal, Token, expect, is_next};
use jdf_tree::{ExprTree, ExprWithSpot, Part};
use std::alloc::Global;
use term_core::{BinOp, UnOp};

// `"(" expr ")"`
#[cycle(expression)]
#[tactic(auto, using(crate::proofs::Named::expr_is, crate::proofs::Loops::token_shrinks), unfolding(jdf_tree::specs::ExpressionGrammar::parens))]
fn parens(
    alloc: Global,
    part: Part,
    tokens: &[Token],
) -> Result<(ExprWithSpot, &[Token]), ReadRefusal>
    ensures { Reads (parens part) tokens.now result }
{
    let (open, rest) = expect(tokens, Terminal::LeftParen)?;
    let (inside, rest) = expression(alloc, part, rest)?;
    let (_, rest) = expect(rest, Terminal::RightParen)?;
    let whole = ExprWithSpot {
        spot: open.spot,
        tree: inside.tree,
    };
    Ok((whole, rest))
}

// `"[" expr "]"`, in a body.
#[cycle(expression)]
#[tactic(auto, using(crate::proofs::Named::expr_is, crate::proofs::Loops::token_shrinks), unfolding(jdf_tree::specs::ExpressionGrammar::index))]
fn index(alloc: Global, tokens: &[Token]) -> Result<(ExprWithSpot, &[Token]), ReadRefusal>
    ensures { Reads index tokens.now result }
{
    let (_, rest) = expect(tokens, Terminal::LeftBracket)?;
    let (inside, rest) = expression(alloc, Part::Body, rest)?;
    let (_, rest) = expect(rest, Terminal::RightBracket)?;
    Ok((inside, rest))
}

// A name in a body, or an element of a flow: `name index?`.
#[cycle(expression)]
#[tactic(auto, using(crate::proofs::Loops::element_reads, crate::proofs::Loops::reading_shrinks))]
fn element(alloc: Global, tokens: &[Token]) -> Result<(ExprWithSpot, &[Token]), ReadRefusal>
    ensures { Reads (reference Body) tokens.now result }
{
    let (name, rest) = name(alloc, Part::Body, tokens)?;
    let spot = name.spot;
    if !is_next(rest, Terminal::LeftBracket) {
        let tree = ExprTree::name(name);
        return Ok((ExprWithSpot { spot, tree }, rest));
    }
    let (at, rest) = index(alloc, rest)?;
    let tree = ExprTree::elem(alloc, name, at.tree)?;
    Ok((ExprWithSpot { spot, tree }, rest))
}

// A name, or in a body `name index?`.
#[cycle(expression)]
#[tactic(auto, unfolding(jdf_tree::specs::ExpressionGrammar::reference))]
fn reference(
    alloc: Global,
    part: Part,
    tokens: &[Token],
) -> Result<(ExprWithSpot, &[Token]), ReadRefusal>
    ensures { Reads (reference part) tokens.now result }
{
    match part {
        Part::Body => element(alloc, tokens),
        Part::Class => {
            let (name, rest) = name(alloc, Part::Class, tokens)?;
            let spot = name.spot;
            let tree = ExprTree::name(name);
            Ok((ExprWithSpot { spot, tree }, rest))
        }
    }
}

// The prefix operator of this mark, if it is one.
fn sign(terminal: Terminal) -> Option<UnOp>
    ensures { MatchOption result (is_sign terminal ≡ false) (λ o. (is_sign terminal ≡ true) × (o ≡ sign_by terminal)) }
{
    match terminal {
        Terminal::Minus => Some(UnOp::Neg),
        Terminal::Not => Some(UnOp::Not),
        _ => None,
    }
}

// Whether a prefix operator is next.
fn is_sign_next(tokens: &[Token]) -> bool
    ensures { result ≡ starts is_sign tokens.now }
{
    match tokens.split_first() {
        None => false,
        Some((first, _)) => sign(Terminal::of(first)).is_some(),
    }
}

// Takes a prefix operator: the operator, its token, and the tokens after it.
fn sign_at(tokens: &[Token]) -> Result<(UnOp, &Token, &[Token]), ReadRefusal>
    ensures token { Returns (λ (operator, token, rest). (token.now, rest.now)) result (token_at is_sign tokens.now) }
    ensures operator { IfOk result (λ (operator, token, rest). operator ≡ sign_by (terminal_of token.now)) }
{
    let Some((first, rest)) = tokens.split_first() else {
        return Err(refusal_at(tokens, Code::Syntax));
    };
    match sign(Terminal::of(first)) {
        Some(operator) => Ok((operator, first, rest)),
        None => Err(refusal_at(tokens, Code::Syntax)),
    }
}

// `("-" | "!") unary`
#[cycle(expression)]
#[tactic(auto, using(crate::proofs::Named::unary_is, crate::proofs::Loops::token_shrinks), unfolding(jdf_tree::specs::ExpressionGrammar::signed))]
fn signed(
    alloc: Global,
    part: Part,
    tokens: &[Token],
) -> Result<(ExprWithSpot, &[Token]), ReadRefusal>
    ensures { Reads (signed part) tokens.now result }
{
    let (operator, mark, rest) = sign_at(tokens)?;
    let (operand, rest) = unary(alloc, part, rest)?;
    let spot = mark.spot;
    let tree = ExprTree::unary(alloc, operator, operand.tree, spot)?;
    Ok((ExprWithSpot { spot, tree }, rest))
}

// An operand of infix operators: a prefix operator with its operand, a number, a reference, or parentheses.
#[cycle(expression)]
#[tactic(auto, using(crate::proofs::Loops::unary_reads))]
fn unary(
    alloc: Global,
    part: Part,
    tokens: &[Token],
) -> Result<(ExprWithSpot, &[Token]), ReadRefusal>
    ensures { Reads (unary part) tokens.now result }
{
    if is_sign_next(tokens) {
        return signed(alloc, part, tokens);
    }
    if is_next(tokens, Terminal::Number) {
        return number(tokens);
    }
    if is_name_next(part, tokens) {
        return reference(alloc, part, tokens);
    }
    parens(alloc, part, tokens)
}

// The infix operator of this precedence with this mark, if there is one.
fn operator(precedence: Precedence, terminal: Terminal) -> Option<BinOp>
    ensures { MatchOption result (operators_of precedence terminal ≡ false) (λ o.
        (operators_of precedence terminal ≡ true) × (o ≡ operator_by terminal)) }
{
    match (precedence, terminal) {
        (Precedence::Product, Terminal::Star) => Some(BinOp::Mul),
        (Precedence::Product, Terminal::Slash) => Some(BinOp::Div),
        (Precedence::Product, Terminal::Percent) => Some(BinOp::Rem),
        (Precedence::Sum, Terminal::Plus) => Some(BinOp::Add),
        (Precedence::Sum, Terminal::Minus) => Some(BinOp::Sub),
        (Precedence::Relation, Terminal::Less) => Some(BinOp::Lt),
        (Precedence::Relation, Terminal::AtMost) => Some(BinOp::Le),
        (Precedence::Relation, Terminal::Greater) => Some(BinOp::Gt),
        (Precedence::Relation, Terminal::AtLeast) => Some(BinOp::Ge),
        (Precedence::Equality, Terminal::Equal) => Some(BinOp::Eq),
        (Precedence::Equality, Terminal::NotEqual) => Some(BinOp::Ne),
        (Precedence::Conjunction, Terminal::And | Terminal::AndAnd) => Some(BinOp::And),
        (Precedence::Disjunction, Terminal::Or | Terminal::OrOr) => Some(BinOp::Or),
        _ => None,
    }
}

// The infix operator of this precedence that is next, and the tokens after it; None if none is next.
fn operator_at(precedence: Precedence, tokens: &[Token]) -> Option<(BinOp, &[Token])>
    ensures { MatchOption result (starts (operators_of precedence) tokens.now ≡ false)
        (λ x. (starts (operators_of precedence) tokens.now ≡ true)
        × (reading productions (map operator_of (one_of (operators_of precedence))) tokens.now ≡ Ok (x.0, x.1.now))) }
{
    let (first, rest) = tokens.split_first()?;
    let found = operator(precedence, Terminal::of(first))?;
    Some((found, rest))
}

// An operand of the infix operators of this precedence: its own infix operators bind tighter.
#[cycle(expression)]
fn operand(
    alloc: Global,
    part: Part,
    precedence: Precedence,
    tokens: &[Token],
) -> Result<(ExprWithSpot, &[Token]), ReadRefusal>
    ensures { Reads (operand_of precedence part) tokens.now result }
{
    match precedence {
        Precedence::Product => unary(alloc, part, tokens),
        Precedence::Sum => operands(alloc, part, Precedence::Product, tokens),
        Precedence::Relation => operands(alloc, part, Precedence::Sum, tokens),
        Precedence::Equality => operands(alloc, part, Precedence::Relation, tokens),
        Precedence::Conjunction => operands(alloc, part, Precedence::Equality, tokens),
        Precedence::Disjunction => operands(alloc, part, Precedence::Conjunction, tokens),
    }
}

// Operands with infix operators of this precedence between them, grouped to the left.
#[cycle(expression)]
#[tactic(auto, using(crate::proofs::Loops::operands_are, crate::proofs::Loops::tail_ends, crate::proofs::Loops::tail_goes_on, crate::proofs::Loops::reading_shrinks, crate::proofs::Loops::operator_shrinks))]
pub(crate) fn operands(
    alloc: Global,
    part: Part,
    precedence: Precedence,
    tokens: &[Token],
) -> Result<(ExprWithSpot, &[Token]), ReadRefusal>
    ensures { Reads (of_precedence precedence part) tokens.now result }
{
    let (first, mut rest) = operand(alloc, part, precedence, tokens)?;
    let spot = first.spot;
    let mut left = first.tree;
    while let Some((operator, after)) = operator_at(precedence, rest) {
        let (right, next) = operand(alloc, part, precedence, after)?;
        left = ExprTree::binary(alloc, operator, left, right.tree)?;
        rest = next;
    }
    Ok((ExprWithSpot { spot, tree: left }, rest))
}

// `"?" expr ":" expr`
#[cycle(expression)]
#[tactic(auto, using(crate::proofs::Named::expr_is, crate::proofs::Loops::token_shrinks, crate::proofs::Loops::reading_shrinks), unfolding(jdf_tree::specs::ExpressionGrammar::branches))]
fn branches(
    alloc: Global,
    part: Part,
    tokens: &[Token],
) -> Result<((ExprWithSpot, ExprWithSpot), &[Token]), ReadRefusal>
    ensures { Reads (branches part) tokens.now result }
{
    let (_, rest) = expect(tokens, Terminal::Question)?;
    let (yes, rest) = expression(alloc, part, rest)?;
    let (_, rest) = expect(rest, Terminal::Colon)?;
    let (no, rest) = expression(alloc, part, rest)?;
    Ok(((yes, no), rest))
}

// `disjunction ("?" expr ":" expr)?`
#[cycle(expression)]
#[tactic(auto, using(crate::proofs::Loops::expr_reads, crate::proofs::Loops::reading_shrinks))]
pub(crate) fn expression(
    alloc: Global,
    part: Part,
    tokens: &[Token],
) -> Result<(ExprWithSpot, &[Token]), ReadRefusal>
    ensures { Reads (expr part) tokens.now result }
{
    let (condition, rest) = operands(alloc, part, Precedence::Disjunction, tokens)?;
    if !is_next(rest, Terminal::Question) {
        return Ok((condition, rest));
    }
    let ((yes, no), rest) = branches(alloc, part, rest)?;
    let spot = condition.spot;
    let tree = ExprTree::choose(alloc, condition.tree, yes.tree, no.tree)?;
    Ok((ExprWithSpot { spot, tree }, rest))
}
