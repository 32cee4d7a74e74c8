//! Resolves the names of expressions.

ghost use Rattle.std.specs.Prelude.{◌≡◌};
ghost use Rattle.ptg_base.specs.Returns.{Returns};
ghost use Rattle.jdf_tree.specs.NodeExpression.{expression_of};
ghost use Rattle.expr_names.specs.Symbols.{Resolved};
ghost use Rattle.expr_names.specs.Expressions.{together, term_of};
ghost use Rattle.expr_names.specs.Refusals.{reported_refusal};

use crate::meaning::value_of;
use crate::symbols::Symbols;
use jdf_lex::JdfRefusal;
use jdf_tree::{ExprNode, ExprTree};
use std::alloc::Global;
use term_core::Expr;

/// Returns the term of an expression, whose names mean what `symbols` says. If names have faults, it returns the one
/// that `symbols` reports.
pub fn term_of<S: Symbols>(alloc: Global, symbols: &S, tree: &ExprTree) -> Result<Expr, JdfRefusal>
    requires { S.is_sound symbols.now }
    ensures { Returns (λ e. e) result (term_of (S.table symbols.now) tree.now) }
{
    node_term(alloc, symbols, tree.node())
}

// Which of two refusals is reported; out of memory, if either of them is that.
fn reported<S: Symbols>(symbols: &S, first: JdfRefusal, second: JdfRefusal) -> JdfRefusal
    requires { S.is_sound symbols.now }
    ensures { result ≡ reported_refusal (S.table symbols.now).reported first second }
{
    match first {
        JdfRefusal::OutOfMemory => JdfRefusal::OutOfMemory,
        JdfRefusal::Fault(f) => match second {
            JdfRefusal::OutOfMemory => JdfRefusal::OutOfMemory,
            JdfRefusal::Fault(g) => JdfRefusal::Fault(symbols.reported(f, g)),
        },
    }
}

// Two parts of an expression: both of them, or the fault of one, or whichever of two faults is reported.
#[tactic(auto, using(crate::proofs::Together::both_there, crate::proofs::Together::second_refused, crate::proofs::Together::first_refused, crate::proofs::Together::both_refused))]
fn together<S: Symbols, A: Drop, B: Drop>(
    symbols: &S,
    first: Result<A, JdfRefusal>,
    second: Result<B, JdfRefusal>,
) -> Result<(A, B), JdfRefusal>
    requires { S.is_sound symbols.now }
    ensures { (p : Resolved A) (q : Resolved B) → Returns (λ x. x) first p → Returns (λ x. x) second q
        → Returns (λ x. x) result (together (S.table symbols.now).reported p q) }
{
    match first {
        Ok(a) => match second {
            Ok(b) => Ok((a, b)),
            Err(refusal) => Err(refusal),
        },
        Err(refusal) => {
            let Err(other) = second else {
                return Err(refusal);
            };
            Err(reported(symbols, refusal, other))
        }
    }
}

// The term of an expression, given the node at its root.
#[tactic(auto, using(ptg_base::proofs::Refusals::refuses_before))]
fn node_term<S: Symbols>(alloc: Global, symbols: &S, node: &ExprNode) -> Result<Expr, JdfRefusal>
    requires { S.is_sound symbols.now }
    ensures { Returns (λ e. e) result (term_of (S.table symbols.now) (expression_of node.now)) }
{
    match node {
        ExprNode::Num(value, _) => Ok(Expr::num(*value)),
        ExprNode::Name(word) => value_of(word, symbols.meaning(&word.text)),
        ExprNode::Elem(word, at) => {
            let flow = symbols.flow(word);
            let at = node_term(alloc, symbols, at);
            let (flow, at) = together(symbols, flow, at)?;
            Ok(Expr::elem(alloc, flow, at)?)
        }
        ExprNode::Unary(operator, a, _) => {
            let a = node_term(alloc, symbols, a)?;
            Ok(Expr::unary(alloc, *operator, a)?)
        }
        ExprNode::Binary(operator, a, b) => {
            let a = node_term(alloc, symbols, a);
            let b = node_term(alloc, symbols, b);
            let (a, b) = together(symbols, a, b)?;
            Ok(Expr::binary(alloc, *operator, a, b)?)
        }
        ExprNode::Choose(c, a, b) => {
            let c = node_term(alloc, symbols, c);
            let a = node_term(alloc, symbols, a);
            let b = node_term(alloc, symbols, b);
            let branches = together(symbols, a, b);
            let (c, (a, b)) = together(symbols, c, branches)?;
            Ok(Expr::choose(alloc, c, a, b)?)
        }
    }
}
