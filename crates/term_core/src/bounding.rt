//! Expressions that have a value on all small locals, as their form shows.

ghost use Rattle.std.specs.Prelude.{◌≡◌, IfSome, IsTrue, false};
ghost use Rattle.std.specs.Bool.{OnTrue};
ghost use Rattle.term_core.specs.NodeTerm.{leaf_term, term_of};
ghost use Rattle.term_core.specs.Term.{Binary, Choose, Term, Unary};
ghost use Rattle.term_core.specs.ValueBounds.{AreSmall, IsBoundBy, IsBoundOf};

use crate::expr::{Expr, Leaf, Node};
use crate::operator::{BinOp, UnOp};
use crate::value_bound::ValueBound;

// The greatest absolute value of a small number.
const MOST_SMALL: u64 = 2_147_483_648;

// The first absolute value that may not fit 64 bits.
const TOO_LARGE: u64 = 9_223_372_036_854_775_808;

// This bound, if all numbers within it fit 64 bits.
fn fitting(most: u64, nonzero: bool) -> Option<ValueBound>
    ensures { IfSome result (λ b. (b.most ≡ most) × (b.nonzero ≡ nonzero)) }
{
    if most < TOO_LARGE {
        Some(ValueBound { most, nonzero })
    } else {
        None
    }
}

// The bound of a leaf.
fn leaf_bound(leaf: Leaf) -> Option<ValueBound>
    ensures { IsBoundOf (leaf_term leaf) result }
{
    match leaf {
        Leaf::Num(z) => fitting(z.unsigned_abs(), z != 0),
        Leaf::Local(_) => fitting(MOST_SMALL, false),
    }
}

// The bound of a binary operation on values within these bounds.
fn operation_bound(op: BinOp, a: ValueBound, b: ValueBound) -> Option<ValueBound>
    ensures { IfSome result (IsBoundBy op a b) }
{
    match op {
        BinOp::Add => fitting(a.most + b.most, false),
        BinOp::Sub => fitting(a.most + b.most, false),
        BinOp::Mul => fitting(a.most.checked_mul(b.most)?, false),
        BinOp::Div => quotient_bound(a, b),
        BinOp::Rem => quotient_bound(a, b),
        _ => fitting(1, false),
    }
}

// The bound of a quotient or a remainder of values within these bounds.
fn quotient_bound(a: ValueBound, b: ValueBound) -> Option<ValueBound>
    ensures divisor { IfSome result (λ _. IsTrue b.nonzero) }
    ensures bound { IfSome result (λ r. (r.most ≡ a.most) × (r.nonzero ≡ false)) }
{
    if b.nonzero {
        fitting(a.most, false)
    } else {
        None
    }
}

// The bound of a binary operation, if its operands have bounds.
#[tactic(auto, using(crate::proofs::WithinBounds::binary_bounded))]
fn binary_bound(op: BinOp, a: Option<ValueBound>, b: Option<ValueBound>) -> Option<ValueBound>
    ensures { (e f : Term) → IsBoundOf e a → IsBoundOf f b → IsBoundOf (Binary op e f) result }
{
    operation_bound(op, a?, b?)
}

// The bound of a unary operation, if its operand has a bound.
fn unary_bound(op: UnOp, a: Option<ValueBound>) -> Option<ValueBound>
    ensures { (e : Term) → IsBoundOf e a → IsBoundOf (Unary op e) result }
{
    let a = a?;
    match op {
        UnOp::Neg => fitting(a.most, false),
        UnOp::Not => fitting(1, false),
    }
}

// The bound of a choice, if its three parts have bounds.
fn choice_bound(
    c: Option<ValueBound>,
    a: Option<ValueBound>,
    b: Option<ValueBound>,
) -> Option<ValueBound>
    ensures { (d e f : Term) → IsBoundOf d c → IsBoundOf e a → IsBoundOf f b → IsBoundOf (Choose d e f) result }
{
    let _condition = c?;
    let a = a?;
    let b = b?;
    fitting(a.most.max(b.most), a.nonzero && b.nonzero)
}

// The bound of a tree of boxed nodes, if each part of it has one.
fn node_bound(node: &Node) -> Option<ValueBound>
    ensures { IsBoundOf (term_of node.now) result }
{
    match node {
        Node::Num(z) => leaf_bound(Leaf::Num(*z)),
        Node::Local(number) => leaf_bound(Leaf::Local(*number)),
        Node::Elem(_, _) | Node::ElemAt(_, _) => None,
        Node::Unary(op, a) => unary_bound(*op, node_bound(a)),
        Node::Binary(op, a, b) => binary_bound(*op, node_bound(a), node_bound(b)),
        Node::Flat(op, a, b) => binary_bound(*op, leaf_bound(*a), leaf_bound(*b)),
        Node::LeafLeft(op, a, b) => binary_bound(*op, leaf_bound(*a), node_bound(b)),
        Node::LeafRight(op, a, b) => binary_bound(*op, node_bound(a), leaf_bound(*b)),
        Node::Choose(c, a, b) => choice_bound(node_bound(c), node_bound(a), node_bound(b)),
    }
}

/// The bound of an expression on small locals, as its form shows. None if a part of it may have a fault, or if its
/// value may be too large.
pub fn bound_of(e: &Expr) -> Option<ValueBound>
    ensures { IsBoundOf e.now result }
{
    node_bound(&e.node)
}

/// Whether each of these numbers is from -(2^31) to 2^31.
pub fn are_small(numbers: &[i64]) -> bool
    ensures { OnTrue result (AreSmall numbers.now) }
{
    match numbers.split_first() {
        Some((z, others)) => z.unsigned_abs() <= MOST_SMALL && are_small(others),
        None => true,
    }
}
