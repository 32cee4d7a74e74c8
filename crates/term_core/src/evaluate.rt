//! The one evaluator of expressions, for any way to read elements.

ghost use Rattle.std.specs.Prelude.{◌≡◌, ℕ, ℤ, pos, slice_index_or, IfSome, Result, Ok};
ghost use Rattle.term_core.specs.NodeTerm.{term_of, leaf_term};
ghost use Rattle.term_core.specs.Term.{Binary};
ghost use Rattle.term_core.specs.Value.{map_fault, value, value_with};
ghost use Rattle.term_core.specs.declared.fault.ExprFault.{ExprFault};

use crate::arithmetic::{arith, decide, unary};
use crate::expr::{Expr, Leaf, Node};
use crate::fault::ExprFault;
use crate::operator::BinOp;

/// The value of the local with this number, or 0 if there is none.
#[inline(always)]
pub fn local(env: &[i64], number: u16) -> i64
    ensures { result ≡ slice_index_or env.now number (pos 0) }
{
    let at = number as usize;
    if at < env.len() { env[at] } else { 0 }
}

/// A way to read the elements of flows while an expression is evaluated.
pub trait ReadElement {
    /// Why an expression has no value: a fault of arithmetic, or one of reading.
    type Fault: Drop;

    // A fault of arithmetic as one of these faults.
    ghost fault_of: { ExprFault → Self.Fault };

    // The element of a flow at an index.
    ghost element_of: { Self → ℕ → ℤ → Result ℤ Self.Fault };

    /// A fault of arithmetic as one of these faults.
    fn fault(fault: ExprFault) -> Self::Fault
        ensures { result ≡ fault_of fault };

    /// The element of the flow at the index.
    fn element(&self, flow: u8, index: i64) -> Result<i64, Self::Fault>
        ensures { result ≡ element_of self.now flow index };
}

/// The value of an expression on these locals, with its elements read by `elements`, or its first fault in the order of
/// evaluation.
#[inline(always)]
pub fn eval_with<R: ReadElement>(e: &Expr, env: &[i64], elements: &R) -> Result<i64, R::Fault>
    ensures { result ≡ value_with R.fault_of (R.element_of elements.now) env.now e.now }
{
    match short_value(&e.node, env, elements) {
        Some(value) => value,
        None => node_value(&e.node, env, elements),
    }
}

// The value of a leaf.
#[inline(always)]
fn leaf_value<R: ReadElement>(leaf: Leaf, env: &[i64]) -> i64
    ensures { (element : ℕ → ℤ → Result ℤ R.Fault)
        → value_with R.fault_of element env.now (leaf_term leaf) ≡ Ok result }
{
    match leaf {
        Leaf::Num(z) => z,
        Leaf::Local(number) => local(env, number),
    }
}

// The value of a binary operation on two leaves.
#[inline(always)]
fn flat_value<R: ReadElement>(op: BinOp, a: Leaf, b: Leaf, env: &[i64]) -> Result<i64, R::Fault>
    ensures { (element : ℕ → ℤ → Result ℤ R.Fault)
        → result ≡ value_with R.fault_of element env.now (Binary op (leaf_term a) (leaf_term b)) }
{
    let x = leaf_value::<R>(a, env);
    if let Some(z) = decide(op, x) {
        return Ok(z);
    }
    with_fault::<R>(arith(op, x, leaf_value::<R>(b, env)))
}

// The value of a node without boxes, so that most values need no recursive call. None for other nodes.
#[inline(always)]
fn short_value<R: ReadElement>(
    node: &Node,
    env: &[i64],
    elements: &R,
) -> Option<Result<i64, R::Fault>>
    ensures { IfSome result (λ value.
        value ≡ value_with R.fault_of (R.element_of elements.now) env.now (term_of node.now)) }
{
    match node {
        Node::Num(z) => Some(Ok(*z)),
        Node::Local(number) => Some(Ok(local(env, *number))),
        Node::Flat(op, a, b) => Some(flat_value::<R>(*op, *a, *b, env)),
        Node::ElemAt(flow, at) => Some(elements.element(*flow, leaf_value::<R>(*at, env))),
        _ => None,
    }
}

// The value of a tree of boxed nodes.
fn node_value<R: ReadElement>(node: &Node, env: &[i64], elements: &R) -> Result<i64, R::Fault>
    ensures { result ≡ value_with R.fault_of (R.element_of elements.now) env.now (term_of node.now) }
{
    match node {
        Node::Num(z) => Ok(*z),
        Node::Local(number) => Ok(local(env, *number)),
        Node::Elem(flow, at) => {
            let index = match short_value(at, env, elements) {
                Some(value) => value,
                None => node_value(at, env, elements),
            }?;
            elements.element(*flow, index)
        }
        Node::ElemAt(flow, at) => elements.element(*flow, leaf_value::<R>(*at, env)),
        Node::Unary(op, a) => {
            let x = node_value(a, env, elements)?;
            with_fault::<R>(unary(*op, x))
        }
        Node::Binary(op, a, b) => {
            let x = match short_value(a, env, elements) {
                Some(value) => value,
                None => node_value(a, env, elements),
            }?;
            if let Some(z) = decide(*op, x) {
                return Ok(z);
            }
            let y = match short_value(b, env, elements) {
                Some(value) => value,
                None => node_value(b, env, elements),
            }?;
            with_fault::<R>(arith(*op, x, y))
        }
        Node::Flat(op, a, b) => flat_value::<R>(*op, *a, *b, env),
        Node::LeafLeft(op, a, b) => {
            let x = leaf_value::<R>(*a, env);
            if let Some(z) = decide(*op, x) {
                return Ok(z);
            }
            let y = match short_value(b, env, elements) {
                Some(value) => value,
                None => node_value(b, env, elements),
            }?;
            with_fault::<R>(arith(*op, x, y))
        }
        Node::LeafRight(op, a, b) => {
            let x = match short_value(a, env, elements) {
                Some(value) => value,
                None => node_value(a, env, elements),
            }?;
            if let Some(z) = decide(*op, x) {
                return Ok(z);
            }
            with_fault::<R>(arith(*op, x, leaf_value::<R>(*b, env)))
        }
        Node::Choose(c, a, b) => {
            let x = node_value(c, env, elements)?;
            if x == 0 {
                node_value(b, env, elements)
            } else {
                node_value(a, env, elements)
            }
        }
    }
}

// A result of arithmetic, with its fault as one of the reader's faults.
fn with_fault<R: ReadElement>(value: Result<i64, ExprFault>) -> Result<i64, R::Fault>
    ensures { result ≡ map_fault R.fault_of value }
{
    match value {
        Ok(z) => Ok(z),
        Err(fault) => Err(R::fault(fault)),
    }
}

// Reads each element as 0: for expressions that have none.
struct NoElements;

impl ReadElement for NoElements {
    type Fault = ExprFault;

    ghost fault_of = { λ fault. fault };

    ghost element_of = { λ elements flow index. Ok (pos 0) };

    fn fault(fault: ExprFault) -> ExprFault {
        fault
    }

    fn element(&self, _flow: u8, _index: i64) -> Result<i64, ExprFault> {
        Ok(0)
    }
}

/// The value of an expression without elements on these locals, or its first fault.
#[inline(always)]
pub fn eval(e: &Expr, env: &[i64]) -> Result<i64, ExprFault>
    ensures { result ≡ value e.now env.now }
{
    eval_with(e, env, &NoElements)
}
