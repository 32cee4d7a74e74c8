//! Expressions.

ghost use Rattle.std.specs.Prelude.{◌≡◌, IfOk, IfSome};
ghost use Rattle.term_core.specs.Term.{Num, Local, Elem, Unary, Binary, Choose};
ghost use Rattle.term_core.specs.NodeTerm.{term_of, leaf_term};

use crate::operator::{BinOp, UnOp};
use ptg_base::OutOfMemory;
use std::alloc::Global;
use std::marker::Model;

/// An expression over the locals of a task. Contracts see its tree, not its boxes.
pub struct Expr {
    pub(crate) node: Node,
}

impl Drop for Expr {
    fn drop(self) {
        let Expr { node: _node } = self;
    }
}

/// An operand that is a number or a local.
#[derive(Clone, Copy, Drop)]
pub enum Leaf {
    Num(i64),
    Local(u16),
}

/// A node of an expression: a number, a local, or an operation with its operands.
#[derive(Drop)]
pub enum Node {
    /// A number.
    Num(i64),
    /// The local with this number.
    Local(u16),
    /// An element of the tile of the flow with this number.
    Elem(u8, Box<Node>),
    /// An element whose index is a leaf.
    ElemAt(u8, Leaf),
    Unary(UnOp, Box<Node>),
    Binary(BinOp, Box<Node>, Box<Node>),
    /// A binary operation on two leaves.
    Flat(BinOp, Leaf, Leaf),
    /// A binary operation whose left operand is a leaf.
    LeafLeft(BinOp, Leaf, Box<Node>),
    /// A binary operation whose right operand is a leaf.
    LeafRight(BinOp, Box<Node>, Leaf),
    /// `c ? a : b`
    Choose(Box<Node>, Box<Node>, Box<Node>),
}

impl Model for Expr {
    ghost use Rattle.term_core.specs.Term.{Term};
    ghost use Rattle.term_core.specs.TermCode.{term_code};

    ghost Value = { Term };

    ghost coded = { term_code };

    ghost use Rattle.term_core.specs.NodeTerm.{term_of};

    ghost view = { λ e. term_of e.node };
}

// The leaf that a node is, if it is one.
fn leaf_of(node: &Node) -> Option<Leaf>
    ensures { IfSome result (λ l. term_of node.now ≡ leaf_term l) }
{
    match node {
        Node::Num(z) => Some(Leaf::Num(*z)),
        Node::Local(number) => Some(Leaf::Local(*number)),
        _ => None,
    }
}

// An element, without a box if its index is a leaf.
fn elem_node(alloc: Global, flow: u8, at: Node) -> Result<Node, OutOfMemory>
    ensures { IfOk result (λ n. term_of n ≡ Elem flow (term_of at)) }
{
    match leaf_of(&at) {
        Some(index) => Ok(Node::ElemAt(flow, index)),
        None => Ok(Node::Elem(flow, Box::new(alloc, at)?)),
    }
}

// A binary operation, with no box for an operand that is a leaf.
fn binary_node(alloc: Global, op: BinOp, a: Node, b: Node) -> Result<Node, OutOfMemory>
    ensures { IfOk result (λ n. term_of n ≡ Binary op (term_of a) (term_of b)) }
{
    match (leaf_of(&a), leaf_of(&b)) {
        (Some(x), Some(y)) => Ok(Node::Flat(op, x, y)),
        (Some(x), None) => Ok(Node::LeafLeft(op, x, Box::new(alloc, b)?)),
        (None, Some(y)) => Ok(Node::LeafRight(op, Box::new(alloc, a)?, y)),
        (None, None) => Ok(Node::Binary(op, Box::new(alloc, a)?, Box::new(alloc, b)?)),
    }
}

impl Expr {
    /// A number.
    pub fn num(z: i64) -> Expr
        ensures { result ≡ Num z }
    {
        Expr { node: Node::Num(z) }
    }

    /// The local with this number.
    pub fn local(number: u16) -> Expr
        ensures { result ≡ Local number }
    {
        Expr {
            node: Node::Local(number),
        }
    }

    /// The element at this index of the tile of a flow.
    pub fn elem(alloc: Global, flow: u8, at: Expr) -> Result<Expr, OutOfMemory>
        ensures { IfOk result (λ e. e ≡ Elem flow at) }
    {
        Ok(Expr {
            node: elem_node(alloc, flow, at.into_node())?,
        })
    }

    /// An operator before its operand.
    pub fn unary(alloc: Global, op: UnOp, a: Expr) -> Result<Expr, OutOfMemory>
        ensures { IfOk result (λ e. e ≡ Unary op a) }
    {
        Ok(Expr {
            node: Node::Unary(op, Box::new(alloc, a.into_node())?),
        })
    }

    /// An operator between two operands.
    pub fn binary(alloc: Global, op: BinOp, a: Expr, b: Expr) -> Result<Expr, OutOfMemory>
        ensures { IfOk result (λ e. e ≡ Binary op a b) }
    {
        Ok(Expr {
            node: binary_node(alloc, op, a.into_node(), b.into_node())?,
        })
    }

    /// `c ? a : b`
    pub fn choose(alloc: Global, c: Expr, a: Expr, b: Expr) -> Result<Expr, OutOfMemory>
        ensures { IfOk result (λ e. e ≡ Choose c a b) }
    {
        Ok(Expr {
            node: Node::Choose(
                Box::new(alloc, c.into_node())?,
                Box::new(alloc, a.into_node())?,
                Box::new(alloc, b.into_node())?,
            ),
        })
    }

    // The root of the tree.
    fn into_node(self) -> Node
        ensures { term_of result ≡ self }
    {
        let Expr { node } = self;
        node
    }
}
