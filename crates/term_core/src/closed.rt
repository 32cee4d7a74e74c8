//! Whether an expression names only the first locals.

ghost use Rattle.std.specs.Prelude.{◌≡◌};
ghost use Rattle.term_core.specs.NodeTerm.{term_of, leaf_term};
ghost use Rattle.term_core.specs.Value.{is_closed};

use crate::expr::{Expr, Leaf, Node};

// Whether a leaf names no local with this number or a greater one.
fn leaf_is_closed(leaf: Leaf, locals: u16) -> bool
    ensures { result ≡ is_closed locals (leaf_term leaf) }
{
    match leaf {
        Leaf::Num(_) => true,
        Leaf::Local(number) => number < locals,
    }
}

// Whether a tree of boxed nodes has no element and names no local with this number or a greater one.
fn node_is_closed(node: &Node, locals: u16) -> bool
    ensures { result ≡ is_closed locals (term_of node.now) }
{
    match node {
        Node::Num(_) => true,
        Node::Local(number) => *number < locals,
        Node::Elem(_, _) | Node::ElemAt(_, _) => false,
        Node::Unary(_, a) => node_is_closed(a, locals),
        Node::Binary(_, a, b) => node_is_closed(a, locals) && node_is_closed(b, locals),
        Node::Flat(_, a, b) => leaf_is_closed(*a, locals) && leaf_is_closed(*b, locals),
        Node::LeafLeft(_, a, b) => leaf_is_closed(*a, locals) && node_is_closed(b, locals),
        Node::LeafRight(_, a, b) => node_is_closed(a, locals) && leaf_is_closed(*b, locals),
        Node::Choose(c, a, b) => {
            node_is_closed(c, locals) && node_is_closed(a, locals) && node_is_closed(b, locals)
        }
    }
}

/// Whether an expression has no element and names only locals with numbers below this one; with 0, no local at all.
pub fn is_closed(e: &Expr, locals: u16) -> bool
    ensures { result ≡ is_closed locals e.now }
{
    node_is_closed(&e.node, locals)
}
