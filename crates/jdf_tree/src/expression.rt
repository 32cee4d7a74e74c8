//! Expressions of a text as trees.

ghost use Rattle.std.specs.Prelude.{◌≡◌, IfOk};
ghost use Rattle.jdf_tree.specs.Expression.{Num, Name, Elem, Unary, Binary, Choose};
ghost use Rattle.jdf_tree.specs.NodeExpression.{expression_of};

use jdf_lex::Spot;
use ptg_base::{OutOfMemory, Text};
use std::alloc::Global;
use std::marker::Model;
use term_core::{BinOp, UnOp};

/// A name in the text, with its spot.
pub struct Word {
    pub text: Text,
    pub spot: Spot,
}

impl Drop for Word {
    fn drop(self) {
        let Word {
            text: _text,
            spot: _spot,
        } = self;
    }
}

/// An expression in the text. Contracts see the tree, not its boxes. Parentheses are not kept.
pub struct ExprTree {
    pub(crate) node: ExprNode,
}

impl Drop for ExprTree {
    fn drop(self) {
        let ExprTree { node: _node } = self;
    }
}

/// A node of an expression: a number, a name, or an operation with its operands.
#[derive(Drop)]
pub enum ExprNode {
    /// A number, and its spot.
    Num(i64, Spot),
    /// A name alone.
    Name(Word),
    /// An element of the tile of a flow: the flow and the index.
    Elem(Word, Box<ExprNode>),
    /// A prefix operator, its operand and the operator's spot.
    Unary(UnOp, Box<ExprNode>, Spot),
    /// An infix operator and its two operands.
    Binary(BinOp, Box<ExprNode>, Box<ExprNode>),
    /// `c ? a : b`
    Choose(Box<ExprNode>, Box<ExprNode>, Box<ExprNode>),
}

/// An expression, and the spot of its first token, which may be a parenthesis.
#[derive(Drop)]
pub struct ExprWithSpot {
    pub spot: Spot,
    pub tree: ExprTree,
}

impl Model for ExprTree {
    ghost use Rattle.jdf_tree.specs.Expression.{Expression};
    ghost use Rattle.jdf_tree.specs.ExpressionCode.{expression_code};

    ghost Value = { Expression };

    ghost coded = { expression_code };

    ghost use Rattle.jdf_tree.specs.NodeExpression.{expression_of};

    ghost view = { λ e. expression_of e.node };
}

impl ExprTree {
    /// A number.
    pub fn num(z: i64, spot: Spot) -> ExprTree
        ensures { result ≡ Num z spot }
    {
        ExprTree {
            node: ExprNode::Num(z, spot),
        }
    }

    /// A name alone.
    pub fn name(name: Word) -> ExprTree
        ensures { result ≡ Name name }
    {
        ExprTree {
            node: ExprNode::Name(name),
        }
    }

    /// The element of the tile of a flow at an index.
    pub fn elem(alloc: Global, flow: Word, at: ExprTree) -> Result<ExprTree, OutOfMemory>
        ensures { IfOk result (λ e. e ≡ Elem flow at) }
    {
        Ok(ExprTree {
            node: ExprNode::Elem(flow, Box::new(alloc, at.into_node())?),
        })
    }

    /// A prefix operator and its operand.
    pub fn unary(alloc: Global, op: UnOp, a: ExprTree, spot: Spot) -> Result<ExprTree, OutOfMemory>
        ensures { IfOk result (λ e. e ≡ Unary op a spot) }
    {
        Ok(ExprTree {
            node: ExprNode::Unary(op, Box::new(alloc, a.into_node())?, spot),
        })
    }

    /// An infix operator and its two operands.
    pub fn binary(
        alloc: Global,
        op: BinOp,
        a: ExprTree,
        b: ExprTree,
    ) -> Result<ExprTree, OutOfMemory>
        ensures { IfOk result (λ e. e ≡ Binary op a b) }
    {
        Ok(ExprTree {
            node: ExprNode::Binary(
                op,
                Box::new(alloc, a.into_node())?,
                Box::new(alloc, b.into_node())?,
            ),
        })
    }

    /// `c ? a : b`
    pub fn choose(
        alloc: Global,
        c: ExprTree,
        a: ExprTree,
        b: ExprTree,
    ) -> Result<ExprTree, OutOfMemory>
        ensures { IfOk result (λ e. e ≡ Choose c a b) }
    {
        Ok(ExprTree {
            node: ExprNode::Choose(
                Box::new(alloc, c.into_node())?,
                Box::new(alloc, a.into_node())?,
                Box::new(alloc, b.into_node())?,
            ),
        })
    }

    // The root of the tree.
    fn into_node(self) -> ExprNode
        ensures { expression_of result ≡ self }
    {
        let ExprTree { node } = self;
        node
    }

    /// The root, for callers that walk the tree.
    pub fn node(&self) -> &ExprNode
        ensures { expression_of result.now ≡ self.now }
    {
        &self.node
    }
}
