//! Prints expressions.

ghost use Rattle.std.specs.Prelude.{◌≡◌, ◌++◌, OnOk};
ghost use Rattle.jdf_print.specs.Fragments.{text};
ghost use Rattle.jdf_print.specs.Spelling.{sign, operator, expression};
ghost use Rattle.jdf_tree.specs.NodeExpression.{expression_of};

use crate::number::put_number;
use crate::writer::{put, put_word};
use jdf_tree::{ExprNode, ExprTree};
use ptg_base::{OutOfMemory, Seq};
use term_core::{BinOp, UnOp};

// The spelling of a prefix operator.
fn sign_of(op: UnOp) -> &'static [u8]
    ensures { result.now ≡ sign op }
{
    match op {
        UnOp::Neg => b"-",
        UnOp::Not => b"!",
    }
}

// The spelling of an infix operator. And and Or, which have two spellings, get the double one.
fn operator_of(op: BinOp) -> &'static [u8]
    ensures { result.now ≡ operator op }
{
    match op {
        BinOp::Add => b"+",
        BinOp::Sub => b"-",
        BinOp::Mul => b"*",
        BinOp::Div => b"/",
        BinOp::Rem => b"%",
        BinOp::Eq => b"==",
        BinOp::Ne => b"!=",
        BinOp::Lt => b"<",
        BinOp::Le => b"<=",
        BinOp::Gt => b">",
        BinOp::Ge => b">=",
        BinOp::And => b"&&",
        BinOp::Or => b"||",
    }
}

// Appends an expression, given the node at its root, with every operator in parentheses.
fn put_node(out: &mut Seq<u8>, node: &ExprNode) -> Result<(), OutOfMemory>
    ensures { OnOk result (out.new ≡ out.old ++ text (expression (expression_of node.now))) }
{
    match node {
        ExprNode::Num(z, _) => put_number(out, *z),
        ExprNode::Name(name) => put_word(out, name),
        ExprNode::Elem(flow, at) => {
            put_word(out, flow)?;
            put(out, b"[")?;
            put_node(out, at)?;
            put(out, b"]")
        }
        ExprNode::Unary(op, a, _) => {
            put(out, b"(")?;
            put(out, sign_of(*op))?;
            put_node(out, a)?;
            put(out, b")")
        }
        ExprNode::Binary(op, a, b) => {
            put(out, b"(")?;
            put_node(out, a)?;
            put(out, b" ")?;
            put(out, operator_of(*op))?;
            put(out, b" ")?;
            put_node(out, b)?;
            put(out, b")")
        }
        ExprNode::Choose(c, a, b) => {
            put(out, b"(")?;
            put_node(out, c)?;
            put(out, b" ? ")?;
            put_node(out, a)?;
            put(out, b" : ")?;
            put_node(out, b)?;
            put(out, b")")
        }
    }
}

/// Appends an expression.
pub(crate) fn put_expression(out: &mut Seq<u8>, e: &ExprTree) -> Result<(), OutOfMemory>
    ensures { OnOk result (out.new ≡ out.old ++ text (expression e.now)) }
{
    put_node(out, e.node())
}
