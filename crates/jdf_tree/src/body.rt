//! The text of a body as a tree.

ghost use Rattle.std.specs.Prelude.{◌≡◌};
ghost use Rattle.jdf_tree.specs.BlockStatements.{statements_of};

use crate::expression::{ExprTree, Word};
use ptg_base::Seq;
use std::marker::Model;

/// A statement in the text of a body.
#[cycle(block_tree)]
#[derive(Drop)]
pub enum StmtTree {
    /// `int x = e;`
    Declare(Word, ExprTree),
    /// `x = e;`
    Set(Word, ExprTree),
    /// `A[e1] = e2;`: the flow, the index and the value.
    Put(Word, ExprTree, ExprTree),
    /// `if (e) { .. } else { .. }`. An else part that is left out is an empty block.
    If(ExprTree, BlockTree, BlockTree),
    /// `for i = a .. b { .. }`
    For(Word, ExprTree, ExprTree, BlockTree),
    /// `trap word;`
    Trap(Word),
}

/// A block: statements in the order of the text. Contracts see the tree, not its vectors.
///
/// Dropping a block recurses as deep as blocks nest, however many statements it has.
#[cycle(block_tree)]
#[derive(Drop)]
pub struct BlockTree {
    statements: Vec<StmtTree>,
}

impl Model for BlockTree {
    ghost use Rattle.jdf_tree.specs.Statements.{Statements, count_of_statements};
    ghost use Rattle.jdf_tree.specs.StatementsCode.{statements_code};

    ghost Value = { Statements };

    ghost coded = { statements_code };

    ghost use Rattle.jdf_tree.specs.BlockStatements.{statements_of};

    ghost view = { λ b. statements_of b.statements.items };

    ghost size = { count_of_statements };

    ghost use Rattle.jdf_tree.specs.BlockSize.{depth_at_most_count};

    ghost size_decreases = { λ b h. depth_at_most_count b.statements.items };
}

impl BlockTree {
    /// The block of these statements.
    pub fn of(statements: Seq<StmtTree>) -> BlockTree
        ensures { result ≡ statements_of statements }
    {
        BlockTree {
            statements: statements.into_vec(),
        }
    }

    /// The statements of the block in their order.
    pub fn as_slice(&self) -> &[StmtTree]
        ensures { statements_of result.now ≡ self.now }
    {
        self.statements.as_slice()
    }
}
