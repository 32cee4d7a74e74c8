//! Statements, blocks and bodies.

ghost use Rattle.std.specs.Prelude.{◌≡◌};
ghost use Rattle.term_core.specs.BlockStatementList.{statement_list};

use crate::expr::Expr;
use ptg_base::Seq;
use std::marker::Model;

/// A statement of a body.
#[cycle(block)]
#[derive(Drop)]
pub enum Stmt {
    /// `x = e;`: the number of the variable's slot, and the value.
    Set(u16, Expr),
    /// `A[e1] = e2;`: the flow's number, the index and the value.
    Put(u8, Expr, Expr),
    /// `if (e) { .. } else { .. }`
    If(Expr, Block, Block),
    /// `for i = a .. b { .. }`: the number of the slot of `i`, its first and its last value, and the block of a turn.
    For(u16, Expr, Expr, Block),
    /// `trap word;`: the number of the word.
    Trap(u32),
}

/// Statements in order. Contracts see their tree, not its boxes.
///
/// Dropping a block recurses as deep as blocks nest, however many statements it has.
#[cycle(block)]
#[derive(Drop)]
pub struct Block {
    statements: Vec<Stmt>,
}

impl Model for Block {
    ghost use Rattle.term_core.specs.StatementList.{StatementList, statement_count};
    ghost use Rattle.term_core.specs.StatementListCode.{statement_list_code};

    ghost Value = { StatementList };

    ghost coded = { statement_list_code };

    ghost use Rattle.term_core.specs.BlockStatementList.{statement_list};

    ghost view = { λ b. statement_list b.statements.items };

    ghost size = { statement_count };

    ghost use Rattle.term_core.specs.BlockSize.{depth_at_most_count};

    ghost size_decreases = { λ b h. depth_at_most_count b.statements.items };
}

impl Block {
    /// The block of these statements.
    pub fn of(statements: Seq<Stmt>) -> Block
        ensures { result ≡ statement_list statements }
    {
        Block {
            statements: statements.into_vec(),
        }
    }

    /// The statements in their order.
    pub fn as_slice(&self) -> &[Stmt]
        ensures { statement_list result.now ≡ self.now }
    {
        self.statements.as_slice()
    }
}

/// What a task does to its tiles: statements over numbered slots. The first slots hold the task's locals, the others
/// the body's own variables.
pub struct Body {
    pub statements: Block,
    pub slots: u16,
}

impl Drop for Body {
    fn drop(self) {
        let Body {
            statements: _statements,
            slots: _slots,
        } = self;
    }
}
