//! The receipt of a run.

ghost use Rattle.std.specs.Prelude.{◌≡◌};

use crate::answered::{RunAnswer, RunData};
use dep_iter::Matched;
use std::marker::Model;

/// Shows that a table of a job was closed when it was quiet, and that its answer was read. Contracts see the plan, the
/// data, the numbers of shards and of passes, whether all memory was reserved before the first step, and the answer.
/// Only `Closed::outcome` makes one, and it can't be copied.
#[derive(Drop)]
pub struct Receipt {
    pub(crate) matched: Matched,
    pub(crate) shards: u32,
    pub(crate) passes: usize,
    pub(crate) preloaded: bool,
    pub(crate) data: RunData,
    pub(crate) answer: RunAnswer,
}

impl Model for Receipt {
    ghost use Rattle.term_core.specs.contracts.expr.Expr as expr;
    ghost use Rattle.term_core.specs.contracts.body.Block as block;
    ghost use Rattle.std.specs.Coded.{codes};
    ghost use Rattle.dep_table.specs.Receipts.{ReceiptView};

    ghost Value = { ReceiptView };

    ghost coded = { Prim.hlevel (codes, expr.the_row.coded, block.the_row.coded) };

    ghost view = { λ r.
        record {
          plan = r.matched;
          given = r.data.given;
          shards = r.shards;
          passes = r.passes;
          preloaded = r.preloaded;
          outcome = r.answer.outcome;
        } };
}

impl Receipt {
    /// The plan that was run.
    pub fn matched(&self) -> &Matched
        ensures { result.now ≡ self.now.plan }
    {
        &self.matched
    }
}
