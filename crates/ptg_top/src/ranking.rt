//! The verb `ranks`: a consistent job, run by ranks that send one another messages.

ghost use Rattle.std.specs.Prelude.{IfOk, None};
ghost use Rattle.ptg_base.specs.Limits.{IsRankCount};
ghost use Rattle.plan_data.specs.Fit.{DataFit};
ghost use Rattle.ptg_top.specs.Denotation.{denoted};
ghost use Rattle.ptg_top.specs.Ranks.{IsRanked};
ghost use Rattle.ptg_top.specs.Receipts.{IsReceipted};

use crate::command::RankSettings;
use crate::verdict::{Finding, RanBy, Verdict};
use coll_data::Given;
use dep_iter::Matched;
use ptg_base::OutOfMemory;
use rank_core::ranks_of;
use report_text::RankedAnswer;
use std::alloc::Global;

/// The number of messages that the ranks send one another in a run of a consistent job, with the job's answer.
pub fn rank(
    alloc: Global,
    matched: Matched,
    given: Given,
    settings: RankSettings,
) -> Result<Verdict, OutOfMemory>
    requires fit { DataFit matched given }
    requires ranks { IsRankCount settings.ranks }
    ensures ranked { IfOk result (λ v. IsRanked settings.ranks matched given (denoted v)) }
    ensures receipt { IfOk result (λ v. IsReceipted None matched given v) }
{
    let (messages, outcome) = ranks_of(alloc, &matched, given, settings.ranks, settings.seed)?;
    let found = RankedAnswer {
        ranks: settings.ranks,
        messages,
        outcome,
    };
    Ok(Verdict::Ran(RanBy::OneThread(matched), Finding::Ranked(found)))
}
