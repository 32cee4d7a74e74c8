//! The verb `certify`: the certificate of a consistent job.

ghost use Rattle.std.specs.Prelude.{◌≡◌, ℕ, List, IfOk, Some};
ghost use Rattle.ptg_base.specs.Limits.{AreRunCounts};
ghost use Rattle.plan_core.specs.declared.plan.Plan.{Plan};
ghost use Rattle.plan_data.specs.Fit.{DataFit};
ghost use Rattle.chain_cert.specs.Checked.{ShowsHeaviest};
ghost use Rattle.chain_cert.specs.declared.certificate.Certificate.TheVariants as certificates;
ghost use Rattle.chain_cert.specs.Finding.{IsAccepted};
ghost use Rattle.ptg_top.specs.Certify.{IsCertified, certified};
ghost use Rattle.ptg_top.specs.Denotation.{denoted};
ghost use Rattle.ptg_top.specs.Receipts.{IsReceipted};

use crate::host::Host;
use crate::table_run::run_on_table;
use crate::verdict::{Finding, RanBy, Verdict};
use chain_cert::{Certificate, certify as certificate_of, greatest_level, weights};
use coll_data::Given;
use dep_iter::Matched;
use flow_meaning::Outcome;
use ptg_base::{OutOfMemory, Seq, TaskId};
use report_text::{FoundCycle, HeaviestChain};
use run_pool::Settings;
use std::sync::Wait;
use std::thread::Threads;
use worker_core::Gate;

/// The certificate of a consistent job, or its answer if a task trapped.
pub fn certify<R: Threads + Wait + Sync, G: Gate>(
    host: &Host<R, G>,
    matched: Matched,
    given: Given,
    settings: Settings,
) -> Result<Verdict, OutOfMemory>
    requires fit { DataFit matched given }
    requires counts { AreRunCounts settings.workers settings.shards }
    ensures certified { IfOk result (λ v. IsCertified matched given (denoted v)) }
    ensures receipt { IfOk result (λ v. IsReceipted (Some settings) matched given v) }
{
    let weights = weights(host.alloc, matched.plan(), &given)?;
    let (receipt, outcome) = run_on_table(host, matched, given, settings)?;
    let certificate = certificate_of(host.alloc, receipt.matched(), &outcome, weights.as_slice())?;
    Ok(Verdict::Ran(RanBy::Table(receipt), certified(outcome, certificate)))
}

// The finding of `certify`, from an answer and the certificate of its job.
fn certified(outcome: Outcome, certificate: Certificate) -> Finding
    ensures { (P : Plan) (ws : List ℕ) → IsAccepted P ws certificate → result ≡ certified ws outcome certificate }
{
    match certificate {
        Certificate::Chain(chain, levels) => with_chain(outcome, chain, levels),
        Certificate::Cycle(cycle) => with_cycle(outcome, cycle),
        Certificate::Trapped => Finding::Answer(outcome),
    }
}

// The finding from an answer and a heaviest chain. The weight of the chain is the greatest level.
fn with_chain(outcome: Outcome, chain: Seq<TaskId>, levels: Seq<(TaskId, u64)>) -> Finding
    ensures { (P : Plan) (ws : List ℕ) → ShowsHeaviest P ws chain levels
        → result ≡ certified ws outcome (certificates.Chain chain levels) }
{
    match outcome {
        Outcome::Complete(tasks, _) => {
            let weight = greatest_level(levels.as_slice());
            Finding::Chain(HeaviestChain {
                tasks,
                weight,
                chain,
                levels,
            })
        }
        outcome => Finding::Answer(outcome),
    }
}

// The finding from an answer and a cycle.
fn with_cycle(outcome: Outcome, cycle: Seq<TaskId>) -> Finding
    ensures { (ws : List ℕ) → result ≡ certified ws outcome (certificates.Cycle cycle) }
{
    match outcome {
        Outcome::Stalled(ran, tasks, _) => Finding::Cycle(FoundCycle { ran, tasks, cycle }),
        outcome => Finding::Answer(outcome),
    }
}
