//! The verdict on the text of a JDF and the text of its data.

ghost use Rattle.std.specs.Prelude.{◌≡◌, ℕ, List, Some, IfOk, IfSome};
ghost use Rattle.type_rules.specs.Names.{Job};
ghost use Rattle.jdf_tree.specs.Jdf.{IsJdf};
ghost use Rattle.jdf_tree.specs.TreeLimits.{IsWithinLimits};
ghost use Rattle.coll_data.specs.Data.{Data};
ghost use Rattle.plan_core.specs.declared.plan.Plan.{Plan as PlanValue};
ghost use Rattle.plan_data.specs.Fit.{DataFit};
ghost use Rattle.job_stages.specs.Fitting.{HasFittingData};
ghost use Rattle.job_stages.specs.Stages.{HasPlan};
ghost use Rattle.job_stages.specs.Verdict.{JobDenotes, TextsDenote};
ghost use Rattle.job_stages.specs.declared.verdict.JobVerdict.{JobVerdict as Verdict};
ghost use Rattle.job_stages.specs.declared.verdict.JobVerdict.TheVariants.{Consistent};

use crate::data_text::{given_of, missing_name};
use crate::jdf_text::tree_of;
use crate::laws::one_verdict;
use crate::verdict::JobVerdict;
use coll_data::{DataRefusal, Given};
use dep_iter::Matched;
use edge_match::{MatchRefusal, match_edges};
use jdf_lex::JdfRefusal;
use jdf_tree::Jdf;
use plan_core::Plan;
use ptg_base::OutOfMemory;
use std::alloc::Global;
use type_check::{check, globals_of, missing};

/// The verdict on the text of a JDF and the text of its data.
pub fn judge_texts(
    alloc: Global,
    jdf_text: &[u8],
    data_text: &[u8],
) -> Result<JobVerdict, OutOfMemory>
    // The verdict that is returned is one that the two texts denote.
    ensures found { IfOk result (TextsDenote jdf_text.now data_text.now) }
    // The verdict that they denote is returned, unless memory runs out.
    ensures only { (v : Verdict) → TextsDenote jdf_text.now data_text.now v → IfOk result (λ w. w ≡ v) }
    // The data fit the plan of a consistent job, so it may be run.
    ensures fit { IfOk result HasFittingData }
{
    one_verdict();
    match tree_of(alloc, jdf_text) {
        Ok(tree) => judge_data(alloc, &tree, data_text),
        Err(JdfRefusal::Fault(fault)) => Ok(JobVerdict::Jdf(fault)),
        Err(JdfRefusal::OutOfMemory) => Err(OutOfMemory),
    }
}

/// The job of the text of a JDF and the text of its data, if they denote a consistent one.
pub fn job_of_texts(
    alloc: Global,
    jdf_text: &[u8],
    data_text: &[u8],
) -> Result<Option<(Matched, Given)>, OutOfMemory>
    // A job that is returned is the consistent one that the two texts denote.
    ensures found { IfOk result (λ o. IfSome o (λ (matched, given).
        TextsDenote jdf_text.now data_text.now (Consistent matched given))) }
    // The consistent job that they denote is returned, unless memory runs out.
    ensures only { (P : PlanValue) (given : Data) → TextsDenote jdf_text.now data_text.now (Consistent P given)
        → IfOk result (λ o. o ≡ Some (P, given)) }
    // The data fit the plan of a consistent job, so it may be run.
    ensures fit { IfOk result (λ o. IfSome o (λ (matched, given). DataFit matched given)) }
{
    match judge_texts(alloc, jdf_text, data_text)? {
        JobVerdict::Consistent(matched, given) => Ok(Some((matched, given))),
        _ => Ok(None),
    }
}

/// The verdict on a JDF and the text of its data, whatever text the JDF was read from.
pub fn judge_data(alloc: Global, jdf: &Jdf, data_text: &[u8]) -> Result<JobVerdict, OutOfMemory>
    requires { IsWithinLimits jdf.now }
    ensures found { (text : List ℕ) → IsJdf text jdf.now → IfOk result (TextsDenote text data_text.now) }
    ensures fit { IfOk result HasFittingData }
{
    match given_of(alloc, data_text) {
        Ok(given) => judge_job(alloc, jdf, given),
        Err(DataRefusal::Fault(fault)) => Ok(JobVerdict::Data(fault)),
        Err(DataRefusal::OutOfMemory) => Err(OutOfMemory),
    }
}

// The verdict on a JDF with its data.
fn judge_job(alloc: Global, jdf: &Jdf, given: Given) -> Result<JobVerdict, OutOfMemory>
    requires { IsWithinLimits jdf.now }
    ensures found { IfOk result (JobDenotes (record { jdf = jdf.now; given = given })) }
    ensures fit { IfOk result HasFittingData }
{
    let globals = globals_of(alloc, jdf, &given)?;
    if missing(jdf, &globals) {
        return Ok(JobVerdict::Data(missing_name(&given)?));
    }
    match check(alloc, jdf, &given, &globals) {
        Ok(plan) => judge_plan(alloc, plan, given),
        Err(JdfRefusal::Fault(fault)) => Ok(JobVerdict::Jdf(fault)),
        Err(JdfRefusal::OutOfMemory) => Err(OutOfMemory),
    }
}

// The verdict on the plan of a JDF with its data.
fn judge_plan(alloc: Global, plan: Plan, given: Given) -> Result<JobVerdict, OutOfMemory>
    requires { DataFit plan given }
    ensures found { (job : Job) → HasPlan job plan → given ≡ job.given → IfOk result (JobDenotes job) }
    ensures fit { IfOk result HasFittingData }
{
    match match_edges(alloc, plan) {
        Ok(matched) => Ok(JobVerdict::Consistent(matched, given)),
        Err((refusal, plan)) => match refusal {
            MatchRefusal::Fault(fault) => Ok(JobVerdict::Inconsistent(plan, fault)),
            MatchRefusal::OutOfMemory => Err(OutOfMemory),
        },
    }
}
