//! The consistent job that `check` found.

ghost use Rattle.std.specs.Prelude.{◌≡◌, IfOk, IfErr};
ghost use Rattle.plan_data.specs.Fit.{DataFit};
ghost use Rattle.job_stages.specs.declared.verdict.JobVerdict.TheVariants as jobs;
ghost use Rattle.ptg_top.specs.Denotation as verdicts;
ghost use Rattle.ptg_top.specs.Denotation.{denoted};
ghost use Rattle.ptg_top.specs.Answering.{IsRefusedByCheck};
ghost use Rattle.ptg_top.specs.JobFiles.{IsChecked};

use crate::verdict::Verdict;
use coll_data::Given;
use dep_iter::Matched;
use job_stages::JobVerdict;

/// The consistent job that `check` found, with its data; a refusal is returned as it is.
pub fn consistent_job(checked: Verdict) -> Result<(Matched, Given), Verdict>
    requires { IsChecked (denoted checked) }
    ensures found { IfOk result (λ (matched, given). denoted checked ≡ verdicts.Job (jobs.Consistent matched given)) }
    ensures fit { IfOk result (λ (matched, given). DataFit matched given) }
    ensures refused { IfErr result (λ v. (v ≡ checked) × IsRefusedByCheck (denoted v)) }
{
    match checked {
        Verdict::Job(JobVerdict::Consistent(matched, given)) => Ok((matched, given)),
        refused => Err(refused),
    }
}
