//! What a verdict becomes: the text that is printed, the exit status, and the receipt.

ghost use Rattle.std.specs.Prelude.{◌≡◌};
ghost use Rattle.report_text.specs.Puts.{PrintsText};
ghost use Rattle.ptg_top.specs.Denotation.{denoted, plan_of};
ghost use Rattle.ptg_top.specs.Findings.{finding_text, status_of_finding, status_of_outcome};
ghost use Rattle.ptg_top.specs.Headline.{text_of, status_of};
ghost use Rattle.ptg_top.specs.JobText.{job_text, status_of_job};
ghost use Rattle.ptg_top.specs.Receipts.{receipt_of};

use crate::status::Status;
use crate::verdict::{Finding, RanBy, Verdict};
use dep_table::Receipt;
use flow_meaning::Outcome;
use job_stages::JobVerdict;
use plan_core::{Plan, class_name, flow_name};
use ptg_io::{Failed, Sink, write_all};
use report_text::{
    Line, consistent, found_cycle, heaviest_chain, ranked_answer, refusal, report, summary_line,
};

/// Prints a verdict. On `Err` a prefix of its text was written.
pub fn print_verdict<O: Sink>(verdict: &Verdict, out: &mut O) -> Result<(), Failed>
    ensures { PrintsText O.bytes O.faults result out.old out.new (text_of (denoted verdict.now)) }
{
    match verdict {
        Verdict::Usage => refusal(&Line::Usage, out),
        Verdict::Unread(name) => refusal(&Line::Unread(name.bytes()), out),
        Verdict::Job(job) => print_job(job, out),
        Verdict::Ran(by, finding) => print_finding(by, finding, out),
        Verdict::Spelling(text) => write_all(out, text.bytes()),
        Verdict::PreloadTooLarge => refusal(&Line::Preload, out),
        Verdict::TraceRefused(fault) => refusal(&Line::Trace(*fault), out),
    }
}

// Prints the verdict of `check` on a job.
fn print_job<O: Sink>(job: &JobVerdict, out: &mut O) -> Result<(), Failed>
    ensures { PrintsText O.bytes O.faults result out.old out.new (job_text job.now) }
{
    match job {
        JobVerdict::Jdf(fault) => refusal(&Line::Jdf(*fault), out),
        JobVerdict::Data(fault) => refusal(&Line::Data(*fault), out),
        JobVerdict::Inconsistent(plan, fault) => {
            let class = class_name(plan, fault.class);
            let flow = flow_name(plan, fault.class, fault.flow);
            refusal(&Line::Match(fault, class, flow), out)
        }
        JobVerdict::Consistent(matched, _) => {
            consistent(matched.tasks(), matched.edges(), matched.writes(), out)
        }
    }
}

// Prints the finding of a job that was run.
fn print_finding<O: Sink>(by: &RanBy, finding: &Finding, out: &mut O) -> Result<(), Failed>
    ensures { PrintsText O.bytes O.faults result out.old out.new (finding_text (plan_of by.now) finding.now) }
{
    match finding {
        Finding::Answer(outcome) => report(plan_of(by), outcome, out),
        Finding::Summary(found) => summary_line(found, out),
        Finding::Chain(found) => heaviest_chain(plan_of(by), found, out),
        Finding::Cycle(found) => found_cycle(plan_of(by), found, out),
        Finding::Trace(text) => write_all(out, text.bytes()),
        Finding::Ranked(found) => ranked_answer(plan_of(by), found, out),
    }
}

// The plan of the job that was run.
fn plan_of(by: &RanBy) -> &Plan
    ensures { result.now ≡ plan_of by.now }
{
    match by {
        RanBy::Table(receipt) => receipt.matched().plan(),
        RanBy::OneThread(matched) => matched.plan(),
    }
}

/// The exit status of a verdict that was printed.
pub fn status(verdict: &Verdict) -> Status
    ensures { result ≡ status_of (denoted verdict.now) }
{
    match verdict {
        Verdict::Usage => Status::Usage,
        Verdict::Unread(_) => Status::ReadFault,
        Verdict::Job(job) => status_of_job(job),
        Verdict::Ran(_, finding) => status_of_finding(finding),
        Verdict::Spelling(_) => Status::Complete,
        Verdict::PreloadTooLarge => Status::PreloadTooLarge,
        Verdict::TraceRefused(_) => Status::TraceRefused,
    }
}

// The exit status of a checked job.
fn status_of_job(job: &JobVerdict) -> Status
    ensures { result ≡ status_of_job job.now }
{
    match job {
        JobVerdict::Jdf(_) => Status::JdfRefused,
        JobVerdict::Data(_) => Status::DataRefused,
        JobVerdict::Inconsistent(_, _) => Status::Inconsistent,
        JobVerdict::Consistent(_, _) => Status::Complete,
    }
}

// The exit status of a job that was run, by its finding.
fn status_of_finding(finding: &Finding) -> Status
    ensures { result ≡ status_of_finding finding.now }
{
    match finding {
        Finding::Answer(outcome) => status_of_outcome(outcome),
        Finding::Summary(_) => Status::Complete,
        Finding::Chain(_) => Status::Complete,
        Finding::Cycle(_) => Status::Stalled,
        Finding::Trace(_) => Status::Complete,
        Finding::Ranked(found) => status_of_outcome(&found.outcome),
    }
}

// The exit status of an answer.
fn status_of_outcome(outcome: &Outcome) -> Status
    ensures { result ≡ status_of_outcome outcome.now }
{
    match outcome {
        Outcome::Complete(_, _) => Status::Complete,
        Outcome::Trapped(_) => Status::Trapped,
        Outcome::Stalled(_, _, _) => Status::Stalled,
    }
}

/// The receipt of a verdict that was printed, if a table ran its job.
pub fn receipt(verdict: Verdict) -> Option<Receipt>
    ensures { result ≡ receipt_of verdict }
{
    match verdict {
        Verdict::Ran(by, _finding) => match by {
            RanBy::Table(receipt) => Some(receipt),
            RanBy::OneThread(_matched) => None,
        },
        _ => None,
    }
}
