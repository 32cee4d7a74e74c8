//! The check of a job.

ghost use Rattle.std.specs.Prelude.{◌≡◌, ◌≤◌, ℕ, List, IfOk};
ghost use Rattle.std.specs.Str.{IsUtf8};
ghost use Rattle.ptg_io.specs.Reads.{AddsPieces};
ghost use Rattle.ptg_base.specs.Limits.{most_rows};
ghost use Rattle.jdf_tree.specs.Jdf.{IsJdf};
ghost use Rattle.jdf_tree.specs.TreeLimits.{IsWithinLimits};
ghost use Rattle.ptg_top.specs.Commands.{IsValidSource};
ghost use Rattle.ptg_top.specs.Demo.{MadeTextsDenote};
ghost use Rattle.ptg_top.specs.Denotation.{denoted};
ghost use Rattle.ptg_top.specs.JobFiles.{IsChecked};
ghost use Rattle.ptg_top.specs.Steps.{CheckEndsWith, CheckOfDataEndsWith};

use crate::command::Source;
use crate::jdf_file::tree_of_file;
use crate::reading::{name_of, unread};
use crate::verdict::Verdict;
use jdf_tree::Jdf;
use job_gen::make;
use job_stages::{JobVerdict, data_too_long, judge_data, judge_texts};
use ptg_base::{OutOfMemory, Text};
use ptg_io::{Files, LoadFault, load};
use std::alloc::Global;

/// The verdict of `check` on a job. The data file is read only once the JDF's text has been parsed.
pub fn check<F: Files>(
    alloc: Global,
    source: &Source,
    files: &mut F,
) -> Result<Verdict, OutOfMemory>
    requires { IsValidSource source.now }
    ensures stays { F.contents files.new ≡ F.contents files.old }
    ensures grows { (other : List ℕ) → F.faults files.old other ≤ F.faults files.new other }
    ensures pieces { AddsPieces (F.contents files.old) (F.reads files.old) (F.reads files.new) }
    ensures verdict { IfOk result (λ v.
        CheckEndsWith (F.reads files.old) (F.reads files.new) (F.faults files.old) (F.faults files.new) source.now
        (denoted v)) }
    ensures fit { IfOk result (λ v. IsChecked (denoted v)) }
{
    match source {
        Source::Files(jdf, data_name) => {
            let read = tree_of_file(alloc, jdf, files)?;
            match read {
                Ok(tree) => check_data(alloc, &tree, data_name, files),
                Err(refused) => Ok(refused),
            }
        }
        Source::Made(rows) => check_made(alloc, *rows),
    }
}

// The verdict on a parsed JDF and a data file.
fn check_data<F: Files>(
    alloc: Global,
    tree: &Jdf,
    data_name: &Text,
    files: &mut F,
) -> Result<Verdict, OutOfMemory>
    requires name { IsUtf8 data_name.now }
    requires within { IsWithinLimits tree.now }
    ensures stays { F.contents files.new ≡ F.contents files.old }
    ensures grows { (other : List ℕ) → F.faults files.old other ≤ F.faults files.new other }
    ensures pieces { AddsPieces (F.contents files.old) (F.reads files.old) (F.reads files.new) }
    ensures verdict { (text : List ℕ) → IsJdf text tree.now
        → IfOk result (λ v.
        CheckOfDataEndsWith (F.reads files.old) (F.reads files.new) (F.faults files.old) (F.faults files.new)
        text data_name.now (denoted v)) }
    ensures fit { IfOk result (λ v. IsChecked (denoted v)) }
{
    match load(alloc, files, name_of(data_name)) {
        Ok(text) => {
            let job = judge_data(alloc, tree, text.as_slice())?;
            Ok(Verdict::Job(job))
        }
        Err(LoadFault::TooLong) => Ok(Verdict::Job(JobVerdict::Data(data_too_long()))),
        Err(LoadFault::Failed) => unread(alloc, data_name),
        Err(LoadFault::OutOfMemory) => Err(OutOfMemory),
    }
}

// The verdict on the texts of the made job.
fn check_made(alloc: Global, rows: u32) -> Result<Verdict, OutOfMemory>
    requires { (1 ≤ rows) × (rows ≤ most_rows) }
    ensures denotes { IfOk result (λ v. MadeTextsDenote rows (denoted v)) }
    ensures fit { IfOk result (λ v. IsChecked (denoted v)) }
{
    let (jdf, data) = make(alloc, rows)?;
    let job = judge_texts(alloc, jdf.bytes(), data.bytes())?;
    Ok(Verdict::Job(job))
}
