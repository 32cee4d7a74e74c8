//! The tree of a JDF file.

ghost use Rattle.std.specs.Prelude.{◌≡◌, ◌≤◌, ℕ, List, IfOk, IfErr};
ghost use Rattle.std.specs.Str.{IsUtf8};
ghost use Rattle.ptg_io.specs.Reads.{AddsPieces};
ghost use Rattle.jdf_tree.specs.Jdf.{IsJdf};
ghost use Rattle.jdf_tree.specs.TreeLimits.{IsWithinLimits};
ghost use Rattle.ptg_top.specs.Answering.{IsRefusedByCheck};
ghost use Rattle.ptg_top.specs.Denotation.{denoted};
ghost use Rattle.ptg_top.specs.JobFiles.{IsChecked, RefusesText};
ghost use Rattle.ptg_top.specs.Steps.{IsTreeRead, TreeIsRefused};

use crate::reading::{name_of, unread};
use crate::verdict::Verdict;
use jdf_lex::JdfRefusal;
use jdf_tree::Jdf;
use job_stages::{JobVerdict, jdf_too_long, tree_of};
use ptg_base::{OutOfMemory, Text};
use ptg_io::{Files, LoadFault, load};
use std::alloc::Global;

/// The tree of a JDF file, or the verdict that takes its place: the file could not be read, or its text is refused.
pub fn tree_of_file<F: Files>(
    alloc: Global,
    jdf: &Text,
    files: &mut F,
) -> Result<Result<Jdf, Verdict>, OutOfMemory>
    requires { IsUtf8 jdf.now }
    ensures stays { F.contents files.new ≡ F.contents files.old }
    ensures grows { (other : List ℕ) → F.faults files.old other ≤ F.faults files.new other }
    ensures pieces { AddsPieces (F.contents files.old) (F.reads files.old) (F.reads files.new) }
    ensures tree { IfOk result (λ read. IfOk read (
        IsTreeRead (F.reads files.old) (F.reads files.new) (F.faults files.old) (F.faults files.new) jdf.now)) }
    ensures within { IfOk result (λ read. IfOk read IsWithinLimits) }
    ensures refused { IfOk result (λ read. IfErr read (λ v.
        TreeIsRefused (F.reads files.old) (F.reads files.new) (F.faults files.old) (F.faults files.new) jdf.now
        (denoted v))) }
    ensures refusal { IfOk result (λ read. IfErr read (λ v. IsRefusedByCheck (denoted v) × IsChecked (denoted v))) }
{
    match load(alloc, files, name_of(jdf)) {
        Ok(text) => tree_of_text(alloc, text.as_slice()),
        Err(LoadFault::TooLong) => Ok(Err(Verdict::Job(JobVerdict::Jdf(jdf_too_long())))),
        Err(LoadFault::Failed) => Ok(Err(unread(alloc, jdf)?)),
        Err(LoadFault::OutOfMemory) => Err(OutOfMemory),
    }
}

// The tree of a JDF's text, or the verdict that the text is refused.
fn tree_of_text(alloc: Global, text: &[u8]) -> Result<Result<Jdf, Verdict>, OutOfMemory>
    ensures tree { IfOk result (λ read. IfOk read (IsJdf text.now)) }
    ensures within { IfOk result (λ read. IfOk read IsWithinLimits) }
    ensures refused { IfOk result (λ read. IfErr read (λ v. RefusesText text.now (denoted v))) }
    ensures refusal { IfOk result (λ read. IfErr read (λ v. IsRefusedByCheck (denoted v) × IsChecked (denoted v))) }
{
    match tree_of(alloc, text) {
        Ok(tree) => Ok(Ok(tree)),
        Err(JdfRefusal::Fault(fault)) => Ok(Err(Verdict::Job(JobVerdict::Jdf(fault)))),
        Err(JdfRefusal::OutOfMemory) => Err(OutOfMemory),
    }
}
