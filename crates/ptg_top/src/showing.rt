//! The verb `show`: a JDF file and its canonical spelling.

ghost use Rattle.std.specs.Prelude.{◌≡◌, ◌≤◌, ℕ, List, IfOk, None};
ghost use Rattle.std.specs.Str.{IsUtf8};
ghost use Rattle.ptg_io.specs.Reads.{AddsPieces};
ghost use Rattle.ptg_top.specs.declared.command.Command.TheVariants as commands;
ghost use Rattle.ptg_top.specs.Denotation.{denoted};
ghost use Rattle.ptg_top.specs.Receipts.{receipt_of};
ghost use Rattle.ptg_top.specs.Steps.{StepsEndWith};

use crate::jdf_file::tree_of_file;
use crate::verdict::Verdict;
use jdf_print::print;
use ptg_base::{OutOfMemory, Text};
use ptg_io::Files;
use std::alloc::Global;

/// The verdict of `show` on a JDF file: its canonical spelling, or why there is none.
pub fn show<F: Files>(alloc: Global, jdf: &Text, files: &mut F) -> Result<Verdict, OutOfMemory>
    requires { IsUtf8 jdf.now }
    ensures stays { F.contents files.new ≡ F.contents files.old }
    ensures grows { (other : List ℕ) → F.faults files.old other ≤ F.faults files.new other }
    ensures pieces { AddsPieces (F.contents files.old) (F.reads files.old) (F.reads files.new) }
    ensures verdict { IfOk result (λ v.
        StepsEndWith (F.reads files.old) (F.reads files.new) (F.faults files.old) (F.faults files.new)
        (commands.Show jdf.now) (denoted v)) }
    ensures not_run { IfOk result (λ v. receipt_of v ≡ None) }
{
    let read = tree_of_file(alloc, jdf, files)?;
    match read {
        Ok(tree) => {
            let text = print(alloc, &tree)?;
            Ok(Verdict::Spelling(text))
        }
        Err(refused) => Ok(refused),
    }
}
