//! The verdict on arguments and files.

ghost use Rattle.std.specs.Prelude.{◌≡◌, ◌≤◌, ℕ, List, IfOk};
ghost use Rattle.ptg_io.specs.Reads.{AddsPieces};
ghost use Rattle.ptg_top.specs.Commands.{IsValid, files_of_steps};
ghost use Rattle.ptg_top.specs.Denotation.{denoted};
ghost use Rattle.ptg_top.specs.Receipts.{HasItsReceipt, HasReceiptForWords};
ghost use Rattle.ptg_top.specs.Reports.{IsVerdictOnWords};
ghost use Rattle.ptg_top.specs.Steps.{StepsEndWith};

use crate::acting::act;
use crate::checking::check;
use crate::command::Command;
use crate::consistent::consistent_job;
use crate::host::Host;
use crate::showing::show;
use crate::verdict::Verdict;
use ptg_base::{OutOfMemory, Text};
use ptg_io::Files;
use ptg_words::{WordsRefusal, commands_have_numbers_in_range, files_are_text, words};
use std::sync::Wait;
use std::thread::Threads;
use worker_core::Gate;

/// The verdict on arguments and files.
pub fn judge<R: Threads + Wait + Sync, F: Files, G: Gate>(
    host: &Host<R, G>,
    list: &[Text],
    files: &mut F,
) -> Result<Verdict, OutOfMemory>
    ensures stays { F.contents files.new ≡ F.contents files.old }
    ensures grows { (other : List ℕ) → F.faults files.old other ≤ F.faults files.new other }
    ensures pieces { AddsPieces (F.contents files.old) (F.reads files.old) (F.reads files.new) }
    ensures judged { IfOk result (λ v.
        IsVerdictOnWords list.now (F.reads files.old) (F.reads files.new) (F.faults files.old) (F.faults files.new)
        (denoted v)) }
    ensures receipt { IfOk result (λ v. HasReceiptForWords list.now (F.reads files.old) (F.reads files.new) v) }
{
    files_are_text();
    commands_have_numbers_in_range();
    match words(host.alloc, list) {
        Ok(order) => carry_out(host, &Command::of(order), files),
        Err(WordsRefusal::Usage) => Ok(Verdict::Usage),
        Err(WordsRefusal::OutOfMemory) => Err(OutOfMemory),
    }
}

// The verdict on a command. Every action is only taken on a job that `check` finds consistent.
fn carry_out<R: Threads + Wait + Sync, F: Files, G: Gate>(
    host: &Host<R, G>,
    command: &Command,
    files: &mut F,
) -> Result<Verdict, OutOfMemory>
    requires valid { IsValid command.now }
    ensures stays { F.contents files.new ≡ F.contents files.old }
    ensures grows { (other : List ℕ) → F.faults files.old other ≤ F.faults files.new other }
    ensures pieces { AddsPieces (F.contents files.old) (F.reads files.old) (F.reads files.new) }
    ensures judged { IfOk result (λ v.
        StepsEndWith (F.reads files.old) (F.reads files.new) (F.faults files.old) (F.faults files.new) command.now
        (denoted v)) }
    ensures receipt { IfOk result (λ v.
        HasItsReceipt (F.reads files.old) (F.reads files.new) (files_of_steps command.now) command.now v) }
{
    match command {
        Command::Show(jdf) => show(host.alloc, jdf, files),
        Command::Job(source, action) => {
            let checked = check(host.alloc, source, files)?;
            match consistent_job(checked) {
                Ok((matched, given)) => act(host, action, matched, given, files),
                Err(refused) => Ok(refused),
            }
        }
    }
}
