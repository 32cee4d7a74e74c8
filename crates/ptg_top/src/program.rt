//! The program.

ghost use Rattle.std.specs.Prelude.{◌≡◌, ◌⊎◌, ◌≤◌, ◌++◌, ℕ, List, IfSome, IfNone};
ghost use Rattle.ptg_io.specs.Faults.{Rose};
ghost use Rattle.ptg_io.specs.Reads.{AddsPieces};
ghost use Rattle.report_text.specs.Refusal.{unread_line, usage_line};
ghost use Rattle.ptg_top.specs.Operands.{Load, in_loads};
ghost use Rattle.ptg_top.specs.Meaning.{IsNoCommand};
ghost use Rattle.ptg_top.specs.Reports.{HasLoaded, IsUnread, NoneFailed};
ghost use Rattle.ptg_top.specs.Headline.{IsCut, IsExact, PrintsLoaded};
ghost use Rattle.ptg_top.specs.Receipts.{HasConsistentJob, IsAnswerStatus, IsReceiptFor, PrintsReceipt, RunsOnTable};
ghost use Rattle.ptg_words.specs.declared.order.Order.{Order};
ghost use Rattle.ptg_words.specs.Words.{Orders};

use crate::ended::Ended;
use crate::hash_key::hash_key;
use crate::host::Host;
use crate::judge::judge;
use crate::printing::{print_verdict, receipt, status};
use crate::status::Status;
use ptg_base::{OutOfMemory, Text};
use ptg_io::{Failed, Files, Sink};
use std::alloc::Global;
use std::random::RandomSource;
use std::sync::Wait;
use std::thread::Threads;
use worker_core::Gate;

/// Carries out the command that the arguments form, with these files, and prints the answer.
///
/// The content of a file is what the reads of it returned, wherever they read it. What is printed is what the writes
/// accepted.
///
/// Each command prints exactly the following, with its status. Only a counted fault of reading or writing, running out
/// of memory, or a preload over 2^30 bytes takes its place.
///
/// - `run JDF DATA`: the answer of the sequential dataflow meaning, whatever the JDF, the data, the number of workers
///   and the number of shards. That is the refusal, the final collections, all trapped tasks, or a stall with the
///   discovered tasks that still wait.
/// - `show JDF`: the canonical spelling, or the refusal.
/// - `check JDF DATA`: how many tasks, edges and write-backs a consistent job has, or its first refusal. The order is:
///   the JDF's text, the data's text, a global that the data lack, names and kinds, consistency.
/// - `demo N`: the number of tasks of the made job of N rows of tiles, and the sum of all elements after its run.
/// - `certify JDF DATA`: after a run of the job, a heaviest chain of its tasks with the level of each task, or a cycle
///   if it stalled, or its traps.
/// - `replay JDF DATA TRACE`: the answer of `run` if the trace is that of a whole order of the tasks that run, and
///   otherwise the trace's first fault.
/// - `ranks JDF DATA R SEED`: how many messages R ranks send one another in a run of the job, and then the answer of
///   `run`, whatever the seed.
/// - `trace JDF DATA`: some trace of a run of the job: the text of a whole order of the tasks that run.
///
/// It may wait, as workers wait for each other.
pub fn ptg_main<R: Threads + Wait + RandomSource + Sync, F: Files, O: Sink, G: Gate>(
    rt: &R,
    alloc: Global,
    words: &[Text],
    files: &mut F,
    out: &mut O,
    gate: &G,
) -> Ended
    // The files stay as they are, and no count of faults falls. If the contents of the files are known, each read
    // returned a piece of them.
    ensures stays { F.contents files.new ≡ F.contents files.old }
    ensures read_faults { (other : List ℕ) → F.faults files.old other ≤ F.faults files.new other }
    ensures write_faults { O.faults out.old ≤ O.faults out.new }
    ensures pieces { AddsPieces (F.contents files.old) (F.reads files.old) (F.reads files.new) }
    // The first file operands of the command were loaded, in order, and nothing else was read. What is printed, with
    // its status, is exactly what the arguments and these loads denote.
    ensures exact { IsExact result.status →
        PrintsLoaded words.now (F.reads files.old) (F.reads files.new) (O.bytes out.old) (O.bytes out.new)
        result.status }
    // `unread,NAME` is printed only if reading NAME failed. NAME is the data file only once the JDF was read, and the
    // trace file only once the job was found to be consistent.
    ensures unread { result.status ≡ Status.ReadFault → (name : List ℕ)
        × IsUnread words.now (F.reads files.old) (F.reads files.new) (F.faults files.old) (F.faults files.new) name
        × (O.bytes out.new ≡ O.bytes out.old ++ unread_line name) }
    // The status is a write fault only if a write failed, and then a prefix of what was due was written.
    ensures cut { result.status ≡ Status.WriteFault → Rose (O.faults out.old) (O.faults out.new)
        × IsCut words.now (F.reads files.old) (F.reads files.new) (F.faults files.old) (F.faults files.new)
        (O.bytes out.old) (O.bytes out.new) }
    // If memory runs out, nothing is written.
    ensures silent { result.status ≡ Status.OutOfMemory → O.bytes out.new ≡ O.bytes out.old }
    // The status is that of a verdict only if no read failed, and it is other than a write fault only if no write
    // failed.
    ensures no_read_fault { IsExact result.status → NoneFailed (F.faults files.old) (F.faults files.new) }
    ensures no_write_fault { (result.status ≡ Status.WriteFault → ⊥) → O.faults out.new ≡ O.faults out.old }
    // If no read and no write failed, the status is that of a verdict and the clause `exact` applies, unless memory ran
    // out.
    ensures complete { ((name : List ℕ) → Rose (F.faults files.old name) (F.faults files.new name) → ⊥)
        → (Rose (O.faults out.old) (O.faults out.new) → ⊥)
        → (IsExact result.status
        × PrintsLoaded words.now (F.reads files.old) (F.reads files.new) (O.bytes out.old) (O.bytes out.new)
        result.status)
        ⊎ (result.status ≡ Status.OutOfMemory) }
    // Whatever the files: the status is usage, with its line, only if the arguments form no command. Arguments that
    // form no command have no other status, unless a write failed or memory ran out.
    ensures usage_only { result.status ≡ Status.Usage → IsNoCommand words.now }
    ensures usage_line { result.status ≡ Status.Usage → O.bytes out.new ≡ O.bytes out.old ++ usage_line }
    ensures usage { IsNoCommand words.now
        → (result.status ≡ Status.Usage)
        ⊎ ((result.status ≡ Status.WriteFault) ⊎ (result.status ≡ Status.OutOfMemory)) }
    // The answer of a job that workers ran comes with the receipt of a table with the shards, the workers and the
    // preload that were asked for. No other status comes with a receipt.
    ensures receipt { IfSome result.receipt (λ r.
        (o : Order) × Orders words.now o × IsReceiptFor o r × IsAnswerStatus result.status) }
    ensures no_receipt { IfNone result.receipt
        ((o : Order) → Orders words.now o → RunsOnTable o → IsAnswerStatus result.status → ⊥) }
    // The table ran the job that the loads denote, with its data.
    ensures of_job { IfSome result.receipt (λ r. (loads : List Load) ×
        HasLoaded words.now (F.reads files.old) (F.reads files.new) loads ×
        HasConsistentJob words.now (in_loads loads) r.plan r.given) }
    // The outcome that was read from the table is that job's answer. What was printed, with its status, is exactly what
    // the command finds from this outcome.
    ensures answer { IfSome result.receipt (λ r.
        PrintsReceipt words.now r (O.bytes out.old) (O.bytes out.new) result.status) }
{
    let host = Host {
        rt,
        alloc,
        gate,
        key: hash_key(rt),
    };
    match judge(&host, words, files) {
        Ok(verdict) => match print_verdict(&verdict, out) {
            Ok(()) => Ended {
                status: status(&verdict),
                receipt: receipt(verdict),
            },
            Err(Failed) => Ended::without_receipt(Status::WriteFault),
        },
        Err(OutOfMemory) => Ended::without_receipt(Status::OutOfMemory),
    }
}
