//! Files in memory, some of whose reads fail.

ghost use Rattle.std.specs.Prelude.{◌≡◌, ◌≢◌, ◌<◌, ◌≤◌, ◌-◌, ◌⊎◌, ◌↔◌, min, List, [], ◌∷◌, ◌++◌, ℕ, Option, Some, None, length, take, Contains, IfOk, IfSome, OnOk, OnErr, IsErr};
ghost use Rattle.ptg_io.specs.Faults.{Rose, one_more};
ghost use Rattle.ptg_io.specs.Files.{file_of, IsPiece, NamedFiles, ReadsPiece};
ghost use Rattle.ptg_io.specs.Memory.{index_of, fault_count, failed_reads, CountsFailedRead, CountsFault, CountsRead};

use crate::file::File;
use crate::files::{Failed, Files};
use crate::history::{Offset, ReadHistory};
use ptg_base::{OutOfMemory, Seq};
use std::alloc::Global;
use std::marker::Model;

/// Files in memory. A read gives as many bytes as fit into the buffer. Reads with chosen numbers fail, and so do all
/// reads of missing names.
#[derive(Drop)]
pub struct MemFiles {
    all: Seq<File>,
    failed: Seq<u64>,
    missing: u64,
    reads: u64,
    failing: Seq<u64>,
    history: ReadHistory,
}

impl Model for MemFiles {
    ghost use Rattle.std.specs.Prelude.{◌≡◌, length};
    ghost use Rattle.ptg_io.specs.Memory.{MemoryFiles};

    ghost Value = { MemoryFiles };

    ghost view = { λ m.
        record {
          files = m.all;
          failed = m.failed;
          missing = m.missing;
          reads = m.reads;
          fails = m.failing;
          history = m.history.reads;
        } };

    ghost invariant = { λ m. length m.failed ≡ length m.all };
}

impl MemFiles {
    /// These files; the reads with these numbers, counted from 1, will fail.
    pub fn new(alloc: Global, files: Seq<File>, fails: Seq<u64>) -> Result<MemFiles, OutOfMemory>
        ensures contents { IfOk result (λ held. ⟦<MemFiles as Files>⟧.contents held ≡ Some files) }
        ensures no_faults { IfOk result (λ held. (name : List ℕ) → ⟦<MemFiles as Files>⟧.faults held name ≡ 0) }
        ensures start { IfOk result (λ held. held.reads ≡ 0) }
        ensures fails { IfOk result (λ held. held.fails ≡ fails) }
        ensures no_reads { IfOk result (λ held. held.history ≡ []) }
    {
        let failed = vec![in alloc; 0u64; files.len()]?;
        Ok(MemFiles {
            all: files,
            failed: Seq::of(failed),
            missing: 0,
            reads: 0,
            failing: fails,
            history: ReadHistory::new(),
        })
    }
}

impl Files for MemFiles {
    ghost contents = { λ m. Some m.files };

    ghost reads = { λ m. m.history };

    ghost faults = { failed_reads };

    ghost read_gives = { λ old name from n new. CountsRead old new };

    ghost read_fails = { λ old name from new. CountsFailedRead old new name };

    fn read(&mut self, name: &str, from: u64, into: &mut [u8]) -> Result<usize, Failed>
        requires { 0 < length into.old }
        ensures stays { Some self.new.files ≡ Some self.old.files }
        ensures within { IfOk result (λ n. n ≤ length into.new) }
        ensures given { (files : NamedFiles) → Some self.old.files ≡ Some files →
            IfOk result (λ n. ReadsPiece files name.now from n into.new) }
        ensures noted { IfOk result (λ n. self.new.history
            ≡ self.old.history ++ record { name = name.now; from = from; piece = take n into.new } ∷ []) }
        ensures not_noted { OnErr result (self.new.history ≡ self.old.history) }
        ensures gives { IfOk result (λ n. CountsRead self.old self.new) }
        ensures read_fails { OnErr result (CountsFailedRead self.old self.new name.now) }
        ensures grows { (other : List ℕ) → failed_reads self.old other ≤ failed_reads self.new other }
        ensures failed { OnErr result (Rose (failed_reads self.old name.now) (failed_reads self.new name.now)) }

        // The chosen reads fail, and those of a missing name.
        ensures refused { IsErr result ↔
            (Contains self.old.fails self.new.reads ⊎ (index_of self.old.files name.now ≡ None)) }
        ensures counted { self.new.reads ≡ one_more self.old.reads }
        ensures fails { self.new.fails ≡ self.old.fails }

        // A read copies as much as fits. A failed read counts its own fault alone, and another read counts none.
        ensures whole { (bytes : List ℕ) → file_of self.old.files name.now ≡ Some bytes →
            IfOk result (λ n. n ≡ min (length into.new) (length bytes - from)) }
        ensures faults_counted { OnErr result (CountsFault self.old self.new name.now) }
        ensures no_fault { OnOk result ((other : List ℕ) → failed_reads self.new other ≡ failed_reads self.old other) }
    {
        self.reads = self.reads.saturating_add(1);
        let index = index_of(self.all.as_slice(), name.as_bytes());
        let fails = self.failing.as_slice().contains(&self.reads);
        match index {
            Some(at) if !fails => {
                let n = copy_piece(self.all.get(at).bytes(), from, into);
                self.history
                    .note(name.as_bytes(), &Offset { value: from }, &into[..n]);
                Ok(n)
            }
            _ => {
                count_fault(&mut self.failed, &mut self.missing, index);
                Err(Failed)
            }
        }
    }
}

// The index of the first file with this name.
fn index_of(files: &[File], name: &[u8]) -> Option<usize>
    ensures { result ≡ index_of files.now name.now }
{
    files.iter().position(|file| file.name() == name)
}

// Counts a failed read of the file at an index, or of a missing name.
fn count_fault(failed: &mut Seq<u64>, missing: &mut u64, index: Option<usize>)
    requires { IfSome index (λ at. at < length failed.old) }
    ensures length { length failed.new ≡ length failed.old }
    ensures grows { (other : Option ℕ)
        → fault_count failed.old missing.old other ≤ fault_count failed.new missing.new other }
    ensures rose { Rose (fault_count failed.old missing.old index) (fault_count failed.new missing.new index) }
    ensures own { fault_count failed.new missing.new index ≡ one_more (fault_count failed.old missing.old index) }
    ensures others { (other : Option ℕ) → other ≢ index →
        fault_count failed.new missing.new other ≡ fault_count failed.old missing.old other }
{
    match index {
        Some(at) => {
            let count = failed.as_slice()[at];
            failed.set(at, count.saturating_add(1));
        }
        None => {
            *missing = missing.saturating_add(1);
        }
    }
}

// Copies the bytes from an offset on, as many as fit, to the front of a buffer, and returns how many.
fn copy_piece(bytes: &[u8], from: u64, into: &mut [u8]) -> usize
    requires { 0 < length into.old }
    ensures within { result ≤ length into.new }
    ensures given { IsPiece bytes.now from result into.new }
    ensures whole { result ≡ min (length into.new) (length bytes.now - from) }
{
    if from >= bytes.len() as u64 {
        return 0;
    }
    let start = from as usize;
    let n = into.len().min(bytes.len() - start);
    into[..n].copy_from_slice(&bytes[start..start + n]);
    n
}
