//! Reading a whole file.

ghost use Rattle.std.specs.Prelude.{◌≡◌, ◌<◌, ◌≤◌, ◌+◌, ◌++◌, List, ℕ, length, vec_len, IfOk, OnOk, OnErr, IsErrOf, IsTrue, IsFalse};
ghost use Rattle.ptg_base.specs.Limits.{most_bytes};
ghost use Rattle.ptg_io.specs.Faults.{Rose};
ghost use Rattle.ptg_io.specs.Files.{file_of, IsLonger, NamedFiles};
ghost use Rattle.ptg_io.specs.Load.{FailsWithin, IsReadSoFar, StopsPast};
ghost use Rattle.ptg_io.specs.Reads.{AddsAtMostOne, AddsPieces, AddsRead, HaveBegun, IsLoaded};
ghost use Rattle.ptg_io.specs.declared.loading.LoadFault.TheVariants.{Failed, OutOfMemory};

use crate::files::{self, Files};
use ptg_base::{MOST_BYTES, Seq};
use std::alloc::{AllocError, AllocFailed, Global};

// How many bytes one read asks for.
const READ_SIZE: usize = 65536;

/// Why a file was not loaded.
#[derive(Clone, Copy, Debug, PartialEq, Eq)]
pub enum LoadFault {
    /// A read failed.
    Failed,
    /// The file has more than 16 MiB.
    TooLong,
    OutOfMemory,
}

impl From<files::Failed> for LoadFault {
    ghost from_gives = { λ _ e. e ≡ Failed };

    fn from(_e: files::Failed) -> LoadFault {
        LoadFault::Failed
    }
}

impl From<AllocError> for LoadFault {
    ghost from_gives = { λ _ e. e ≡ OutOfMemory };

    fn from(_e: AllocError) -> LoadFault {
        LoadFault::OutOfMemory
    }
}

impl<T: Drop> From<AllocFailed<T>> for LoadFault {
    ghost from_gives = { λ _ e. e ≡ OutOfMemory };

    fn from(_e: AllocFailed<T>) -> LoadFault {
        LoadFault::OutOfMemory
    }
}

/// Reads a file to its end, piece by piece. A file of more than 16 MiB is too long; no read follows the one that went
/// past this limit.
pub fn load<F: Files>(alloc: Global, files: &mut F, name: &str) -> Result<Seq<u8>, LoadFault>
    ensures stays { F.contents files.new ≡ F.contents files.old }
    ensures grows { (other : List ℕ) → F.faults files.old other ≤ F.faults files.new other }
    ensures given { (entries : NamedFiles) → F.contents files.old ≡ Some entries →
        IfOk result (λ bytes. file_of entries name.now ≡ Some bytes) }
    ensures loaded { IfOk result (λ bytes.
        IsLoaded (record { name = name.now; text = bytes }) (F.reads files.old) (F.reads files.new)) }
    ensures long { IsErrOf result LoadFault.TooLong → (text : List ℕ) × (most_bytes < length text) ×
        IsLoaded (record { name = name.now; text = text }) (F.reads files.old) (F.reads files.new) }
    ensures begun { ¬ IsErrOf result LoadFault.TooLong →
        OnErr result (HaveBegun name.now (F.reads files.old) (F.reads files.new)) }
    ensures pieces { AddsPieces (F.contents files.old) (F.reads files.old) (F.reads files.new) }
    ensures bounded { IfOk result (λ bytes. length bytes ≤ most_bytes) }
    ensures failed { IsErrOf result LoadFault.Failed →
        Rose (F.faults files.old name.now) (F.faults files.new name.now) }
    ensures too_long { IsErrOf result LoadFault.TooLong →
        (entries : NamedFiles) → F.contents files.old ≡ Some entries →
        IsLonger entries name.now most_bytes }
    ensures stops { IsErrOf result LoadFault.TooLong →
        StopsPast F.read_gives name.now most_bytes files.old files.new }
    ensures within { IsErrOf result LoadFault.Failed →
        FailsWithin F.read_gives F.read_fails name.now most_bytes files.old files.new }
    ensures no_fault { ¬ IsErrOf result LoadFault.Failed →
        (other : List ℕ) → F.faults files.new other ≡ F.faults files.old other }
{
    let mut piece = zeros(alloc, READ_SIZE)?;
    let bytes = read_all(alloc, files, name, piece.as_mut_slice())?;
    Ok(Seq::of(bytes))
}

// A vector of this many zeros.
fn zeros(alloc: Global, count: usize) -> Result<Vec<u8>, AllocError>
    ensures { IfOk result (λ zeros. length zeros.items ≡ count) }
{
    vec![in alloc; 0u8; count]
}

// Reads a file to its end, as `load` does, piece by piece through this buffer.
#[tactic(auto, using(crate::proofs::Turns::none_read, crate::proofs::Turns::stops, crate::proofs::Turns::fails_within))]
fn read_all<F: Files>(
    alloc: Global,
    files: &mut F,
    name: &str,
    piece: &mut [u8],
) -> Result<Vec<u8>, LoadFault>
    requires { 0 < length piece.old }
    ensures stays { F.contents files.new ≡ F.contents files.old }
    ensures grows { (other : List ℕ) → F.faults files.old other ≤ F.faults files.new other }
    ensures given { (entries : NamedFiles) → F.contents files.old ≡ Some entries →
        IfOk result (λ bytes. file_of entries name.now ≡ Some bytes.items) }
    ensures loaded { IfOk result (λ bytes.
        IsLoaded (record { name = name.now; text = bytes.items }) (F.reads files.old) (F.reads files.new)) }
    ensures long { IsErrOf result LoadFault.TooLong → (text : List ℕ) × (most_bytes < length text) ×
        IsLoaded (record { name = name.now; text = text }) (F.reads files.old) (F.reads files.new) }
    ensures begun { ¬ IsErrOf result LoadFault.TooLong →
        OnErr result (HaveBegun name.now (F.reads files.old) (F.reads files.new)) }
    ensures pieces { AddsPieces (F.contents files.old) (F.reads files.old) (F.reads files.new) }
    ensures bounded { IfOk result (λ bytes. vec_len bytes ≤ most_bytes) }
    ensures failed { IsErrOf result LoadFault.Failed →
        Rose (F.faults files.old name.now) (F.faults files.new name.now) }
    ensures too_long { IsErrOf result LoadFault.TooLong →
        (entries : NamedFiles) → F.contents files.old ≡ Some entries →
        IsLonger entries name.now most_bytes }
    ensures stops { IsErrOf result LoadFault.TooLong →
        StopsPast F.read_gives name.now most_bytes files.old files.new }
    ensures within { IsErrOf result LoadFault.Failed →
        FailsWithin F.read_gives F.read_fails name.now most_bytes files.old files.new }
    ensures no_fault { ¬ IsErrOf result LoadFault.Failed →
        (other : List ℕ) → F.faults files.new other ≡ F.faults files.old other }
{
    let mut bytes = Vec::new(alloc);
    'pieces: loop {
        if !read_piece(files, name, piece, &mut bytes)? {
            return Ok(bytes);
        }
    }
}

// Reads the next piece of a file and appends it to the bytes read so far. Returns false at the end of the file.
fn read_piece<F: Files>(
    files: &mut F,
    name: &str,
    piece: &mut [u8],
    bytes: &mut Vec<u8>,
) -> Result<bool, LoadFault>
    requires room { 0 < length piece.old }
    requires bounded { vec_len bytes.old ≤ most_bytes }
    requires so_far { IsReadSoFar (F.contents files.old) name.now bytes.old.items }
    ensures stays { F.contents files.new ≡ F.contents files.old }
    ensures grows { (other : List ℕ) → F.faults files.old other ≤ F.faults files.new other }
    ensures still_bounded { OnOk result (vec_len bytes.new ≤ most_bytes) }
    ensures still { OnOk result (IsReadSoFar (F.contents files.new) name.now bytes.new.items) }
    ensures more { IfOk result (λ more. IsTrue more → vec_len bytes.old < vec_len bytes.new) }
    ensures read { OnOk result ((n : ℕ) × F.read_gives files.old name.now (vec_len bytes.old) n files.new ×
        (vec_len bytes.new ≡ vec_len bytes.old + n)) }
    ensures adds { OnOk result ((given : List ℕ) × (bytes.new.items ≡ bytes.old.items ++ given) ×
        AddsRead name.now (length bytes.old.items) given (F.reads files.old) (F.reads files.new)) }
    ensures none_more { IfOk result (λ more. IsFalse more → bytes.new.items ≡ bytes.old.items) }
    ensures too_many { IsErrOf result LoadFault.TooLong → (given : List ℕ) ×
        AddsRead name.now (length bytes.old.items) given (F.reads files.old) (F.reads files.new) ×
        (most_bytes < length bytes.old.items + length given) }
    ensures begun { ¬ IsErrOf result LoadFault.TooLong →
        OnErr result (AddsAtMostOne name.now bytes.old.items (F.reads files.old) (F.reads files.new)) }
    ensures pieces { AddsPieces (F.contents files.old) (F.reads files.old) (F.reads files.new) }
    ensures end { IfOk result (λ more. IsFalse more →
        (entries : NamedFiles) → F.contents files.old ≡ Some entries →
        file_of entries name.now ≡ Some bytes.new.items) }
    ensures failed { IsErrOf result LoadFault.Failed →
        Rose (F.faults files.old name.now) (F.faults files.new name.now) }
    ensures too_long { IsErrOf result LoadFault.TooLong →
        (entries : NamedFiles) → F.contents files.old ≡ Some entries →
        IsLonger entries name.now most_bytes }
    ensures read_fails { IsErrOf result LoadFault.Failed
        → F.read_fails files.old name.now (vec_len bytes.old) files.new }
    ensures no_fault { ¬ IsErrOf result LoadFault.Failed →
        (other : List ℕ) → F.faults files.new other ≡ F.faults files.old other }
    ensures past { IsErrOf result LoadFault.TooLong →
        (n : ℕ) × F.read_gives files.old name.now (vec_len bytes.old) n files.new ×
        (most_bytes < vec_len bytes.old + n) }
{
    let n = files.read(name, bytes.len() as u64, piece)?;
    if n == 0 {
        return Ok(false);
    }
    if n > MOST_BYTES - bytes.len() {
        return Err(LoadFault::TooLong);
    }
    bytes.extend_from_slice(&piece[..n])?;
    Ok(true)
}
