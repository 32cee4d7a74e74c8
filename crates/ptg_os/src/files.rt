//! The files of the system.

ghost use Rattle.std.specs.Prelude.{◌≡◌, ◌↔◌, ◌<◌, ◌≤◌, ⊤, List, [], ◌∷◌, ◌++◌, ℕ, Option, None, length, take, IfOk, IfSome, IsTrue, OnErr, OnOk};
ghost use Rattle.ptg_io.specs.Faults.{Rose};
ghost use Rattle.ptg_io.specs.Files.{NamedFiles, ReadsPiece};
ghost use Rattle.ptg_os.specs.Adapters.{after_bytes, GaveBytes, GaveFrom, IsAt, StandsAt, kept_open};

use ptg_base::Text;
use ptg_io::{Failed, Files, Offset, ReadHistory};
use std::alloc::Global;
use std::io::{Read, Seek, SeekFrom};
use std::{fs, rt};

/// The files of the system. Contracts know only what reads of them gave.
///
/// The file read last stays open, with a copy of its name. If there is no memory for that copy, the next read opens the
/// file anew.
#[derive(Drop)]
pub struct OsFiles<'a, R: rt::Files> {
    system: &'a R,
    alloc: Global,
    // The file that was read last, if that read did not fail; the next read may go on with it.
    last: Option<Opened<R::File>>,
    // How many reads failed, of any name.
    faults: u64,
    // The reads that did not fail.
    history: ReadHistory,
}

// An open file, and the offset up to which it was read.
#[derive(Drop)]
struct Opened<F> {
    // None if there was no memory for it.
    name: Option<Text>,
    offset: u64,
    file: F,
}

impl<'a, R: rt::Files> OsFiles<'a, R> {
    /// The files of this system, before any read.
    pub fn new(system: &'a R, alloc: Global) -> Self
        ensures no_reads { ⟦<OsFiles<'a, R> as Files>⟧.reads result ≡ [] }
        ensures no_faults { (name : List ℕ) → ⟦<OsFiles<'a, R> as Files>⟧.faults result name ≡ 0 }
        ensures closed { kept_open result ≡ None }
    {
        OsFiles {
            system,
            alloc,
            last: None,
            faults: 0,
            history: ReadHistory::new(),
        }
    }
}

impl<'a, R: rt::Files> Files for OsFiles<'a, R> {
    ghost use Rattle.std.specs.Prelude.{None};

    ghost contents = { λ _. None };

    ghost reads = { λ files. files.history.reads };

    ghost faults = { λ files _. files.faults };

    fn read(&mut self, name: &str, from: u64, into: &mut [u8]) -> Result<usize, Failed>
        requires { 0 < length into.old }
        ensures within { IfOk result (λ n. n ≤ length into.new) }
        ensures given { (files : NamedFiles) → ◌≡◌ {A = Option NamedFiles} None (Some files) →
            IfOk result (λ n. ReadsPiece files name.now from n into.new) }
        ensures noted { IfOk result (λ n. self.new.history.reads
            ≡ self.old.history.reads ++ record { name = name.now; from = from; piece = take n into.new } ∷ []) }
        ensures not_noted { OnErr result (self.new.history.reads ≡ self.old.history.reads) }
        ensures gives { IfOk result (λ n. ⊤) }
        ensures read_fails { OnErr result ⊤ }
        ensures grows { (other : List ℕ) → self.old.faults ≤ self.new.faults }
        ensures failed { OnErr result (Rose self.old.faults self.new.faults) }
        ensures no_fault { OnOk result ((other : List ℕ) → self.new.faults ≡ self.old.faults) }

        // An open file gave the bytes and stays open. It is the one kept open before, if that has this name and is at
        // this offset.
        ensures gave { IfOk result (λ n.
            GaveFrom R.File.remaining (kept_open self.old) name.now from (kept_open self.new) n into.new) }

        // After a failed read no file is open.
        ensures closed { OnErr result (kept_open self.new ≡ None) }
    {
        let last = self.last.take();
        let read = match opened_at(self.system, self.alloc, last, name, from) {
            Some(opened) => read_next::<R>(opened, into),
            None => None,
        };
        match read {
            Some((n, opened)) => {
                self.history
                    .note(name.as_bytes(), &Offset { value: from }, &into[..n]);
                self.last = Some(opened);
                Ok(n)
            }
            None => {
                self.faults = self.faults.saturating_add(1);
                Err(Failed)
            }
        }
    }
}

// Reads the next bytes of an open file, and returns how many with the file. None if the read failed.
fn read_next<R: rt::Files>(
    mut opened: Opened<R::File>,
    into: &mut [u8],
) -> Option<(usize, Opened<R::File>)>
    ensures within { IfSome result (λ (count, more). count ≤ length into.new) }
    ensures gave { IfSome result (λ (count, more). GaveBytes R.File.remaining opened.file more.file count into.new) }
    ensures same_name { IfSome result (λ (_, more). more.name ≡ opened.name) }
    ensures moved { IfSome result (λ (count, more). more.offset ≡ after_bytes opened.offset count) }
{
    let n = opened.file.read(into).ok()?;
    opened.offset = opened.offset.saturating_add(n as u64);
    Some((n, opened))
}

// An open file of this name at an offset: the one read last if it is at that offset, else one opened anew. None if that
// failed.
fn opened_at<R: rt::Files>(
    system: &R,
    alloc: Global,
    last: Option<Opened<R::File>>,
    name: &str,
    from: u64,
) -> Option<Opened<R::File>>
    ensures continues { IfSome last (λ opened. IsAt opened name.now from → result ≡ last) }
    ensures stands { IfSome result (λ opened. StandsAt opened name.now from) }
{
    match last {
        Some(opened) if is_at(&opened, name, from) => Some(opened),
        _ => open_at(system, alloc, name, from),
    }
}

// Whether an open file is known to have this name, and is at this offset.
fn is_at<F>(opened: &Opened<F>, name: &str, from: u64) -> bool
    ensures { IsTrue result ↔ IsAt opened.now name.now from }
{
    match &opened.name {
        Some(text) => opened.offset == from && text.bytes() == name.as_bytes(),
        None => false,
    }
}

// Opens a file at this offset. None if that failed.
fn open_at<R: rt::Files>(
    system: &R,
    alloc: Global,
    name: &str,
    from: u64,
) -> Option<Opened<R::File>>
    ensures { IfSome result (λ opened. StandsAt opened name.now from) }
{
    let mut file = fs::open(system, name).ok()?;
    if from > 0 {
        file.seek(SeekFrom::Start(from)).ok()?;
    }
    Some(Opened {
        name: Text::of(alloc, name.as_bytes()).ok(),
        offset: from,
        file,
    })
}
