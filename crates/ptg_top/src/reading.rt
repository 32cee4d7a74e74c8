//! The names of files, and the verdict on an unread file.

ghost use Rattle.std.specs.Prelude.{◌≡◌, IfOk};
ghost use Rattle.std.specs.Str.{IsUtf8};
ghost use Rattle.ptg_top.specs.Denotation as verdicts;
ghost use Rattle.ptg_top.specs.Denotation.{denoted};

use crate::verdict::Verdict;
use ptg_base::{OutOfMemory, Text};
use std::alloc::Global;

/// The name of a file as text.
pub fn name_of(word: &Text) -> &str
    requires { IsUtf8 word.now }
    ensures { result.now ≡ word.now }
{
    match std::str::from_utf8(word.bytes()) {
        Ok(name) => name,
        Err(_) => unreachable!(),
    }
}

/// The verdict that the file of this name could not be read.
pub fn unread(alloc: Global, name: &Text) -> Result<Verdict, OutOfMemory>
    ensures { IfOk result (λ v. denoted v ≡ verdicts.Unread name.now) }
{
    let name = Text::of(alloc, name.bytes())?;
    Ok(Verdict::Unread(name))
}
