//! Appends bytes and words to the output.

ghost use Rattle.std.specs.Prelude.{◌≡◌, ◌++◌, OnOk};
ghost use Rattle.jdf_print.specs.Fragments.{text};

use jdf_tree::Word;
use ptg_base::{OutOfMemory, Seq};

/// Appends bytes to the output.
pub(crate) fn put(out: &mut Seq<u8>, bytes: &[u8]) -> Result<(), OutOfMemory>
    ensures { OnOk result (out.new ≡ out.old ++ bytes.now) }
{
    out.append(bytes)
}

/// Appends the bytes of a word.
pub(crate) fn put_word(out: &mut Seq<u8>, word: &Word) -> Result<(), OutOfMemory>
    ensures { OnOk result (out.new ≡ out.old ++ word.now.text) }
{
    put(out, word.text.bytes())
}
