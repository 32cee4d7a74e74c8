//! Prints numbers in decimal digits.

ghost use Rattle.std.specs.Prelude.{◌≡◌, ◌++◌, OnOk};
ghost use Rattle.std.specs.Fmt.{signed_decimal};

use crate::writer::put;
use itoa::Buffer;
use ptg_base::{OutOfMemory, Seq};

/// Appends a number: its digits, with a sign before them if it is negative.
pub(crate) fn put_number(out: &mut Seq<u8>, n: i64) -> Result<(), OutOfMemory>
    ensures { OnOk result (out.new ≡ out.old ++ signed_decimal n) }
{
    let mut buffer = Buffer::new();
    put(out, buffer.format(n).as_bytes())
}
