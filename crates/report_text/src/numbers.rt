//! Numbers in decimal.

ghost use Rattle.std.specs.Fmt.{decimal, signed_decimal};
ghost use Rattle.report_text.specs.Puts.{Puts};

use crate::pieces::{Pieces, put_bytes};
use itoa::Buffer;
use ptg_io::{Failed, Sink};

/// Puts the decimal digits of a number.
pub fn put_number<O: Sink>(sink: &mut O, out: &mut Pieces, n: u64) -> Result<(), Failed>
    ensures { Puts O.bytes O.faults result sink.old out.old sink.new out.new (decimal n) }
{
    let mut buffer = Buffer::new();
    put_bytes(sink, out, buffer.format(n).as_bytes())
}

/// Puts an integer: its digits, with a sign before them if it is negative.
pub fn put_integer<O: Sink>(sink: &mut O, out: &mut Pieces, n: i128) -> Result<(), Failed>
    ensures { Puts O.bytes O.faults result sink.old out.old sink.new out.new (signed_decimal n) }
{
    let mut buffer = Buffer::new();
    put_bytes(sink, out, buffer.format(n).as_bytes())
}
