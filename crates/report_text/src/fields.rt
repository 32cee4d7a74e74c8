//! Lines, field by field.

ghost use Rattle.std.specs.Prelude.{◌∷◌, flat_map};
ghost use Rattle.std.specs.Fmt.{decimal, signed_decimal};
ghost use Rattle.report_text.specs.Puts.{Puts};
ghost use Rattle.report_text.specs.Field.{field_texts, line, with_commas};

use crate::numbers::{put_integer, put_number};
use crate::pieces::{Pieces, put_byte, put_bytes};
use ptg_io::{Failed, Sink};

/// A field of a line, after its first word: one field, or integers, a field each.
#[derive(Clone, Copy)]
pub enum Field<'a> {
    /// These bytes.
    Word(&'a [u8]),
    /// A number in decimal.
    Number(u64),
    /// An integer in decimal.
    Integer(i128),
    /// Integers in decimal, a field each.
    Integers(&'a [i64]),
}

/// Puts a line: a word and fields, joined by commas.
pub fn put_line<O: Sink>(
    sink: &mut O,
    out: &mut Pieces,
    word: &[u8],
    fields: &[Field],
) -> Result<(), Failed>
    ensures { Puts O.bytes O.faults result sink.old out.old sink.new out.new
        (line (word.now ∷ flat_map field_texts fields.now)) }
{
    put_bytes(sink, out, word)?;
    put_fields(sink, out, fields)?;
    put_byte(sink, out, b'\n')
}

// Puts fields, a comma before each.
fn put_fields<O: Sink>(sink: &mut O, out: &mut Pieces, fields: &[Field]) -> Result<(), Failed>
    ensures { Puts O.bytes O.faults result sink.old out.old sink.new out.new
        (flat_map (λ field. with_commas (field_texts field)) fields.now) }
{
    for field in fields {
        put_field(sink, out, field)?;
    }
    Ok(())
}

// Puts the texts of a field, a comma before each.
fn put_field<O: Sink>(sink: &mut O, out: &mut Pieces, field: &Field) -> Result<(), Failed>
    ensures { Puts O.bytes O.faults result sink.old out.old sink.new out.new (with_commas (field_texts field.now)) }
{
    match field {
        Field::Word(word) => put_word_field(sink, out, word),
        Field::Number(n) => put_number_field(sink, out, *n),
        Field::Integer(n) => put_integer_field(sink, out, *n),
        Field::Integers(integers) => put_integers(sink, out, integers),
    }
}

// Puts a word after a comma.
fn put_word_field<O: Sink>(sink: &mut O, out: &mut Pieces, word: &[u8]) -> Result<(), Failed>
    ensures { Puts O.bytes O.faults result sink.old out.old sink.new out.new (44 ∷ word.now) }
{
    put_byte(sink, out, b',')?;
    put_bytes(sink, out, word)
}

// Puts a number after a comma.
fn put_number_field<O: Sink>(sink: &mut O, out: &mut Pieces, n: u64) -> Result<(), Failed>
    ensures { Puts O.bytes O.faults result sink.old out.old sink.new out.new (44 ∷ decimal n) }
{
    put_byte(sink, out, b',')?;
    put_number(sink, out, n)
}

// Puts integers, a comma before each.
fn put_integers<O: Sink>(sink: &mut O, out: &mut Pieces, numbers: &[i64]) -> Result<(), Failed>
    ensures { Puts O.bytes O.faults result sink.old out.old sink.new out.new
        (flat_map (λ n. 44 ∷ signed_decimal n) numbers.now) }
{
    for n in numbers {
        put_integer_field(sink, out, i128::from(*n))?;
    }
    Ok(())
}

// Puts an integer after a comma.
fn put_integer_field<O: Sink>(sink: &mut O, out: &mut Pieces, n: i128) -> Result<(), Failed>
    ensures { Puts O.bytes O.faults result sink.old out.old sink.new out.new (44 ∷ signed_decimal n) }
{
    put_byte(sink, out, b',')?;
    put_integer(sink, out, n)
}
