//! Reads the fields of a record.

ghost use Rattle.std.specs.Prelude.{◌≡◌, ◌≤◌, length, drop, IfSome, Some, None, if◌then◌else◌};
ghost use Rattle.ptg_base.specs.Decimal.{decimal, is_decimal};
ghost use Rattle.csv.specs.Records.{fields_of};
ghost use Rattle.data_read.specs.Fields.{is_blank, after_blanks, content_length, without_blanks, field, positive, negative, whole};
ghost use Rattle.data_read.specs.Records.{element_count};

use csv::ByteRecord;
use ptg_base::{MOST_NUMBER, decimal};

// The most elements of a tile.
const MOST_TILE_ELEMENTS: i64 = 4096;

// Whether the byte is a space or a tab.
fn is_blank(b: u8) -> bool
    ensures { result ≡ is_blank b }
{
    b == b' ' || b == b'\t'
}

// How many blanks the bytes begin with.
fn first_blanks(bytes: &[u8]) -> usize
    ensures value { drop result bytes.now ≡ after_blanks bytes.now }
    ensures within { result ≤ length bytes.now }
{
    'bytes: for i in 0..bytes.len() {
        if !is_blank(bytes[i]) {
            return i;
        }
    }
    bytes.len()
}

// How many bytes there are before the blanks at the end.
fn content_length(bytes: &[u8]) -> usize
    ensures value { result ≡ content_length bytes.now }
    ensures within { result ≤ length bytes.now }
{
    let len = bytes.len();
    'bytes: for k in 0..len {
        if !is_blank(bytes[len - k - 1]) {
            return len - k;
        }
    }
    0
}

// The bytes without the blanks at both ends.
fn without_blanks(bytes: &[u8]) -> &[u8]
    ensures { result.now ≡ without_blanks bytes.now }
{
    let rest = &bytes[first_blanks(bytes)..];
    &rest[..content_length(rest)]
}

// The field of this number, counted from 0, without the blanks around it; empty if the record has no such field.
pub(crate) fn field(fields: &ByteRecord, at: usize) -> &[u8]
    ensures { result.now ≡ field (fields_of fields.now) at }
{
    match fields.get(at) {
        Some(bytes) => without_blanks(bytes),
        None => b"".as_slice(),
    }
}

// The number of these decimal digits, if it is at most `most`.
fn digits_at_most(digits: &[u8], most: u64) -> Option<u64>
    ensures number { result ≡ (if is_decimal most digits.now then Some (decimal digits.now) else None) }
    ensures within { IfSome result (λ n. n ≤ most) }
{
    decimal(digits, most)
}

// The number that these digits spell, if it fits 64 bits with a sign.
fn positive(digits: &[u8]) -> Option<i64>
    ensures { result ≡ positive digits.now }
{
    match digits_at_most(digits, MOST_NUMBER) {
        Some(value) => Some(value as i64),
        None => None,
    }
}

// The number that a minus and these digits spell, if it fits 64 bits with a sign.
fn negative(digits: &[u8]) -> Option<i64>
    ensures { result ≡ negative digits.now }
{
    match digits_at_most(digits, 9_223_372_036_854_775_808) {
        Some(9_223_372_036_854_775_808) => Some(i64::MIN),
        Some(value) => Some(-(value as i64)),
        None => None,
    }
}

// The whole number that the bytes spell, if they spell one that fits 64 bits with a sign.
pub(crate) fn whole(bytes: &[u8]) -> Option<i64>
    ensures { result ≡ whole bytes.now }
{
    let (first, digits) = bytes.split_first()?;
    match *first {
        b'-' => negative(digits),
        b'+' => positive(digits),
        _ => positive(bytes),
    }
}

// The number of elements that the bytes spell, if it is from 1 to 4,096.
pub(crate) fn element_count(bytes: &[u8]) -> Option<u32>
    ensures { result ≡ element_count bytes.now }
{
    let value = whole(bytes)?;
    if 1 <= value && value <= MOST_TILE_ELEMENTS {
        Some(value as u32)
    } else {
        None
    }
}
