//! Numbers as the fields of a row.

ghost use Rattle.std.specs.Prelude.{◌≡◌, ◌≢◌, ◌<◌, ◌+◌, ◌++◌, ◌↔◌, List, ℤ, IsTrue, IsFalse, MatchOption, length};
ghost use Rattle.ptg_base.specs.Limits.{most_params};
ghost use Rattle.std.specs.Fmt.{signed_decimal};
ghost use Rattle.trace_core.specs.Rows.{AreNumbers, BeginsWithNumber, HasNoNumber, IsOfNumbers};
ghost use Rattle.trace_core.specs.Spelling.{is_number};

use crate::cutting::cut;
use itoa::Buffer;
use ptg_base::MOST_PARAMS;
use range_space::Numbers;

// The number that std reads from a field in any spelling, if it fits 64 bits.
fn read_number(field: &[u8]) -> Option<i64>
    ensures { (n : ℤ) → IsTrue (is_number n) → field.now ≡ signed_decimal n → MatchOption result ⊥ (λ read. read ≡ n) }
{
    let Ok(text) = str::from_utf8(field) else {
        return None;
    };
    match i64::from_str_radix(text, 10) {
        Ok(n) => Some(n),
        Err(_) => None,
    }
}

// The number that a field spells exactly as it is printed, if it fits 64 bits.
pub(crate) fn number(field: &[u8]) -> Option<i64>
    ensures { MatchOption result ((n : ℤ) → IsTrue (is_number n) → field.now ≢ signed_decimal n) (λ n.
        IsTrue (is_number n) × (field.now ≡ signed_decimal n)) }
{
    let Some(n) = read_number(field) else {
        return None;
    };
    let mut buffer = Buffer::new();
    if buffer.format(n).as_bytes() != field {
        return None;
    }
    Some(n)
}

// The number with which fields begin, and the fields after it.
fn next_number(fields: &[u8]) -> Option<(i64, &[u8])>
    ensures { MatchOption result (HasNoNumber fields.now) (λ (n, rest). BeginsWithNumber fields.now n rest.now) }
{
    let Some((first, rest)) = fields.split_first() else {
        return None;
    };
    if *first != b',' {
        return None;
    }
    let (field, later) = cut(rest, b',');
    match number(field) {
        Some(n) => Some((n, later)),
        None => None,
    }
}

// Whether all fields are numbers, however many.
pub(crate) fn are_numbers(fields: &[u8]) -> bool
    ensures { IsTrue result ↔ IsOfNumbers fields.now }
{
    let mut left = fields;
    'numbers: while let Some((_, later)) = next_number(left) {
        left = later;
    }
    left.is_empty()
}

// Adds the numbers of these fields. Returns false if there is no room for all of them.
pub(crate) fn push_numbers(fields: &[u8], numbers: &mut Numbers<MOST_PARAMS>) -> bool
    ensures all { (ns : List ℤ) → AreNumbers fields.now ns → IsTrue result → numbers.new ≡ numbers.old ++ ns }
    ensures more { (ns : List ℤ) → AreNumbers fields.now ns → IsFalse result
        → most_params < length numbers.old + length ns }
{
    let Some((n, later)) = next_number(fields) else {
        return true;
    };
    if numbers.as_slice().len() == MOST_PARAMS {
        return false;
    }
    numbers.push(n);
    push_numbers(later, numbers)
}
