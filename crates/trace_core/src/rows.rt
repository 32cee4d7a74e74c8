//! The rows of a text.

ghost use Rattle.std.specs.Prelude.{◌≡◌, ◌≢◌, ◌≤◌, ◌++◌, ℕ, MatchOption};
ghost use Rattle.std.specs.Fmt.{decimal};
ghost use Rattle.ptg_base.specs.Limits.{most_tasks};
ghost use Rattle.trace_core.specs.Rows.{BeginsWithRow, IsRowOf, row_content};
ghost use Rattle.trace_core.specs.Spelling.{HasNoHead, HasNoRow, IsSpelled};
ghost use Rattle.trace_core.specs.Text.{TraceRow, head_line};

use crate::cutting::{after_word, cut};
use crate::numbers::{are_numbers, number};
use ptg_base::{MOST_TASKS, is_name};

// The name of a row, and its numbers with a comma before each.
#[derive(Clone, Copy)]
pub(crate) struct Row<'a> {
    pub(crate) name: &'a [u8],
    pub(crate) numbers: &'a [u8],
}

// The parts of a row, from its line without LF.
fn row_of(line: &[u8]) -> Option<Row<'_>>
    ensures { MatchOption result ((e : TraceRow) → IsSpelled e → line.now ≡ row_content e → ⊥) (λ row.
        (e : TraceRow) × IsRowOf e row.name.now row.numbers.now × (line.now ≡ row_content e)) }
{
    let Some(fields) = after_word(line, b"ran,") else {
        return None;
    };
    let (name, numbers) = cut(fields, b',');
    if !is_name(name) {
        return None;
    }
    if !are_numbers(numbers) {
        return None;
    }
    Some(Row { name, numbers })
}

// The row with which a text begins, and the rest of the text.
pub(crate) fn next_row(text: &[u8]) -> Option<(Row<'_>, &[u8])>
    ensures { MatchOption result (HasNoRow text.now) (λ found.
        BeginsWithRow text.now found.0.name.now found.0.numbers.now found.1.now) }
{
    let (line, rest) = cut(text, b'\n');
    let Some((_, later)) = rest.split_first() else {
        return None;
    };
    match row_of(line) {
        Some(row) => Some((row, later)),
        None => None,
    }
}

// The number of rows that a field states, if a trace may have so many.
fn row_count(field: &[u8]) -> Option<u64>
    ensures { MatchOption result ((n : ℕ) → n ≤ most_tasks → field.now ≢ decimal n) (λ n.
        (n ≤ most_tasks) × (field.now ≡ decimal n)) }
{
    let Some(n) = number(field) else {
        return None;
    };
    if n < 0 {
        return None;
    }
    let n = n as u64;
    if n > MOST_TASKS {
        return None;
    }
    Some(n)
}

// The number of rows in the head with which a text begins, and the rest of the text.
pub(crate) fn head(text: &[u8]) -> Option<(u64, &[u8])>
    ensures { MatchOption result (HasNoHead text.now) (λ found.
        (found.0 ≤ most_tasks) × (text.now ≡ head_line found.0 ++ found.1.now)) }
{
    let Some(fields) = after_word(text, b"trace,") else {
        return None;
    };
    let (field, rest) = cut(fields, b'\n');
    let Some((_, later)) = rest.split_first() else {
        return None;
    };
    match row_count(field) {
        Some(rows) => Some((rows, later)),
        None => None,
    }
}
