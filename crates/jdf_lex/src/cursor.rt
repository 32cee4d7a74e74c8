//! Positions in a text.

ghost use Rattle.std.specs.Prelude.{◌≡◌, ◌+◌, ◌<◌, ◌≤◌, length};
ghost use Rattle.ptg_base.specs.Limits.{most_bytes};
ghost use Rattle.jdf_lex.specs.Reading.{IsCursorIn};

use grammar_core::Spot;

/// A position in a text: the index of its byte, and its spot.
#[derive(Clone, Copy)]
pub struct Cursor {
    pub index: usize,
    pub spot: Spot,
}

// The cursor after the next byte.
fn advance_byte(text: &[u8], here: Cursor) -> Cursor
    requires small { length text.now ≤ most_bytes }
    requires cursor { IsCursorIn text.now here }
    requires inside { here.index < length text.now }
    ensures cursor { IsCursorIn text.now result }
    ensures index { result.index ≡ here.index + 1 }
{
    let spot = if text[here.index] == b'\n' {
        Spot {
            line: here.spot.line + 1,
            column: 1,
        }
    } else {
        Spot {
            line: here.spot.line,
            column: here.spot.column + 1,
        }
    };
    Cursor {
        index: here.index + 1,
        spot,
    }
}

/// The cursor `len` bytes later.
pub fn advance(text: &[u8], here: Cursor, len: usize) -> Cursor
    requires small { length text.now ≤ most_bytes }
    requires cursor { IsCursorIn text.now here }
    requires inside { here.index + len ≤ length text.now }
    ensures cursor { IsCursorIn text.now result }
    ensures index { result.index ≡ here.index + len }
{
    let mut now = here;
    for _ in 0..len {
        now = advance_byte(text, now);
    }
    now
}
