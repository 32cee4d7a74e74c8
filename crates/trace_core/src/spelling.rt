//! Whether a text is spelled as a trace.

ghost use Rattle.std.specs.Prelude.{◌≡◌, List, IfErr, IfOk};
ghost use Rattle.trace_core.specs.Spelling.{IsBadRow, IsWellSpelled};
ghost use Rattle.trace_core.specs.Text.{TraceRow, rows_text};

use crate::rows::{head, next_row};

// The rows after the head of a text that is spelled as a trace, or the number of its first row that is not well
// spelled.
pub(crate) fn spelled_rows(text: &[u8]) -> Result<&[u8], u64>
    ensures ok { IfOk result (λ rows. (es : List TraceRow) × IsWellSpelled text.now es × (rows.now ≡ rows_text es)) }
    ensures err { IfErr result (λ row. IsBadRow text.now row) }
{
    let Some((rows, first)) = head(text) else {
        return Err(1);
    };
    let mut left = first;
    'rows: for at in 0..rows {
        let Some((_, later)) = next_row(left) else {
            return Err(at + 2);
        };
        left = later;
    }
    if left.is_empty() {
        Ok(first)
    } else {
        Err(rows + 2)
    }
}
