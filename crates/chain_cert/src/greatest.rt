//! The greatest of some levels.

ghost use Rattle.std.specs.Prelude.{◌≡◌};
ghost use Rattle.chain_cert.specs.Checked as checked;

use ptg_base::TaskId;

/// The greatest level of these rows, or 0 if there are none.
pub fn greatest_level(rows: &[(TaskId, u64)]) -> u64
    ensures { result ≡ checked.greatest_level rows.now }
{
    let mut greatest = 0;
    for row in rows {
        greatest = row.1.max(greatest);
    }
    greatest
}
