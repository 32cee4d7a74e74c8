//! Whole numbers as indices.

ghost use Rattle.std.specs.Prelude.{◌≡◌};
ghost use Rattle.ptg_base.specs.Index.{index_in};

/// The number as an index into `len` elements, if it is one.
pub fn index_in(len: u32, at: i64) -> Option<u32>
    ensures { result ≡ index_in len at }
{
    if 0 <= at && at < len as i64 {
        Some(at as u32)
    } else {
        None
    }
}
