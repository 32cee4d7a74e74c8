//! The places of one collection.

ghost use Rattle.std.specs.Prelude.{◌≡◌, ◌*◌, length};

/// Which places of a collection are in the set, row by row.
#[derive(Drop)]
pub(crate) struct Rows {
    pub(crate) rows: u32,
    pub(crate) cols: u32,
    pub(crate) has: Vec<bool>,
    pub(crate) ghost one_each: { length has.items ≡ rows * cols },
}
