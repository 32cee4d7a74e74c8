//! The data of the records so far.

ghost use Rattle.std.specs.Prelude.{◌≤◌, length};
ghost use Rattle.ptg_base.specs.Limits.{most_elements, most_named_types};

use name_table::NameTable;
use ptg_base::{Seq, Text, Tile};

/// A collection with the tiles of the records so far.
#[derive(Drop)]
pub(crate) struct GrowingColl {
    pub(crate) name: Text,
    pub(crate) shape: (u32, Option<u32>),
    pub(crate) datatype: u32,
    /// How many elements each tile has.
    pub(crate) elements: u32,
    /// For each place the tile of its record, if there was one, row by row.
    pub(crate) tiles: Seq<Option<Tile>>,
}

/// The shape and the type of tiles that a record of a collection asks for.
#[derive(Clone, Copy)]
pub(crate) struct AskedColl {
    pub(crate) shape: (u32, Option<u32>),
    pub(crate) datatype: u32,
    pub(crate) elements: u32,
}

/// The meaning of a name.
#[derive(Clone, Copy, Drop)]
pub(crate) enum Known {
    Integer,
    /// The collection with this number.
    Collection(usize),
}

/// The data of the records so far.
#[derive(Drop)]
pub(crate) struct Growing {
    pub(crate) types: Seq<(Text, u32)>,
    pub(crate) elems: u32,
    pub(crate) ints: Seq<(Text, i64)>,
    pub(crate) colls: Vec<GrowingColl>,
    /// How many elements the tiles of all collections have.
    pub(crate) elements: u64,
    /// The meanings of the names of integers and collections.
    pub(crate) names: NameTable<Known>,
    ghost elements_at_most: { elements ≤ most_elements },
    ghost types_at_most: { length types ≤ most_named_types },
}
