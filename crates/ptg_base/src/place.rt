//! Places of tiles in collections.

/// A place in a collection of tiles: the collection, the row and the column. Places are ordered by the first field that
/// differs.
#[derive(Clone, Copy, Debug, PartialEq, Eq, PartialOrd, Ord, Hash)]
pub struct Place {
    /// The collection's number, from 0.
    pub coll: u32,
    /// The row, counted from 0.
    pub i: i64,
    /// The column, counted from 0; it is 0 in a collection of one dimension.
    pub j: i64,
}
