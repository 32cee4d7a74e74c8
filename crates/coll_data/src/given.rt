//! The data of a job.

ghost use Rattle.std.specs.Prelude.{◌≡◌, ◌≤◌, ◌↔◌, Some, IsTrue, IsSome, IfSome, length, option_copied, slice_get};
ghost use Rattle.coll_data.specs.Data.{Data};
ghost use Rattle.coll_data.specs.Tiles.{tile_at, HasPlace};
ghost use Rattle.coll_data.specs.Replacing.{with_tile_at};
ghost use Rattle.coll_data.specs.Sums.{all_elements, sum_of};
ghost use Rattle.coll_data.specs.WellMade.{is_element_count, elements_by_type, IsTileOf, IsWellMade};

use crate::coll::Coll;
use crate::sums::element_sum;
use ptg_base::{Place, Seq, Text, Tile};
use std::marker::Model;

/// The data of a job, in the order of their file. Contracts see plain lists and numbers.
///
/// There are at most 16 types, with 1 to 4,096 elements each. A collection has at most 65,536 tiles, and all tiles
/// together have at most 16,777,216 elements. Each collection has a tile for each place, and each tile as many numbers
/// as its type has elements.
pub struct Given {
    types: Seq<(Text, u32)>,
    elems: u32,
    ints: Seq<(Text, i64)>,
    colls: Seq<Coll>,
    records_read: u64,
}

impl Drop for Given {
    fn drop(self) {
        let Given {
            types: _types,
            elems: _elems,
            ints: _ints,
            colls: _colls,
            records_read: _records_read,
        } = self;
    }
}

impl Model for Given {
    ghost use Rattle.coll_data.specs.Data.{Data};
    ghost use Rattle.coll_data.specs.WellMade.{IsWellMade};

    ghost Value = { Data };

    ghost view = { λ g.
        record { types = g.types; elems = g.elems; ints = g.ints; colls = g.colls; records_read = g.records_read } };

    ghost invariant = { λ g.
        IsWellMade
        (record { types = g.types; elems = g.elems; ints = g.ints; colls = g.colls; records_read = g.records_read }) };
}

impl Given {
    /// The data with these parts: the types after DEFAULT with their numbers of elements, the number of elements of
    /// DEFAULT, the integers, the collections, and the number of records read.
    pub fn new(
        types: Seq<(Text, u32)>,
        elems: u32,
        ints: Seq<(Text, i64)>,
        colls: Seq<Coll>,
        records_read: u64,
    ) -> Given
        requires { IsWellMade
            (record { types = types; elems = elems; ints = ints; colls = colls; records_read = records_read }) }
        ensures { result ≡
            record { types = types; elems = elems; ints = ints; colls = colls; records_read = records_read } }
    {
        Given {
            types,
            elems,
            ints,
            colls,
            records_read,
        }
    }

    /// The types after DEFAULT, each with its number of elements.
    pub fn types(&self) -> &[(Text, u32)]
        ensures { result.now ≡ self.now.types }
    {
        self.types.as_slice()
    }

    /// The integers, each with its name.
    pub fn ints(&self) -> &[(Text, i64)]
        ensures { result.now ≡ self.now.ints }
    {
        self.ints.as_slice()
    }

    /// The collections.
    pub fn colls(&self) -> &[Coll]
        ensures colls { result.now ≡ self.now.colls }
        ensures well_made { IsWellMade self.now }
    {
        self.colls.as_slice()
    }

    /// A law: data are well made.
    pub fn data_are_well_made(&self)
        ensures { IsWellMade self.now }
    {
        let _ = &self.types;
    }

    /// The exact sum of all elements of all collections. It allocates nothing.
    pub fn element_sum(&self) -> i128
        ensures { result ≡ sum_of (all_elements self.now.colls) }
    {
        element_sum(self.colls.as_slice())
    }

    /// The number of records that were read.
    pub fn records_read(&self) -> u64
        ensures { result ≡ self.now.records_read }
    {
        self.records_read
    }

    /// The number of elements of a type; type 0 is DEFAULT, and the others follow in order.
    pub fn elements(&self, datatype: u32) -> u32
        requires { datatype ≤ length self.now.types }
        ensures elements { slice_get (elements_by_type self.now) datatype ≡ Some result }
        ensures within { IsTrue (is_element_count result) }
    {
        if datatype == 0 {
            self.elems
        } else {
            self.types.get(datatype as usize - 1).1
        }
    }

    /// The tile at a place, if there is such a place.
    pub fn tile(&self, place: &Place) -> Option<&Tile>
        ensures tile { option_copied result ≡ tile_at self.now.colls place.now }
        ensures exists { IsSome result ↔ HasPlace self.now.colls place.now }
        ensures elements { IfSome result (λ tile. IsTileOf self.now place.now.coll tile.now) }
    {
        let n = place.coll as usize;
        if n >= self.colls.len() {
            return None;
        }
        self.colls.get(n).tile(place.i, place.j)
    }

    /// Replaces the tile at a place. No other tile is copied or moved.
    pub fn with_tile_at(self, place: &Place, tile: Tile) -> Given
        requires exists { HasPlace self.colls place.now }
        requires elements { IsTileOf self place.now.coll tile }
        ensures { result ≡ with_tile_at self place.now tile }
    {
        let Given {
            types,
            elems,
            ints,
            colls,
            records_read,
        } = self;
        let mut colls = colls.into_vec();
        let coll = &mut colls[place.coll as usize];
        coll.put(place.i, place.j, tile);
        Given {
            types,
            elems,
            ints,
            colls: Seq::of(colls),
            records_read,
        }
    }
}
