//! Laws of places: of their indexes, and of the list in which they are printed.

ghost use Rattle.std.specs.Prelude.{◌≡◌, ◌<◌, ◌↔◌, ℕ, ℤ, IsSomeAnd, List, Option, Some, length, option_and_then, slice_get};
ghost use Rattle.std.specs.List.{zip};
ghost use Rattle.ptg_base.specs.Lists.{IsIn};
ghost use Rattle.coll_data.specs.declared.coll.Coll.{Coll};
ghost use Rattle.coll_data.specs.Tiles.{IsColumn, IsRow, tile_count, tile_index};
ghost use Rattle.coll_data.specs.WellMade.{IsWhole};
ghost use Rattle.report_text.specs.Places.{places};
ghost use Rattle.report_laws.specs.Listed.{listed_index};

/// A law: each row and column has an index, which is below the number of tiles; nothing else has one, and no two places
/// have the same.
pub fn a_place_has_one_index()
    ensures index { (rows : ℕ) (cols : Option ℕ) (i j : ℤ) → IsRow rows i → IsColumn cols j
        → IsSomeAnd (tile_index rows cols i j) (λ n. n < tile_count rows cols) }
    ensures place { (rows : ℕ) (cols : Option ℕ) (i j : ℤ) (n : ℕ) → tile_index rows cols i j ≡ Some n
        → IsRow rows i × IsColumn cols j }
    ensures one { (rows : ℕ) (cols : Option ℕ) (i j k l : ℤ) (n : ℕ) → tile_index rows cols i j ≡ Some n
        → tile_index rows cols k l ≡ Some n → (i ≡ k) × (j ≡ l) }
{}

/// A law: as many places are listed as a collection has tiles, and a place is the n-th of them if and only if n is its
/// index. So the tile that is printed beside a place is the tile at the place's index, and every tile of a whole
/// collection is printed.
pub fn the_place_printed_is_the_place_read()
    ensures count { (rows : ℕ) (cols : Option ℕ) → length (places rows cols) ≡ tile_count rows cols }
    ensures nth { (rows : ℕ) (cols : Option ℕ) (n : ℕ) (place : List ℕ)
        → slice_get (places rows cols) n ≡ Some place ↔ listed_index rows cols place ≡ Some n }
    ensures beside { (coll : Coll) (place : List ℕ) (tile : List ℤ)
        → IsIn (place, tile) (zip (places coll.shape.0 coll.shape.1) coll.tiles)
        ↔ option_and_then (slice_get coll.tiles) (listed_index coll.shape.0 coll.shape.1 place) ≡ Some tile }
    ensures all { (coll : Coll) → IsWhole coll
        → length (zip (places coll.shape.0 coll.shape.1) coll.tiles) ≡ length coll.tiles }
{}
