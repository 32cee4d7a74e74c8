//! Sums of elements.

ghost use Rattle.std.specs.Prelude.{◌≡◌, ◌≤◌, ◌*◌, ◌^◌, length, unsigned_abs};
ghost use Rattle.ptg_base.specs.Limits.{most_elements};
ghost use Rattle.coll_data.specs.Sums.{all_elements, sum_of, tile_elements};

use crate::coll::Coll;
use ptg_base::Tile;

// The sum of these numbers.
fn sum_of(numbers: &[i64]) -> i128
    requires { length numbers.now ≤ most_elements }
    ensures sum { result ≡ sum_of numbers.now }
    ensures bounds { unsigned_abs result ≤ 2 ^ 63 * length numbers.now }
{
    let mut sum: i128 = 0;
    for number in numbers {
        sum += i128::from(*number);
    }
    sum
}

// The sum of the elements of these tiles.
fn tile_sum(tiles: &[Tile]) -> i128
    requires { length (tile_elements tiles.now) ≤ most_elements }
    ensures sum { result ≡ sum_of (tile_elements tiles.now) }
    ensures bounds { unsigned_abs result ≤ 2 ^ 63 * length (tile_elements tiles.now) }
{
    let mut sum: i128 = 0;
    for tile in tiles {
        sum += sum_of(tile.as_slice());
    }
    sum
}

// The sum of the elements of all tiles of these collections.
pub(crate) fn element_sum(colls: &[Coll]) -> i128
    requires { length (all_elements colls.now) ≤ most_elements }
    ensures { result ≡ sum_of (all_elements colls.now) }
{
    let mut sum: i128 = 0;
    for coll in colls {
        sum += tile_sum(coll.tiles.as_slice());
    }
    sum
}
