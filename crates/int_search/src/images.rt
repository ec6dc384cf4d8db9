//! Vectors in other coordinates.
ghost use Rattle.std.specs.Prelude.{◌≡◌, ℕ, ◌^◌, ◌<◌, ◌≤◌, List, [], ℤ, ◌*ℤ◌, unsigned_abs, slice_index_or, length, MatchOption};
ghost use Rattle.whole_math.specs.Vectors.{dot};
ghost use Rattle.quadratic_form.specs.declared.sizes.TheConstants.{MOST_INTEGERS};
ghost use Rattle.int_search.specs.PlainCount.{HasLarge};
ghost use Rattle.int_search.specs.Vectors.{IsSmall, suffix, Holds};
ghost use Rattle.int_search.specs.Images.{image_of, IsMap};

use crate::steps::is_large;
use quadratic_form::{MOST_INTEGERS, MapTable};
use whole_math::product;

/// The product of a row of the map and the first `size` entries of z.
fn row_product(map: &MapTable, row: usize, z: &[i64; MOST_INTEGERS], size: usize) -> i128
    requires row_in { row < MOST_INTEGERS }
    requires size_in { size ≤ MOST_INTEGERS }
    requires map { IsMap map.now }
    requires small { IsSmall z.now }
    ensures value { result ≡ dot (slice_index_or map.now row []) (suffix z.now 0 size) }
    ensures size { unsigned_abs result ≤ 2 ^ 66 }
{
    let mut sum = 0;
    for k in 0..size {
        sum += product::<30, 30>(map.at(row, k), z[k]);
    }
    sum
}

/// The image of the first `size` entries of z under the map; None where an entry of it is large.
pub(crate) fn image(
    map: &MapTable,
    z: &[i64; MOST_INTEGERS],
    size: usize,
) -> Option<[i64; MOST_INTEGERS]>
    requires size_in { size ≤ MOST_INTEGERS }
    requires map { IsMap map.now }
    requires small { IsSmall z.now }
    ensures { MatchOption result (HasLarge (image_of map.now size (suffix z.now 0 size))) (λ y.
        Holds size y (image_of map.now size (suffix z.now 0 size))) }
{
    let mut y = [0; MOST_INTEGERS];
    for i in 0..size {
        let entry = row_product(map, i, z, size);
        if is_large(entry) {
            return None;
        }
        y[i] = entry as i64;
    }
    Some(y)
}

/// The map that leaves every vector as it is.
pub(crate) fn identity() -> MapTable
    ensures map { IsMap result }
    ensures own { (n : ℕ) (v : List ℤ) → n ≤ MOST_INTEGERS → length v ≡ n →
        image_of result n v ≡ v }
{
    let mut map = MapTable::zeros();
    for i in 0..MOST_INTEGERS {
        map.set(i, i, 1);
    }
    map
}
