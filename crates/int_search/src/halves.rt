//! The matrix of a form times a map.
ghost use Rattle.std.specs.Prelude.{◌≡◌, ◌≢◌, ℕ, ◌+◌, ◌^◌, ◌<◌, ◌≤◌, unsigned_abs};
ghost use Rattle.quadratic_form.specs.Tables.{entry};
ghost use Rattle.quadratic_form.specs.declared.sizes.TheConstants.{MOST_INTEGERS};
ghost use Rattle.quadratic_form.specs.Matrices.{EntriesBelow};
ghost use Rattle.int_search.specs.Transformed.{with_constant, half_entry};

use quadratic_form::{FormTable, MOST_INTEGERS, MapTable, NormalTable};
use whole_math::product;

/// The entry of the map of n integers, with 1 for the constant.
pub(crate) fn map_entry(map: &MapTable, n: usize, i: usize, j: usize) -> i64
    requires size { n ≤ MOST_INTEGERS }
    requires small { EntriesBelow (2 ^ 30) map.now }
    ensures value { result ≡ with_constant n (entry map.now) i j }
    ensures size { unsigned_abs result ≤ 2 ^ 30 }
{
    if i < n {
        if j < n { map.at(i, j) } else { 0 }
    } else if i == j {
        1
    } else {
        0
    }
}

// The entry in row a and column j of the matrix times the map.
fn half(p: &FormTable, map: &MapTable, n: usize, a: usize, j: usize) -> i128
    requires size { n ≤ MOST_INTEGERS }
    requires row { a ≤ n }
    requires form { EntriesBelow (2 ^ 52) p.now }
    requires map { EntriesBelow (2 ^ 30) map.now }
    ensures value { result ≡ half_entry n (entry map.now) (entry p.now) a j }
    ensures size { unsigned_abs result ≤ 2 ^ 88 }
{
    let mut sum: i128 = 0;
    for b in 0..n + 1 {
        sum += product::<30, 52>(map_entry(map, n, b, j), p.at(a, b));
    }
    sum
}

// Row a of the matrix times the map.
fn write_half_row(halves: &mut NormalTable, p: &FormTable, map: &MapTable, n: usize, a: usize)
    requires size { n ≤ MOST_INTEGERS }
    requires row { a ≤ n }
    requires form { EntriesBelow (2 ^ 52) p.now }
    requires map { EntriesBelow (2 ^ 30) map.now }
    ensures row { (j : ℕ) → j < n + 1 →
        entry halves.new a j ≡ half_entry n (entry map.now) (entry p.now) a j }
    ensures sizes { (j : ℕ) → j < n + 1 → unsigned_abs (entry halves.new a j) ≤ 2 ^ 88 }
    ensures others { (i j : ℕ) → i ≢ a → entry halves.new i j ≡ entry halves.old i j }
{
    for j in 0..n + 1 {
        halves.set(a, j, half(p, map, n, a, j));
    }
}

/// Writes the matrix times the map.
pub(crate) fn write_halves(halves: &mut NormalTable, p: &FormTable, map: &MapTable, n: usize)
    requires size { n ≤ MOST_INTEGERS }
    requires form { EntriesBelow (2 ^ 52) p.now }
    requires map { EntriesBelow (2 ^ 30) map.now }
    ensures value { (a j : ℕ) → a < n + 1 → j < n + 1 →
        entry halves.new a j ≡ half_entry n (entry map.now) (entry p.now) a j }
    ensures sizes { (a j : ℕ) → a < n + 1 → j < n + 1 →
        unsigned_abs (entry halves.new a j) ≤ 2 ^ 88 }
{
    for a in 0..n + 1 {
        write_half_row(halves, p, map, n, a);
    }
}
