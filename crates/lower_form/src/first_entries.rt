//! The entries of the first rounding of a normal matrix.
ghost use Rattle.std.specs.Prelude.{◌≡◌, ◌+◌, ◌*◌, ◌^◌, ◌<◌, ◌≤◌, pos, ◌+ℤ◌, ◌-ℤ◌, ◌*ℤ◌, ◌<ℤ◌, ◌≤ℤ◌, unsigned_abs};
ghost use Rattle.whole_math.specs.Rounding.{floor_div, nearest_div};
ghost use Rattle.lower_form.specs.FirstRounding.{radius_at, own_bound as own_bound_of, first_entry as first_entry_of};

use normal_sum::Normal;
use quadratic_form::{BASELINE_COLUMNS, MOST_COLUMNS};
use whole_math::floor_shift;

/// 63 · entry
pub(crate) fn times_63(entry: i128) -> i128
    requires size { unsigned_abs entry < 2 ^ 120 }
    ensures value { result ≡ pos 63 *ℤ entry }
    ensures size { unsigned_abs result < 2 ^ 126 }
    ensures most { unsigned_abs result ≤ 63 * 2 ^ 120 }
{
    63 * entry
}

/// The sum of squares of radii of a column: of the baseline's columns and of the constant, and 0 of an integer.
fn radius_of(normal: &Normal, column: usize) -> i128
    requires column { column < normal.now.columns }
    ensures value { result ≡ radius_at normal.now column }
    ensures from { pos 0 ≤ℤ result }
    ensures to { result <ℤ pos (2 ^ 100) }
{
    if column < BASELINE_COLUMNS {
        normal.r[column]
    } else if column + 1 == normal.columns {
        normal.r[3]
    } else {
        0
    }
}

/// entry - 16128 · radius
fn less_radius(entry: i128, radius: i128) -> i128
    requires entry_size { unsigned_abs entry < 2 ^ 126 }
    requires from { pos 0 ≤ℤ radius }
    requires to { radius <ℤ pos (2 ^ 100) }
    ensures value { result ≡ entry -ℤ (pos 16128 *ℤ radius) }
    ensures size { unsigned_abs result < 2 ^ 126 + 2 ^ 114 }
{
    entry - 16128 * radius
}

/// The own entry of a column before the rounding.
fn own_bound(normal: &Normal, column: usize) -> i128
    requires column { column < normal.now.columns }
    ensures value { result ≡ own_bound_of normal.now column }
    ensures size { unsigned_abs result < 2 ^ 126 + 2 ^ 114 }
{
    less_radius(
        times_63(normal.c.at(column, column)),
        radius_of(normal, column),
    )
}

/// An own entry over 2^h downward, less the number of columns.
fn own_rounded(entry: i128, h: u32, columns: usize) -> i128
    requires size { unsigned_abs entry < 2 ^ 126 + 2 ^ 114 }
    requires few { h ≤ 76 }
    requires columns_in { columns ≤ MOST_COLUMNS }
    ensures value { result ≡ floor_div entry (2 ^ h) -ℤ pos columns }
    ensures size { unsigned_abs result < 2 ^ 126 + 2 ^ 115 }
{
    floor_shift(entry, h) - columns as i128
}

/// 2^exponent
fn power_of_two(exponent: u32) -> i128
    requires { exponent ≤ 90 }
    ensures value { result ≡ pos (2 ^ exponent) }
    ensures from { pos 0 ≤ℤ result }
    ensures to { result ≤ℤ pos (2 ^ 90) }
{
    1 << exponent
}

/// 2 · entry + unit
fn twice_and_one(entry: i128, unit: i128) -> i128
    requires size { unsigned_abs entry ≤ 63 * 2 ^ 120 }
    requires from { pos 0 ≤ℤ unit }
    requires to { unit ≤ℤ pos (2 ^ 90) }
    ensures { result ≡ (pos 2 *ℤ entry) +ℤ unit }
{
    2 * entry + unit
}

/// entry / 2^shift to the nearest, and where two are as near the greater.
pub fn nearest_shift(entry: i128, shift: u32) -> i128
    requires size { unsigned_abs entry ≤ 63 * 2 ^ 120 }
    requires few { shift ≤ 90 }
    ensures value { result ≡ nearest_div entry (2 ^ shift) }
    ensures size { unsigned_abs result ≤ unsigned_abs entry }
{
    floor_shift(twice_and_one(entry, power_of_two(shift)), shift + 1)
}

/// The entry in row r and column c.
pub(crate) fn first_entry(normal: &Normal, h: u32, r: usize, c: usize) -> i128
    requires few { h ≤ 76 }
    requires row_in { r < normal.now.columns }
    requires column_in { c < normal.now.columns }
    ensures value { result ≡ first_entry_of normal.now h r c }
    ensures size { unsigned_abs result < 2 ^ 126 + 2 ^ 115 }
{
    if r == c {
        own_rounded(own_bound(normal, c), h, normal.columns)
    } else {
        nearest_shift(times_63(normal.c.at(r, c)), h)
    }
}
