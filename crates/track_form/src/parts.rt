//! What the front of one pair adds to the form of a track, entry by entry.
ghost use Rattle.std.specs.Prelude.{◌≡◌, ℕ, ◌+◌, ◌-◌, ◌*◌, ◌^◌, ◌<◌, ◌≤◌, pos, ◌+ℤ◌, ◌-ℤ◌, ◌*ℤ◌, unsigned_abs};
ghost use Rattle.whole_math.specs.Rounding.{floor_div, nearest_div};
ghost use Rattle.quadratic_form.specs.Tables.{entry};
ghost use Rattle.quadratic_form.specs.declared.sizes.TheConstants.{MOST_FORM_COLUMNS};
ghost use Rattle.track_form.specs.Parts.{part_at};
ghost use Rattle.obs_rows.specs.declared.limits.TheConstants.{MOST_PAIRS};

use integer_form::FrontForm;
use lower_form::nearest_shift;
use quadratic_form::{BASELINE_COLUMNS, MOST_FORM_COLUMNS};
use whole_math::floor_shift;

/// The least e with 2^e at least twice this number.
pub fn least_power(count: usize) -> u32
    requires few { count ≤ MOST_PAIRS }
    ensures enough { 2 * count ≤ 2 ^ result }
    ensures least { (k : ℕ) → 2 * count ≤ 2 ^ k → result ≤ k }
    ensures few { result ≤ 13 }
{
    let mut e = 0;
    let mut power = 1;
    while power < 2 * count {
        e += 1;
        power *= 2;
    }
    e
}

/// An own entry over 2^shift downward, less the order of the form.
fn own_part(entry: i64, shift: u32, order: usize) -> i128
    requires few { shift ≤ 90 }
    requires order { order ≤ MOST_FORM_COLUMNS }
    ensures value { result ≡ floor_div entry (2 ^ shift) -ℤ pos order }
    ensures size { unsigned_abs result ≤ 2 ^ 64 }
{
    floor_shift(entry as i128, shift) - order as i128
}

/// A number over 2^shift downward.
fn floor_short(number: i64, shift: u32) -> i64
    requires few { shift < 64 }
    ensures value { result ≡ floor_div number (2 ^ shift) }
    ensures size { unsigned_abs result ≤ unsigned_abs number }
{
    number >> shift
}

/// 2^exponent
fn short_power(exponent: u32) -> i64
    requires few { exponent ≤ 60 }
    ensures value { result ≡ pos (2 ^ exponent) }
    ensures size { unsigned_abs result ≤ 2 ^ 60 }
{
    1 << exponent
}

/// 2 · entry + unit
fn twice_and_unit(entry: i64, unit: i64) -> i64
    requires entry_size { unsigned_abs entry ≤ 2 ^ 52 }
    requires unit_size { unsigned_abs unit ≤ 2 ^ 60 }
    ensures value { result ≡ (pos 2 *ℤ entry) +ℤ unit }
    ensures size { unsigned_abs result ≤ 2 ^ 61 }
{
    2 * entry + unit
}

/// An entry over 2^shift to the nearest, in 64 bits.
fn nearest_short(entry: i64, shift: u32) -> i64
    requires entry_size { unsigned_abs entry ≤ 2 ^ 52 }
    requires few { shift ≤ 60 }
    ensures value { result ≡ nearest_div entry (2 ^ shift) }
    ensures size { unsigned_abs result ≤ 2 ^ 61 }
{
    floor_short(twice_and_unit(entry, short_power(shift)), shift + 1)
}

/// An entry off the diagonal over 2^shift to the nearest.
fn other_part(entry: i64, shift: u32) -> i128
    requires entry_size { unsigned_abs entry ≤ 2 ^ 52 }
    requires few { shift ≤ 90 }
    ensures value { result ≡ nearest_div entry (2 ^ shift) }
    ensures size { unsigned_abs result ≤ 2 ^ 64 }
{
    // Fronts of a track have nearly the same exponent, so the shift is mostly short.
    if shift <= 60 {
        nearest_short(entry, shift) as i128
    } else {
        nearest_shift(entry as i128, shift)
    }
}

/// What a pair adds to the entry in row r and column c.
pub fn part(front: &FrontForm, shift: u32, r: usize, c: usize) -> i128
    requires few { shift ≤ 90 }
    requires row_in { r < front.now.columns - 3 }
    requires column_in { c < front.now.columns - 3 }
    ensures value { result ≡ part_at (front.now.columns - 3) (2 ^ shift) (entry front.now.p) r c }
    ensures size { unsigned_abs result ≤ 2 ^ 64 }
{
    if r == c {
        own_part(front.p.at(r, r), shift, front.columns - BASELINE_COLUMNS)
    } else {
        other_part(front.p.at(r, c), shift)
    }
}

/// What a pair adds to the entry in row r and column c after the diagonal.
pub(crate) fn later_part(front: &FrontForm, shift: u32, r: usize, c: usize) -> i128
    requires few { shift ≤ 90 }
    requires after { r < c }
    requires column_in { c < front.now.columns - 3 }
    ensures value { result ≡ part_at (front.now.columns - 3) (2 ^ shift) (entry front.now.p) r c }
    ensures size { unsigned_abs result ≤ 2 ^ 64 }
{
    other_part(front.p.at(r, c), shift)
}
