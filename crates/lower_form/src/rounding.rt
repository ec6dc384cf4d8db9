//! The first rounding: the power of two by which the matrix is divided, and the entries over it.
ghost use Rattle.std.specs.Prelude.{◌≡◌, ◌≢◌, ℕ, ◌+◌, ◌^◌, ◌<◌, ◌≤◌, ℤ, pos, ◌*ℤ◌, ◌<ℤ◌, ◌≤ℤ◌, unsigned_abs, true, false};
ghost use Rattle.quadratic_form.specs.Elimination.{form_small};
ghost use Rattle.quadratic_form.specs.Places.{form_from};
ghost use Rattle.quadratic_form.specs.Lowering.{IsExponent};
ghost use Rattle.quadratic_form.specs.Tables.{entry};
ghost use Rattle.normal_sum.specs.Values.{form_of};
ghost use Rattle.elimination.specs.StepEntries.{is_small};
ghost use Rattle.lower_form.specs.FirstRounding.{first_entry as first_entry_of, first_form};

use crate::first_entries::first_entry;
use elimination::is_small;
use normal_sum::Normal;
use quadratic_form::{MOST_COLUMNS, NormalTable};
use whole_math::floor_shift;

/// 63 times the greatest own entry, and 0 where none is above 0.
pub(crate) fn greatest_own(table: &NormalTable, columns: usize) -> i128
    requires columns_in { columns ≤ MOST_COLUMNS }
    requires entries { (i : ℕ) → i < columns → unsigned_abs (entry table.now i i) < 2 ^ 120 }
    ensures above { (i : ℕ) → i < columns → (pos 63 *ℤ entry table.now i i) ≤ℤ result }
    ensures attained { (k : ℤ) → pos 0 <ℤ k →
        ((i : ℕ) → i < columns → (pos 63 *ℤ entry table.now i i) <ℤ k) → result <ℤ k }
    ensures from { pos 0 ≤ℤ result }
    ensures to { result <ℤ pos (2 ^ 126) }
{
    let mut greatest = 0;
    for i in 0..columns {
        let own = 63 * table.at(i, i);
        if own > greatest {
            greatest = own;
        }
    }
    greatest
}

/// The least h with this number below 2^(50 + h).
pub(crate) fn exponent_of(greatest: i128) -> u32
    requires from { pos 0 ≤ℤ greatest }
    requires to { greatest <ℤ pos (2 ^ 126) }
    ensures enough { greatest <ℤ pos (2 ^ (50 + result)) }
    ensures least { (k : ℕ) → greatest <ℤ pos (2 ^ (50 + k)) → result ≤ k }
    ensures few { result ≤ 76 }
{
    let mut h = 0;
    while floor_shift(greatest, 50 + h) > 0 {
        h += 1;
    }
    h
}

/// The least h with 63 times each own entry of the matrix below 2^(50 + h).
pub fn exponent(normal: &Normal) -> u32
    ensures least { IsExponent result (form_of normal.now) }
    ensures few { result ≤ 76 }
{
    exponent_of(greatest_own(&normal.c, normal.columns))
}

/// Writes the entries of row r from its own on; false where one is too large.
fn round_row(normal: &Normal, table: &mut NormalTable, h: u32, r: usize) -> bool
    requires few { h ≤ 76 }
    requires row_in { r < normal.now.columns }
    ensures value { result ≡ true → (c : ℕ) → r ≤ c → c < normal.now.columns →
        entry table.new r c ≡ first_entry_of normal.now h r c }
    ensures small { result ≡ true → (c : ℕ) → r ≤ c → c < normal.now.columns →
        is_small (first_entry_of normal.now h r c) ≡ true }
    ensures refused { result ≡ false → (c : ℕ) × ((r ≤ c) × (c < normal.now.columns)
        × (is_small (first_entry_of normal.now h r c) ≡ false)) }
    ensures others { (i c : ℕ) → i ≢ r → entry table.new i c ≡ entry table.old i c }
{
    for c in r..normal.columns {
        let rounded = first_entry(normal, h, r, c);
        if !is_small(rounded) {
            return false;
        }
        table.set(r, c, rounded);
    }
    true
}

/// The first rounding of a normal matrix over 2^h, of the entries on the diagonal and after it; false where one is
/// 2^52 or more in size.
pub(crate) fn round(normal: &Normal, table: &mut NormalTable, h: u32) -> bool
    requires few { h ≤ 76 }
    ensures rounded { result ≡ true →
        form_from (entry table.new) 0 normal.now.columns ≡ first_form h normal.now }
    ensures small { result ≡ true → form_small (first_form h normal.now) ≡ true }
    ensures refused { result ≡ false → form_small (first_form h normal.now) ≡ false }
    ensures entries { result ≡ true → (r c : ℕ) → r ≤ c → c < normal.now.columns →
        unsigned_abs (entry table.new r c) ≤ 2 ^ 52 }
{
    for r in 0..normal.columns {
        if !round_row(normal, table, h, r) {
            return false;
        }
    }
    true
}
