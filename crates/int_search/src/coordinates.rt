//! The form in the coordinates of a map.
ghost use Rattle.std.specs.Prelude.{◌≡◌, ◌≢◌, ℕ, ◌+◌, ◌^◌, ◌<◌, ◌≤◌, unsigned_abs, true, false, IfSome, MatchOption};
ghost use Rattle.quadratic_form.specs.Tables.{entry, IsZeroOutside};
ghost use Rattle.quadratic_form.specs.declared.sizes.TheConstants.{MOST_INTEGERS};
ghost use Rattle.quadratic_form.specs.Matrices.{EntriesBelow};
ghost use Rattle.integer_form.specs.Forms.{integers_of};
ghost use Rattle.int_search.specs.Transformed.{whole_entry, AreWholesSmall, AreWholes, IsTransformedSmall, IsTransformed};

use crate::halves::{map_entry, write_halves};
use crate::products::half_product;
use decorrelate::{Unimodular, is_narrow};
use integer_form::{Form, FrontForm};
use quadratic_form::{FormTable, MapTable, NormalTable};

// The entry in row i and column j of the turned map times the halves.
fn whole(halves: &NormalTable, map: &MapTable, n: usize, i: usize, j: usize) -> i128
    requires size { n ≤ MOST_INTEGERS }
    requires column { j ≤ n }
    requires map { EntriesBelow (2 ^ 30) map.now }
    requires halves { (a : ℕ) → a < n + 1 → unsigned_abs (entry halves.now a j) ≤ 2 ^ 88 }
    ensures value { result ≡ whole_entry n (entry map.now) (entry halves.now) i j }
    ensures size { unsigned_abs result ≤ 2 ^ 124 }
{
    let mut sum: i128 = 0;
    for a in 0..n + 1 {
        sum += half_product(halves.at(a, j), map_entry(map, n, a, i));
    }
    sum
}

// Writes row i of the turned map times the halves; false where an entry is too large.
fn write_row(p: &mut FormTable, halves: &NormalTable, map: &MapTable, n: usize, i: usize) -> bool
    requires size { n ≤ MOST_INTEGERS }
    requires row { i ≤ n }
    requires map { EntriesBelow (2 ^ 30) map.now }
    requires halves { (a j : ℕ) → a < n + 1 → j < n + 1 →
        unsigned_abs (entry halves.now a j) ≤ 2 ^ 88 }
    requires entries { EntriesBelow (2 ^ 52) p.old }
    requires outside { IsZeroOutside (n + 1) (n + 1) p.old }
    ensures row { result ≡ true → (j : ℕ) → j < n + 1 →
        entry p.new i j ≡ whole_entry n (entry map.now) (entry halves.now) i j }
    ensures wide { result ≡ false → ((j : ℕ) → j < n + 1 →
        unsigned_abs (whole_entry n (entry map.now) (entry halves.now) i j) < 2 ^ 52) → ⊥ }
    ensures others { (k j : ℕ) → k ≢ i → entry p.new k j ≡ entry p.old k j }
    ensures entries { EntriesBelow (2 ^ 52) p.new }
    ensures outside { IsZeroOutside (n + 1) (n + 1) p.new }
{
    for j in 0..n + 1 {
        let value = whole(halves, map, n, i, j);
        if !is_narrow(value) {
            return false;
        }
        p.set(i, j, value as i64);
    }
    true
}

// Writes the turned map times the halves; false where an entry is too large.
fn write_wholes(p: &mut FormTable, halves: &NormalTable, map: &MapTable, n: usize) -> bool
    requires size { n ≤ MOST_INTEGERS }
    requires map { EntriesBelow (2 ^ 30) map.now }
    requires halves { (a j : ℕ) → a < n + 1 → j < n + 1 →
        unsigned_abs (entry halves.now a j) ≤ 2 ^ 88 }
    requires entries { EntriesBelow (2 ^ 52) p.old }
    requires outside { IsZeroOutside (n + 1) (n + 1) p.old }
    ensures done { result ≡ true → AreWholes n (entry map.now) (entry halves.now) p.new }
    ensures wide { result ≡ false → AreWholesSmall n (entry map.now) (entry halves.now) → ⊥ }
{
    for i in 0..n + 1 {
        if !write_row(p, halves, map, n, i) {
            return false;
        }
    }
    true
}

/// The form in the coordinates of the map, before any step, in the same units of 2^h; None where an entry of its matrix is
/// 2^52 or more in size.
// Never inlined: these tables would then lie on the stack for as long as its caller runs.
#[inline(never)]
pub fn transformed(form: &Form, change: &Unimodular) -> Option<FrontForm>
    requires { change.now.size ≡ integers_of form.now }
    ensures form { MatchOption result (IsTransformedSmall (integers_of form.now) change.now.map
        form.now.p → ⊥) (IsTransformed (integers_of form.now) change.now.map form.now.p) }
    ensures h { IfSome result (λ r. r.h ≡ form.now.h) }
{
    let n = change.size;
    // Filled where they stand: a table that a call gives is copied.
    let mut halves = NormalTable::zeros();
    write_halves(&mut halves, &form.p, &change.map, n);
    let mut p = FormTable::zeros();
    if !write_wholes(&mut p, &halves, &change.map, n) {
        return None;
    }
    Some(FrontForm::of(form.columns, form.h, &p))
}
