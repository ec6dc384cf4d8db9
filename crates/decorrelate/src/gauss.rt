//! The integer Gauss transformations of a row: the factors of an integer, less multiples of those of the integers before it.
ghost use Rattle.std.specs.Prelude.{◌≡◌, ℕ, ◌+◌, ◌^◌, ◌<◌, ◌≤◌, ◌-ℤ◌, ◌*ℤ◌, unsigned_abs, length, true, false, MatchOption};
ghost use Rattle.quadratic_form.specs.Tables.{entry, item};
ghost use Rattle.quadratic_form.specs.declared.sizes.TheConstants.{MOST_INTEGERS};
ghost use Rattle.quadratic_form.specs.Matrices.{EntriesBelow};
ghost use Rattle.decorrelate.specs.GaussSteps.{IsGauss, IsWideGauss, with_own, GaussSmall};
ghost use Rattle.decorrelate.specs.ReducedRows.{IsReducedRow};

use crate::numbers::multiple;
use quadratic_form::{MOST_INTEGERS, MapTable};
use whole_math::product;

/// The factor of an integer with itself.
const UNIT: i64 = 1073741824;

/// No entry may reach this in size.
const GAUSS_LIMIT: i128 = 1 << 62;

/// What the Gauss transformations leave of the factors of an integer, and the multiples that they take.
#[derive(Clone, Copy, Debug)]
pub(crate) struct ReducedRow {
    pub(crate) multiples: [i64; MOST_INTEGERS],
    pub(crate) left: [i64; MOST_INTEGERS],
}

// t - k · y
fn minus_multiple(t: i64, k: i64, y: i64) -> i128
    requires t_size { unsigned_abs t ≤ 2 ^ 62 }
    requires k_size { unsigned_abs k ≤ 2 ^ 33 }
    requires y_size { unsigned_abs y ≤ 2 ^ 52 }
    ensures value { result ≡ t -ℤ (k *ℤ y) }
    ensures size { unsigned_abs result ≤ 2 ^ 105 }
{
    t as i128 - product::<52, 52>(k, y)
}

fn fits_gauss(x: i128) -> bool
    ensures below { result ≡ true → unsigned_abs x < 2 ^ 62 }
    ensures wide { result ≡ false → 2 ^ 62 ≤ unsigned_abs x }
{
    x < GAUSS_LIMIT && x > -GAUSS_LIMIT
}

// The factor of integer i with m, and 1 with itself.
fn factor(l: &MapTable, i: usize, m: usize) -> i64
    requires row { i < MOST_INTEGERS }
    requires column { m < MOST_INTEGERS }
    ensures { result ≡ with_own (entry l.now) i m }
{
    if m < i { l.at(i, m) } else { UNIT }
}

/// One integer Gauss transformation: t less k times the factors of integer i; false where an entry is too large.
fn gauss(l: &MapTable, i: usize, k: i64, t: &mut [i64; MOST_INTEGERS]) -> bool
    requires place { i < MOST_INTEGERS }
    requires k_size { unsigned_abs k ≤ 2 ^ 33 }
    requires l_size { (m : ℕ) → unsigned_abs (with_own (entry l.now) i m) ≤ 2 ^ 52 }
    requires t_size { (m : ℕ) → m < MOST_INTEGERS → unsigned_abs (item t.old m) < 2 ^ 62 }
    ensures done { result ≡ true →
        IsGauss i k (with_own (entry l.now) i) (item t.old) (item t.new) }
    ensures wide { result ≡ false → IsWideGauss i k (with_own (entry l.now) i) (item t.old) }
    ensures size { (m : ℕ) → m < MOST_INTEGERS → unsigned_abs (item t.new m) < 2 ^ 62 }
    ensures room { length t.new ≡ MOST_INTEGERS }
{
    for m in 0..i + 1 {
        let x = minus_multiple(t[m], k, factor(l, i, m));
        if !fits_gauss(x) {
            return false;
        }
        t[m] = x as i64;
    }
    true
}

// The factors of integer i.
fn row(l: &MapTable, i: usize) -> [i64; MOST_INTEGERS]
    requires row_in { i < MOST_INTEGERS }
    ensures same { (m : ℕ) → m < MOST_INTEGERS → item result m ≡ entry l.now i m }
    ensures room { length result ≡ MOST_INTEGERS }
{
    let mut t = [0; MOST_INTEGERS];
    for m in 0..MOST_INTEGERS {
        t[m] = l.at(i, m);
    }
    t
}

/// The factors of integer j + 1 less the nearest multiples of those of the integers before it, from j down, and these multiples; None
/// where an entry is too large.
pub(crate) fn reduced_row(l: &MapTable, j: usize) -> Option<ReducedRow>
    requires place { j + 1 < MOST_INTEGERS }
    requires l_size { EntriesBelow (2 ^ 52) l.now }
    ensures { MatchOption result (GaussSmall (entry l.now) j →
        ⊥) (λ f. IsReducedRow (entry l.now) j f) }
{
    let mut multiples = [0; MOST_INTEGERS];
    let mut left = row(l, j + 1);
    for step in 0..j + 1 {
        let i = j - step;
        let k = multiple(left[i]);
        if !gauss(l, i, k, &mut left) {
            return None;
        }
        multiples[i] = k;
    }
    Some(ReducedRow { multiples, left })
}
