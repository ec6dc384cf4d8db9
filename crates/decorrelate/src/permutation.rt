//! The factors of a state under a turn.
ghost use Rattle.std.specs.Prelude.{◌≡◌, ◌≢◌, ◌⊎◌, ℕ, ◌+◌, ◌^◌, ◌<◌, ◌≤◌, unsigned_abs, true, false, MatchOption};
ghost use Rattle.quadratic_form.specs.Tables.{entry, item};
ghost use Rattle.quadratic_form.specs.declared.sizes.TheConstants.{MOST_INTEGERS};
ghost use Rattle.quadratic_form.specs.Matrices.{EntriesBelow};
ghost use Rattle.decorrelate.specs.Turning.{AreColumnsSmall, AreNewFactors, AreFactorsSmall, IsRowTurned};
ghost use Rattle.decorrelate.specs.Permuted.{AreRowsPermuted, ArePermuted};

use crate::numbers::{is_narrow, minus_scaled, narrow, plus_scaled};
use quadratic_form::{MOST_INTEGERS, MapTable};

// Whether what is left of the factors before integer j is narrow.
fn are_narrow(left: &[i64; MOST_INTEGERS], j: usize) -> bool
    requires place { j + 1 < MOST_INTEGERS }
    ensures narrow { result ≡ true → (m : ℕ) → m < j → unsigned_abs (item left.now m) < 2 ^ 52 }
    ensures wide { result ≡ false → ((m : ℕ) → m < j → unsigned_abs (item left.now m) < 2 ^ 52) →
        ⊥ }
{
    for m in 0..j {
        if !is_narrow(left[m] as i128) {
            return false;
        }
    }
    true
}

// The new factors of integer i with j and j + 1, the first of the two before the second; None where one is too large.
fn turned_factors(l: &MapTable, i: usize, j: usize, r: i64, q: i64) -> Option<(i64, i64)>
    requires row { i < MOST_INTEGERS }
    requires place { j + 1 < MOST_INTEGERS }
    requires r_size { unsigned_abs r ≤ 2 ^ 30 }
    requires q_size { unsigned_abs q < 2 ^ 52 }
    requires small { (m : ℕ) → unsigned_abs (entry l.now i m) < 2 ^ 52 }
    ensures { MatchOption result (AreColumnsSmall r q j (entry l.now i) →
        ⊥) (λ f. AreNewFactors r q j (entry l.now i) f.0 f.1) }
{
    let y = l.at(i, j + 1);
    let second = narrow(minus_scaled(l.at(i, j), r, y))?;
    let first = narrow(plus_scaled(y, q, second))?;
    Some((first, second))
}

// Whether the new factors of all integers after j + 1 with the two are narrow.
fn are_rows_narrow(l: &MapTable, size: usize, j: usize, r: i64, q: i64) -> bool
    requires place { j + 1 < size }
    requires most { size ≤ MOST_INTEGERS }
    requires r_size { unsigned_abs r ≤ 2 ^ 30 }
    requires q_size { unsigned_abs q < 2 ^ 52 }
    requires small { EntriesBelow (2 ^ 52) l.now }
    ensures narrow { result ≡ true → (i : ℕ) → j + 1 < i → i < size →
        AreColumnsSmall r q j (entry l.now i) }
    ensures wide { result ≡ false →
        ((i : ℕ) → j + 1 < i → i < size → AreColumnsSmall r q j (entry l.now i)) → ⊥ }
{
    for i in j + 2..size {
        let Some(_) = turned_factors(l, i, j, r, q) else {
            return false;
        };
    }
    true
}

/// Whether the other new factors of a turn are narrow, where q is the one between the two. A turn asks before it writes, so
/// that no table is copied to be put back.
pub(crate) fn is_permutation_narrow(
    l: &MapTable,
    size: usize,
    j: usize,
    r: i64,
    q: i64,
    left: &[i64; MOST_INTEGERS],
) -> bool
    requires place { j + 1 < size }
    requires most { size ≤ MOST_INTEGERS }
    requires r_size { unsigned_abs r ≤ 2 ^ 30 }
    requires q_size { unsigned_abs q < 2 ^ 52 }
    requires small { EntriesBelow (2 ^ 52) l.now }
    ensures narrow { result ≡ true → AreFactorsSmall size j r q (item left.now) (entry l.now) }
    ensures wide { result ≡ false → AreFactorsSmall size j r q (item left.now) (entry l.now) → ⊥ }
{
    are_narrow(left, j) && are_rows_narrow(l, size, j, r, q)
}

// The factors of integer j + 1 with those before j take what is left of them, and change places with those of integer j; q
// is the new one between the two.
fn permute_rows(l: &mut MapTable, j: usize, q: i64, left: &[i64; MOST_INTEGERS])
    requires place { j + 1 < MOST_INTEGERS }
    ensures { AreRowsPermuted j q (item left.now) l.old l.new }
{
    for m in 0..j {
        let before = l.at(j, m);
        l.set(j, m, left[m]);
        l.set(j + 1, m, before);
    }
    l.set(j + 1, j, q);
}

/// The factors of integer i with j and j + 1.
fn turn_row(l: &mut MapTable, i: usize, j: usize, r: i64, q: i64)
    requires row { i < MOST_INTEGERS }
    requires place { j + 1 < MOST_INTEGERS }
    requires r_size { unsigned_abs r ≤ 2 ^ 30 }
    requires q_size { unsigned_abs q < 2 ^ 52 }
    requires small { (m : ℕ) → unsigned_abs (entry l.old i m) < 2 ^ 52 }
    requires narrow { AreColumnsSmall r q j (entry l.old i) }
    ensures turned { IsRowTurned r q j (entry l.old i) (entry l.new i) }
    ensures others { (k m : ℕ) → k ≢ i → entry l.new k m ≡ entry l.old k m }
{
    let (first, second) = turned_factors(l, i, j, r, q).unwrap();
    l.set(i, j, first);
    l.set(i, j + 1, second);
}

/// The factors of the integers after j + 1 with j and j + 1.
fn turn_later_rows(l: &mut MapTable, size: usize, j: usize, r: i64, q: i64)
    requires place { j + 1 < size }
    requires most { size ≤ MOST_INTEGERS }
    requires r_size { unsigned_abs r ≤ 2 ^ 30 }
    requires q_size { unsigned_abs q < 2 ^ 52 }
    requires small { EntriesBelow (2 ^ 52) l.old }
    requires narrow { (i : ℕ) → j + 1 < i → i < size → AreColumnsSmall r q j (entry l.old i) }
    ensures turned { (i : ℕ) → j + 1 < i → i < size →
        IsRowTurned r q j (entry l.old i) (entry l.new i) }
    ensures others { (i m : ℕ) → (i ≤ j + 1) ⊎ (size ≤ i) → entry l.new i m ≡ entry l.old i m }
{
    for i in j + 2..size {
        turn_row(l, i, j, r, q);
    }
}

/// Turns the factors, where q is the new one between the two.
pub(crate) fn permute(
    l: &mut MapTable,
    size: usize,
    j: usize,
    r: i64,
    q: i64,
    left: &[i64; MOST_INTEGERS],
)
    requires place { j + 1 < size }
    requires most { size ≤ MOST_INTEGERS }
    requires r_size { unsigned_abs r ≤ 2 ^ 30 }
    requires narrow { AreFactorsSmall size j r q (item left.now) (entry l.old) }
    requires small { EntriesBelow (2 ^ 52) l.old }
    ensures { ArePermuted size j r q (item left.now) l.old l.new }
{
    permute_rows(l, j, q, left);
    turn_later_rows(l, size, j, r, q);
}
