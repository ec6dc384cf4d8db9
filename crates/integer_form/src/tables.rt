//! The factors of the baseline's columns in a table of all factors, and whether a table is that of a form.
ghost use Rattle.std.specs.Prelude.{◌≡◌, ◌≢◌, ◌⊎◌, ℕ, ◌^◌, ◌<◌, ◌≤◌, true, pos, unsigned_abs};
ghost use Rattle.quadratic_form.specs.Tables.{entry, IsZeroOutside};
ghost use Rattle.quadratic_form.specs.declared.sizes.TheConstants.{BASELINE_COLUMNS, MOST_COLUMNS};
ghost use Rattle.quadratic_form.specs.Matrices.{IsSymmetric, EntriesBelow};

use quadratic_form::{
    BASELINE_COLUMNS, FactorTable, FormTable, FrontTable, MOST_COLUMNS, MOST_FORM_COLUMNS,
};

/// Every entry of a form is below this in size.
const LIMIT: i64 = 1 << 52;

/// Writes row r of the factors of the baseline's columns into a table of all factors.
fn copy_factors_back(front: &FrontTable, factors: &mut FactorTable, r: usize)
    requires row_in { r < MOST_COLUMNS }
    ensures row { (c : ℕ) → c < BASELINE_COLUMNS → entry factors.new r c ≡ entry front.now r c }
    ensures others { (i c : ℕ) → (i ≢ r) ⊎ (BASELINE_COLUMNS ≤ c) →
        entry factors.new i c ≡ entry factors.old i c }
{
    for c in 0..BASELINE_COLUMNS {
        factors.set(r, c, front.at(r, c));
    }
}

/// Writes these factors of the baseline's columns into a table of all factors.
pub fn put_factors(front: &FrontTable, factors: &mut FactorTable)
    ensures same { (r c : ℕ) → r < MOST_COLUMNS → c < BASELINE_COLUMNS →
        entry factors.new r c ≡ entry front.now r c }
    ensures others { (r c : ℕ) → (MOST_COLUMNS ≤ r) ⊎ (BASELINE_COLUMNS ≤ c) →
        entry factors.new r c ≡ entry factors.old r c }
{
    for r in 0..MOST_COLUMNS {
        copy_factors_back(front, factors, r);
    }
}

/// Whether row r of a table is that of a form of n columns: below 2^52 in size, the same across the diagonal, and 0
/// outside the columns.
fn is_form_row(p: &FormTable, r: usize, n: usize) -> bool
    requires row_in { r < MOST_FORM_COLUMNS }
    ensures symmetric { result ≡ true → (c : ℕ) → c < MOST_FORM_COLUMNS →
        entry p.now r c ≡ entry p.now c r }
    ensures small { result ≡ true → (c : ℕ) → c < MOST_FORM_COLUMNS →
        unsigned_abs (entry p.now r c) < 2 ^ 52 }
    ensures outside { result ≡ true → (c : ℕ) → c < MOST_FORM_COLUMNS → (n ≤ r) ⊎ (n ≤ c) →
        entry p.now r c ≡ pos 0 }
    ensures only { IsSymmetric p.now → EntriesBelow (2 ^ 52) p.now → IsZeroOutside n n p.now →
        result ≡ true }
{
    for c in 0..MOST_FORM_COLUMNS {
        let entry = p.at(r, c);
        let is_inside = r < n && c < n;
        if entry != p.at(c, r) || entry <= -LIMIT || entry >= LIMIT || (!is_inside && entry != 0) {
            return false;
        }
    }
    true
}

/// Whether a table is the matrix of a form of n columns: symmetric, its entries below 2^52 in size, and 0 outside the
/// columns. It serves tests alone, which make such tables.
pub fn is_form_table(p: &FormTable, n: usize) -> bool
    ensures symmetric { result ≡ true → IsSymmetric p.now }
    ensures entries { result ≡ true → EntriesBelow (2 ^ 52) p.now }
    ensures outside { result ≡ true → IsZeroOutside n n p.now }
    ensures only { IsSymmetric p.now → EntriesBelow (2 ^ 52) p.now → IsZeroOutside n n p.now →
        result ≡ true }
{
    // A read says the shape of the table, so that nothing stands beyond its ends.
    let _first = p.at(0, 0);
    for r in 0..MOST_FORM_COLUMNS {
        if !is_form_row(p, r, n) {
            return false;
        }
    }
    true
}
