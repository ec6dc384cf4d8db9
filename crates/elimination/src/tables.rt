//! A form and its factors, from one table to another.
ghost use Rattle.std.specs.Prelude.{◌≡◌, ◌≢◌, ◌⊎◌, ℕ, ◌+◌, ◌^◌, ◌<◌, ◌≤◌, pos, slice_index_or, unsigned_abs};
ghost use Rattle.quadratic_form.specs.Places.{form_from};
ghost use Rattle.quadratic_form.specs.LowerSums.{SmallForm};
ghost use Rattle.quadratic_form.specs.Tables.{entry, item, IsZeroOutside};
ghost use Rattle.quadratic_form.specs.Matrices.{IsSymmetric, EntriesBelow};
ghost use Rattle.integer_form.specs.Kept.{form_of_table, IsZeroFrom};

use quadratic_form::{
    BASELINE_COLUMNS, FactorTable, FormTable, FrontTable, MOST_COLUMNS, MOST_FACTORS,
    MOST_FORM_COLUMNS, NormalTable,
};

/// Writes an entry at its place and across the diagonal.
fn set_both(p: &mut FormTable, r: usize, c: usize, value: i64)
    requires row_in { r < MOST_FORM_COLUMNS }
    requires column_in { c < MOST_FORM_COLUMNS }
    requires symmetric { IsSymmetric p.old }
    ensures there { entry p.new r c ≡ value }
    ensures others { (i j : ℕ) → (i ≢ r) ⊎ (j ≢ c) → (i ≢ c) ⊎ (j ≢ r) →
        entry p.new i j ≡ entry p.old i j }
    ensures symmetric { IsSymmetric p.new }
{
    p.set(r, c, value);
    p.set(c, r, value);
}

/// Writes row r of a form of n columns, from its own entry on, and its column.
fn copy_row(table: &NormalTable, p: &mut FormTable, r: usize, n: usize)
    requires row_in { r < n }
    requires columns_in { n ≤ MOST_FORM_COLUMNS }
    requires entries { (c : ℕ) → r ≤ c → c < n →
        unsigned_abs (entry table.now (3 + r) (3 + c)) < 2 ^ 52 }
    requires symmetric { IsSymmetric p.old }
    requires outside { IsZeroOutside n n p.old }
    ensures row { (c : ℕ) → r ≤ c → c < n → entry p.new r c ≡ entry table.now (3 + r) (3 + c) }
    ensures before { (i c : ℕ) → i < r → entry p.new i c ≡ entry p.old i c }
    ensures symmetric { IsSymmetric p.new }
    ensures outside { IsZeroOutside n n p.new }
{
    for c in r..n {
        let value = table.at(BASELINE_COLUMNS + r, BASELINE_COLUMNS + c);
        set_both(p, r, c, value as i64);
    }
}

/// Writes row r of a form of n columns, from its own entry on, and its column, of a row that begins with the baseline's columns.
pub fn put_row(row: &[i64; MOST_COLUMNS], p: &mut FormTable, r: usize, n: usize)
    requires row_in { r < n }
    requires columns_in { n ≤ MOST_FORM_COLUMNS }
    requires entries { (c : ℕ) → r ≤ c → c < n → unsigned_abs (item row.now (3 + c)) < 2 ^ 52 }
    requires symmetric { IsSymmetric p.old }
    requires below { EntriesBelow (2 ^ 52) p.old }
    requires outside { IsZeroOutside n n p.old }
    ensures row { (c : ℕ) → r ≤ c → c < n → entry p.new r c ≡ item row.now (3 + c) }
    ensures before { (i c : ℕ) → i < r → entry p.new i c ≡ entry p.old i c }
    ensures symmetric { IsSymmetric p.new }
    ensures below { EntriesBelow (2 ^ 52) p.new }
    ensures outside { IsZeroOutside n n p.new }
{
    for c in r..n {
        set_both(p, r, c, row[BASELINE_COLUMNS + c]);
    }
}

/// Writes the form of the n columns after the baseline's, both halves, into a table that is 0 outside of it. Of the table
/// that is read, the entries on the diagonal and after it are.
pub fn fill_form_table(table: &NormalTable, p: &mut FormTable, n: usize)
    requires columns_in { n ≤ MOST_FORM_COLUMNS }
    requires small { SmallForm (form_from (entry table.now) 3 n) }
    requires symmetric { IsSymmetric p.old }
    requires outside { IsZeroOutside n n p.old }
    ensures form { form_of_table p.new n ≡ form_from (entry table.now) 3 n }
    ensures entries { EntriesBelow (2 ^ 52) p.new }
    ensures symmetric { IsSymmetric p.new }
    ensures outside { IsZeroOutside n n p.new }
{
    for r in 0..n {
        copy_row(table, p, r, n);
    }
}

/// The form of the n columns after the baseline's, both halves. Of the table the entries on the diagonal and after it
/// are read.
pub fn form_table(table: &NormalTable, n: usize) -> FormTable
    requires columns_in { n ≤ MOST_FORM_COLUMNS }
    requires small { SmallForm (form_from (entry table.now) 3 n) }
    ensures form { form_of_table result n ≡ form_from (entry table.now) 3 n }
    ensures entries { EntriesBelow (2 ^ 52) result }
    ensures symmetric { IsSymmetric result }
    ensures outside { IsZeroOutside n n result }
{
    let mut p = FormTable::zeros();
    fill_form_table(table, &mut p, n);
    p
}

/// Writes row r of a form of n columns, from its own entry on, after the baseline's columns.
fn copy_row_back(p: &FormTable, table: &mut NormalTable, r: usize, n: usize)
    requires row_in { r < n }
    requires columns_in { n ≤ MOST_FORM_COLUMNS }
    ensures row { (c : ℕ) → r ≤ c → c < n → entry table.new (3 + r) (3 + c) ≡ entry p.now r c }
    ensures others { (i c : ℕ) → i ≢ 3 + r → entry table.new i c ≡ entry table.old i c }
{
    for c in r..n {
        table.set(
            BASELINE_COLUMNS + r,
            BASELINE_COLUMNS + c,
            p.at(r, c) as i128,
        );
    }
}

/// Writes this form of n columns after the baseline's columns, on the diagonal and after it.
pub(crate) fn put_form(p: &FormTable, table: &mut NormalTable, n: usize)
    requires columns_in { n ≤ MOST_FORM_COLUMNS }
    requires entries { EntriesBelow (2 ^ 52) p.now }
    ensures form { form_from (entry table.new) 3 n ≡ form_of_table p.now n }
    ensures entries { (r c : ℕ) → 3 ≤ r → r ≤ c → c < 3 + n →
        unsigned_abs (entry table.new r c) ≤ 2 ^ 52 }
{
    for r in 0..n {
        copy_row_back(p, table, r, n);
    }
}

/// Writes row r of the factors of the baseline's columns.
fn copy_factors(factors: &FactorTable, front: &mut FrontTable, r: usize)
    requires row_in { r < MOST_COLUMNS }
    ensures row { (c : ℕ) → c < BASELINE_COLUMNS → entry front.new r c ≡ entry factors.now r c }
    ensures others { (i c : ℕ) → (i ≢ r) ⊎ (BASELINE_COLUMNS ≤ c) →
        entry front.new i c ≡ entry front.old i c }
{
    for c in 0..BASELINE_COLUMNS {
        front.set(r, c, factors.at(r, c));
    }
}

/// The factors of the baseline's columns.
pub fn front_factors(factors: &FactorTable) -> FrontTable
    ensures same { (r c : ℕ) → r < MOST_COLUMNS → c < BASELINE_COLUMNS →
        entry result r c ≡ entry factors.now r c }
    ensures outside { IsZeroOutside MOST_COLUMNS BASELINE_COLUMNS result }
{
    let mut front = FrontTable::zeros();
    for r in 0..MOST_COLUMNS {
        copy_factors(factors, &mut front, r);
    }
    front
}

/// What is kept of the baseline's pivots, and 0 for the other columns.
pub(crate) fn kept_list(d: &[i64; BASELINE_COLUMNS]) -> [i64; MOST_FACTORS]
    ensures same { (i : ℕ) → i < BASELINE_COLUMNS →
        slice_index_or result i (pos 0) ≡ slice_index_or d.now i (pos 0) }
    ensures outside { IsZeroFrom BASELINE_COLUMNS result }
{
    let mut kept = [0; MOST_FACTORS];
    for i in 0..BASELINE_COLUMNS {
        kept[i] = d[i];
    }
    kept
}

/// What is kept of the baseline's pivots.
pub fn first_kept(kept: &[i64; MOST_FACTORS]) -> [i64; BASELINE_COLUMNS]
    ensures { (i : ℕ) → i < BASELINE_COLUMNS →
        slice_index_or result i (pos 0) ≡ slice_index_or kept.now i (pos 0) }
{
    let mut d = [0; BASELINE_COLUMNS];
    for i in 0..BASELINE_COLUMNS {
        d[i] = kept[i];
    }
    d
}
