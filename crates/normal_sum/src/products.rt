//! Weighted products of the coefficients of a row, added to a table in the columns that the row has, on and above the
//! diagonal alone. The entries of the baseline's columns, which are the same for each signal, are left out.
ghost use Rattle.std.specs.Prelude.{◌≡◌, ◌≢◌, ◌⊎◌, ℕ, ◌^◌, ◌<◌, ◌≤◌, pos, ◌+ℤ◌, ◌*ℤ◌, IsTrue, unsigned_abs, slice_index_or};
ghost use Rattle.quadratic_form.specs.Tables.{entry};
ghost use Rattle.quadratic_form.specs.declared.sizes.TheConstants.{BASELINE_COLUMNS};
ghost use Rattle.normal_sum.specs.Columns.{AreColumnsOf, AreColumnsFrom};

use quadratic_form::{BASELINE_COLUMNS, MOST_COLUMNS, NormalTable};
use whole_math::product;

/// sum + factor · value
fn plus_times(sum: i128, factor: i128, value: i64) -> i128
    requires sum_size { unsigned_abs sum ≤ 2 ^ 120 }
    requires factor_size { unsigned_abs factor ≤ 2 ^ 77 }
    requires value_size { unsigned_abs value ≤ 2 ^ 38 }
    ensures { result ≡ sum +ℤ (factor *ℤ value) }
{
    sum + factor * value as i128
}

/// The product of any weight and a value of this size fits 64 bits.
const SHORT: i64 = 1 << 30;

/// Whether weight · value fits 64 bits, whatever the weight.
fn is_short(value: i64) -> bool
    ensures { IsTrue result → unsigned_abs value ≤ 2 ^ 30 }
{
    -SHORT <= value && value <= SHORT
}

/// weight · value
fn short_times(weight: i64, value: i64) -> i64
    requires weight_size { unsigned_abs weight ≤ 2 ^ 32 }
    requires value_size { unsigned_abs value ≤ 2 ^ 30 }
    ensures value { result ≡ weight *ℤ value }
    ensures size { unsigned_abs result ≤ 2 ^ 62 }
{
    weight * value
}

/// sum + factor · value, by one multiplication in place of three.
fn plus_short(sum: i128, factor: i64, value: i64) -> i128
    requires sum_size { unsigned_abs sum ≤ 2 ^ 120 }
    requires factor_size { unsigned_abs factor ≤ 2 ^ 62 }
    requires value_size { unsigned_abs value ≤ 2 ^ 38 }
    ensures { result ≡ sum +ℤ (factor *ℤ value) }
{
    sum + factor as i128 * value as i128
}

/// Adds factor · value to one entry.
#[inline(always)]
pub(crate) fn add_to_entry(
    table: &mut NormalTable,
    row: usize,
    column: usize,
    factor: i128,
    value: i64,
)
    requires row_in { row < MOST_COLUMNS }
    requires column_in { column < MOST_COLUMNS }
    requires factor_size { unsigned_abs factor ≤ 2 ^ 77 }
    requires value_size { unsigned_abs value ≤ 2 ^ 38 }
    requires entry_size { unsigned_abs (entry table.old row column) ≤ 2 ^ 120 }
    ensures there { entry table.new row column ≡ entry table.old row column +ℤ (factor *ℤ value) }
    ensures others { (i j : ℕ) → (i ≢ row) ⊎ (j ≢ column) →
        entry table.new i j ≡ entry table.old i j }
{
    let sum = plus_times(table.at(row, column), factor, value);
    table.set(row, column, sum);
}

/// Adds factor times the values to a row, from the diagonal on, after the columns of the baseline.
#[inline(always)]
fn add_to_row(
    table: &mut NormalTable,
    row: usize,
    factor: i128,
    values: &[i64; MOST_COLUMNS],
    columns: &[usize],
)
    requires row_in { row < MOST_COLUMNS }
    requires columns { AreColumnsFrom row values.now columns.now }
    requires factor_size { unsigned_abs factor ≤ 2 ^ 77 }
    requires value_size { (j : ℕ) → j < MOST_COLUMNS →
        unsigned_abs (slice_index_or values.now j (pos 0)) ≤ 2 ^ 38 }
    requires entry_size { (j : ℕ) → row ≤ j → BASELINE_COLUMNS ≤ j → j < MOST_COLUMNS →
        unsigned_abs (entry table.old row j) ≤ 2 ^ 120 }
    ensures added { (j : ℕ) → row ≤ j → BASELINE_COLUMNS ≤ j → j < MOST_COLUMNS →
        entry table.new row j
        ≡ entry table.old row j +ℤ (factor *ℤ slice_index_or values.now j (pos 0)) }
    ensures before { (j : ℕ) → (j < row) ⊎ (j < BASELINE_COLUMNS) →
        entry table.new row j ≡ entry table.old row j }
    ensures others { (i j : ℕ) → i ≢ row → entry table.new i j ≡ entry table.old i j }
{
    for column in columns {
        add_to_entry(table, row, *column, factor, values[*column]);
    }
}

/// Adds factor · value to one entry, where the factor fits 64 bits.
#[inline(always)]
pub(crate) fn add_short_to_entry(
    table: &mut NormalTable,
    row: usize,
    column: usize,
    factor: i64,
    value: i64,
)
    requires row_in { row < MOST_COLUMNS }
    requires column_in { column < MOST_COLUMNS }
    requires factor_size { unsigned_abs factor ≤ 2 ^ 62 }
    requires value_size { unsigned_abs value ≤ 2 ^ 38 }
    requires entry_size { unsigned_abs (entry table.old row column) ≤ 2 ^ 120 }
    ensures there { entry table.new row column ≡ entry table.old row column +ℤ (factor *ℤ value) }
    ensures others { (i j : ℕ) → (i ≢ row) ⊎ (j ≢ column) →
        entry table.new i j ≡ entry table.old i j }
{
    let sum = plus_short(table.at(row, column), factor, value);
    table.set(row, column, sum);
}

/// Adds factor times the values to a row, from the diagonal on, after the columns of the baseline, where the factor fits 64 bits.
#[inline(always)]
fn add_short_to_row(
    table: &mut NormalTable,
    row: usize,
    factor: i64,
    values: &[i64; MOST_COLUMNS],
    columns: &[usize],
)
    requires row_in { row < MOST_COLUMNS }
    requires columns { AreColumnsFrom row values.now columns.now }
    requires factor_size { unsigned_abs factor ≤ 2 ^ 62 }
    requires value_size { (j : ℕ) → j < MOST_COLUMNS →
        unsigned_abs (slice_index_or values.now j (pos 0)) ≤ 2 ^ 38 }
    requires entry_size { (j : ℕ) → row ≤ j → BASELINE_COLUMNS ≤ j → j < MOST_COLUMNS →
        unsigned_abs (entry table.old row j) ≤ 2 ^ 120 }
    ensures added { (j : ℕ) → row ≤ j → BASELINE_COLUMNS ≤ j → j < MOST_COLUMNS →
        entry table.new row j
        ≡ entry table.old row j +ℤ (factor *ℤ slice_index_or values.now j (pos 0)) }
    ensures before { (j : ℕ) → (j < row) ⊎ (j < BASELINE_COLUMNS) →
        entry table.new row j ≡ entry table.old row j }
    ensures others { (i j : ℕ) → i ≢ row → entry table.new i j ≡ entry table.old i j }
{
    for column in columns {
        add_short_to_entry(table, row, *column, factor, values[*column]);
    }
}

/// Adds weight · `values[row]` times the values to a row, from the diagonal on, after the columns of the baseline.
#[inline(always)]
fn add_product_row(
    table: &mut NormalTable,
    row: usize,
    values: &[i64; MOST_COLUMNS],
    columns: &[usize],
    weight: i64,
)
    requires row_in { row < MOST_COLUMNS }
    requires columns { AreColumnsFrom row values.now columns.now }
    requires weight_size { unsigned_abs weight ≤ 2 ^ 32 }
    requires value_size { (j : ℕ) → j < MOST_COLUMNS →
        unsigned_abs (slice_index_or values.now j (pos 0)) ≤ 2 ^ 38 }
    requires entry_size { (j : ℕ) → row ≤ j → BASELINE_COLUMNS ≤ j → j < MOST_COLUMNS →
        unsigned_abs (entry table.old row j) ≤ 2 ^ 120 }
    ensures added { (j : ℕ) → row ≤ j → BASELINE_COLUMNS ≤ j → j < MOST_COLUMNS →
        entry table.new row j ≡ entry table.old row j +ℤ ((weight
        *ℤ slice_index_or values.now row (pos 0)) *ℤ slice_index_or values.now j (pos 0)) }
    ensures before { (j : ℕ) → (j < row) ⊎ (j < BASELINE_COLUMNS) →
        entry table.new row j ≡ entry table.old row j }
    ensures others { (i j : ℕ) → i ≢ row → entry table.new i j ≡ entry table.old i j }
{
    let value = values[row];
    if is_short(value) {
        add_short_to_row(table, row, short_times(weight, value), values, columns);
    } else {
        add_to_row(
            table,
            row,
            product::<35, 40>(weight, value),
            values,
            columns,
        );
    }
}

/// Adds weight · values · valuesᵀ on and above the diagonal, in the columns of the values after those of the baseline.
///
/// It and what it calls stand in their callers' code: where the columns are a row's five, the loops become straight code.
#[inline(always)]
pub(crate) fn add_product(
    table: &mut NormalTable,
    values: &[i64; MOST_COLUMNS],
    columns: &[usize],
    weight: i64,
)
    requires columns { AreColumnsOf values.now columns.now }
    requires weight_size { unsigned_abs weight ≤ 2 ^ 32 }
    requires value_size { (j : ℕ) → j < MOST_COLUMNS →
        unsigned_abs (slice_index_or values.now j (pos 0)) ≤ 2 ^ 38 }
    requires entry_size { (i j : ℕ) → i ≤ j → BASELINE_COLUMNS ≤ j → j < MOST_COLUMNS →
        unsigned_abs (entry table.old i j) ≤ 2 ^ 120 }
    ensures added { (i j : ℕ) → i ≤ j → BASELINE_COLUMNS ≤ j → j < MOST_COLUMNS →
        entry table.new i j ≡ entry table.old i j +ℤ ((weight
        *ℤ slice_index_or values.now i (pos 0)) *ℤ slice_index_or values.now j (pos 0)) }
    ensures before { (i j : ℕ) → (j < i) ⊎ (j < BASELINE_COLUMNS) →
        entry table.new i j ≡ entry table.old i j }
{
    for k in 0..columns.len() {
        let later = k.max(BASELINE_COLUMNS);
        add_product_row(table, columns[k], values, &columns[later..], weight);
    }
}
