//! What the rows of a pair add to the entries of the baseline's columns. A row has the same directions for each signal, so
//! one pass adds them for all.
ghost use Rattle.std.specs.Prelude.{◌≡◌, ◌≢◌, ℕ, ◌+◌, ◌*◌, ◌^◌, ◌<◌, ◌≤◌, ◌+ℤ◌, ◌-ℤ◌, ◌*ℤ◌, pos, length, unsigned_abs, slice_index_or};
ghost use Rattle.quadratic_form.specs.declared.sizes.TheConstants.{BASELINE_COLUMNS};
ghost use Rattle.quadratic_form.specs.Tables.{entry};
ghost use Rattle.obs_rows.specs.Data.{number_at};
ghost use Rattle.normal_sum.specs.Directions.{direction_sum, direction_products, direction_spread};

use crate::places::MOST_ROWS;
use crate::products::add_short_to_entry;
use obs_rows::Row;
use quadratic_form::{BASELINE_COLUMNS, NormalTable};

/// The sum of the directions of the rows along one axis.
pub(crate) fn direction_sum(rows: &[Row], axis: usize) -> i64
    requires few_rows { length rows.now ≤ MOST_ROWS }
    requires axis { axis < BASELINE_COLUMNS }
    ensures value { result ≡ direction_sum rows.now axis }
    ensures size { unsigned_abs result ≤ 2 ^ 28 }
    ensures short { unsigned_abs result ≤ length rows.now * 2 ^ 24 }
{
    let mut sum = 0;
    for row in rows {
        sum += row.u[axis];
    }
    sum
}

/// u_i · u_j
fn direction_product(row: &Row, first: usize, second: usize) -> i64
    requires first { first < BASELINE_COLUMNS }
    requires second { second < BASELINE_COLUMNS }
    ensures value { result ≡ number_at row.now.u first *ℤ number_at row.now.u second }
    ensures size { unsigned_abs result ≤ 2 ^ 48 }
{
    row.u[first] * row.u[second]
}

/// The sum of the products of the directions of the rows along two axes.
fn direction_products(rows: &[Row], first: usize, second: usize) -> i64
    requires few_rows { length rows.now ≤ MOST_ROWS }
    requires first { first < BASELINE_COLUMNS }
    requires second { second < BASELINE_COLUMNS }
    ensures value { result ≡ direction_products rows.now first second }
    ensures size { unsigned_abs result ≤ 2 ^ 52 }
{
    let mut sum = 0;
    for row in rows {
        sum += direction_product(row, first, second);
    }
    sum
}

/// rows · products - first · second
fn less_product(rows: i64, products: i64, first: i64, second: i64) -> i64
    requires few_rows { unsigned_abs rows ≤ MOST_ROWS }
    requires products_size { unsigned_abs products ≤ 2 ^ 52 }
    requires first_size { unsigned_abs first ≤ 2 ^ 28 }
    requires second_size { unsigned_abs second ≤ 2 ^ 28 }
    ensures value { result ≡ (rows *ℤ products) -ℤ (first *ℤ second) }
    ensures size { unsigned_abs result ≤ 2 ^ 57 }
{
    rows * products - first * second
}

/// n Σ u_i u_j - Σ u_i Σ u_j over the n rows.
fn direction_spread(
    rows: &[Row],
    sums: &[i64; BASELINE_COLUMNS],
    first: usize,
    second: usize,
) -> i64
    requires few_rows { length rows.now ≤ MOST_ROWS }
    requires sums { (i : ℕ) → i < BASELINE_COLUMNS →
        slice_index_or sums.now i (pos 0) ≡ direction_sum rows.now i }
    requires sum_size { (i : ℕ) → i < BASELINE_COLUMNS →
        unsigned_abs (slice_index_or sums.now i (pos 0)) ≤ 2 ^ 28 }
    requires first { first < BASELINE_COLUMNS }
    requires second { second < BASELINE_COLUMNS }
    ensures value { result ≡ direction_spread rows.now first second }
    ensures size { unsigned_abs result ≤ 2 ^ 57 }
{
    let products = direction_products(rows, first, second);
    less_product(rows.len() as i64, products, sums[first], sums[second])
}

/// Adds what the rows add to the entries of one axis, from the diagonal on.
fn add_axis(
    table: &mut NormalTable,
    rows: &[Row],
    sums: &[i64; BASELINE_COLUMNS],
    axis: usize,
    share: i64,
)
    requires few_rows { length rows.now ≤ MOST_ROWS }
    requires sums { (i : ℕ) → i < BASELINE_COLUMNS →
        slice_index_or sums.now i (pos 0) ≡ direction_sum rows.now i }
    requires sum_size { (i : ℕ) → i < BASELINE_COLUMNS →
        unsigned_abs (slice_index_or sums.now i (pos 0)) ≤ 2 ^ 28 }
    requires axis { axis < BASELINE_COLUMNS }
    requires share_size { unsigned_abs share ≤ 2 ^ 38 }
    requires entry_size { (j : ℕ) → axis ≤ j → j < BASELINE_COLUMNS →
        unsigned_abs (entry table.old axis j) ≤ 2 ^ 120 }
    ensures added { (j : ℕ) → axis ≤ j → j < BASELINE_COLUMNS → entry table.new axis j
        ≡ entry table.old axis j +ℤ (direction_spread rows.now axis j *ℤ share) }
    ensures size { (j : ℕ) → axis ≤ j → j < BASELINE_COLUMNS →
        unsigned_abs (entry table.new axis j) ≤ unsigned_abs (entry table.old axis j) + 2 ^ 95 }
    ensures behind { (i j : ℕ) → BASELINE_COLUMNS ≤ j → entry table.new i j ≡ entry table.old i j }
    ensures below { (i j : ℕ) → j < i → entry table.new i j ≡ entry table.old i j }
    ensures others { (i j : ℕ) → i ≢ axis → entry table.new i j ≡ entry table.old i j }
{
    for other in axis..BASELINE_COLUMNS {
        let spread = direction_spread(rows, sums, axis, other);
        add_short_to_entry(table, axis, other, spread, share);
    }
}

/// Adds what the rows add to the entries of the baseline's columns, on and above the diagonal.
pub(crate) fn add_directions(table: &mut NormalTable, rows: &[Row], share: i64)
    requires few_rows { length rows.now ≤ MOST_ROWS }
    requires share_size { unsigned_abs share ≤ 2 ^ 38 }
    requires entry_size { (i j : ℕ) → i ≤ j → j < BASELINE_COLUMNS →
        unsigned_abs (entry table.old i j) ≤ 2 ^ 120 }
    ensures added { (i j : ℕ) → i ≤ j → j < BASELINE_COLUMNS →
        entry table.new i j ≡ entry table.old i j +ℤ (direction_spread rows.now i j *ℤ share) }
    ensures size { (i j : ℕ) → i ≤ j → j < BASELINE_COLUMNS →
        unsigned_abs (entry table.new i j) ≤ unsigned_abs (entry table.old i j) + 2 ^ 95 }
    ensures behind { (i j : ℕ) → BASELINE_COLUMNS ≤ j → entry table.new i j ≡ entry table.old i j }
    ensures below { (i j : ℕ) → j < i → entry table.new i j ≡ entry table.old i j }
{
    let sums = [
        direction_sum(rows, 0),
        direction_sum(rows, 1),
        direction_sum(rows, 2),
    ];
    for axis in 0..BASELINE_COLUMNS {
        add_axis(table, rows, &sums, axis, share);
    }
}
