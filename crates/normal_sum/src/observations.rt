//! What the rows of a pair add to the entries of the constant with itself and with the columns of the baseline, as one
//! signal sees them: by sums over the rows, so that a table is written once for all of them.
ghost use Rattle.std.specs.Prelude.{◌≡◌, ◌≢◌, ◌⊎◌, ℕ, ◌+◌, ◌*◌, ◌^◌, ◌<◌, ◌≤◌, ◌+ℤ◌, ◌-ℤ◌, ◌*ℤ◌, pos, length, unsigned_abs};
ghost use Rattle.quadratic_form.specs.declared.sizes.TheConstants.{BASELINE_COLUMNS, MOST_INTEGERS};
ghost use Rattle.quadratic_form.specs.Tables.{entry};
ghost use Rattle.obs_rows.specs.Data.{number_at};
ghost use Rattle.obs_rows.specs.SumOfSquares.{share};
ghost use Rattle.normal_sum.specs.Observations.{observation_sum, observation_products, observation_squares, axis_spread, observation_spread};

use crate::directions::direction_sum;
use crate::places::MOST_ROWS;
use crate::products::add_to_entry;
use crate::signals::turned_share;
use obs_rows::{Row, SIGNALS};
use quadratic_form::{BASELINE_COLUMNS, NormalTable};
use whole_math::product;

/// The sum of the observations of the rows.
fn observation_sum(rows: &[Row], signal: usize) -> i64
    requires few_rows { length rows.now ≤ MOST_ROWS }
    requires signal { signal < SIGNALS }
    ensures value { result ≡ observation_sum rows.now signal }
    ensures size { unsigned_abs result ≤ length rows.now * 2 ^ 34 }
{
    let mut sum = 0;
    for row in rows {
        sum += row.y[signal];
    }
    sum
}

/// u_i · y
fn observation_product(row: &Row, axis: usize, signal: usize) -> i128
    requires axis { axis < BASELINE_COLUMNS }
    requires signal { signal < SIGNALS }
    ensures value { result ≡ number_at row.now.u axis *ℤ number_at row.now.y signal }
    ensures size { unsigned_abs result ≤ 2 ^ 68 }
{
    product::<34, 34>(row.u[axis], row.y[signal])
}

/// The sum of the products of the rows' directions along an axis and their observations.
fn observation_products(rows: &[Row], axis: usize, signal: usize) -> i128
    requires few_rows { length rows.now ≤ MOST_ROWS }
    requires axis { axis < BASELINE_COLUMNS }
    requires signal { signal < SIGNALS }
    ensures value { result ≡ observation_products rows.now axis signal }
    ensures size { unsigned_abs result ≤ length rows.now * 2 ^ 68 }
{
    let mut sum = 0;
    for row in rows {
        sum += observation_product(row, axis, signal);
    }
    sum
}

/// y²
fn observation_square(row: &Row, signal: usize) -> i128
    requires signal { signal < SIGNALS }
    ensures value { result ≡ number_at row.now.y signal *ℤ number_at row.now.y signal }
    ensures size { unsigned_abs result ≤ 2 ^ 68 }
{
    product::<34, 34>(row.y[signal], row.y[signal])
}

/// The sum of the squares of the observations of the rows.
fn observation_squares(rows: &[Row], signal: usize) -> i128
    requires few_rows { length rows.now ≤ MOST_ROWS }
    requires signal { signal < SIGNALS }
    ensures value { result ≡ observation_squares rows.now signal }
    ensures size { unsigned_abs result ≤ length rows.now * 2 ^ 68 }
{
    let mut sum = 0;
    for row in rows {
        sum += observation_square(row, signal);
    }
    sum
}

/// rows · products - first · second
fn spread(rows: usize, products: i128, first: i64, second: i64) -> i128
    requires few_rows { rows ≤ MOST_ROWS }
    requires products_size { unsigned_abs products ≤ rows * 2 ^ 68 }
    requires first_size { unsigned_abs first ≤ rows * 2 ^ 34 }
    requires second_size { unsigned_abs second ≤ rows * 2 ^ 34 }
    ensures value { result ≡ (pos rows *ℤ products) -ℤ (first *ℤ second) }
    ensures size { unsigned_abs result ≤ (rows * rows) * 2 ^ 69 }
{
    rows as i128 * products - first as i128 * second as i128
}

/// n Σ u_i y - Σ u_i Σ y over the n rows, whose observations have this sum.
fn axis_spread(rows: &[Row], axis: usize, signal: usize, sum: i64) -> i128
    requires few_rows { length rows.now ≤ MOST_ROWS }
    requires axis { axis < BASELINE_COLUMNS }
    requires signal { signal < SIGNALS }
    requires sum { sum ≡ observation_sum rows.now signal }
    requires sum_size { unsigned_abs sum ≤ length rows.now * 2 ^ 34 }
    ensures value { result ≡ axis_spread rows.now axis signal }
    ensures size { unsigned_abs result ≤ (length rows.now * length rows.now) * 2 ^ 69 }
{
    let products = observation_products(rows, axis, signal);
    spread(rows.len(), products, direction_sum(rows, axis), sum)
}

/// (Σ y)² - n Σ y² over the n rows, whose observations have this sum.
fn turned_spread(rows: &[Row], signal: usize, sum: i64) -> i128
    requires few_rows { length rows.now ≤ MOST_ROWS }
    requires signal { signal < SIGNALS }
    requires sum { sum ≡ observation_sum rows.now signal }
    requires sum_size { unsigned_abs sum ≤ length rows.now * 2 ^ 34 }
    ensures value { pos 0 ≡ result +ℤ observation_spread rows.now signal }
    ensures size { unsigned_abs result ≤ (length rows.now * length rows.now) * 2 ^ 69 }
{
    -spread(rows.len(), observation_squares(rows, signal), sum, sum)
}

/// Adds the entry of the constant and of one axis.
fn add_axis(
    table: &mut NormalTable,
    rows: &[Row],
    axis: usize,
    signal: usize,
    integers: usize,
    sum: i64,
)
    requires some { 1 ≤ length rows.now }
    requires few_rows { length rows.now ≤ MOST_ROWS }
    requires axis { axis < BASELINE_COLUMNS }
    requires signal { signal < SIGNALS }
    requires few { integers ≤ MOST_INTEGERS }
    requires sum { sum ≡ observation_sum rows.now signal }
    requires sum_size { unsigned_abs sum ≤ length rows.now * 2 ^ 34 }
    requires entry_size { unsigned_abs (entry table.old axis (BASELINE_COLUMNS + integers))
        ≤ 2 ^ 120 }
    ensures there { entry table.new axis (BASELINE_COLUMNS + integers)
        ≡ entry table.old axis (BASELINE_COLUMNS + integers)
        -ℤ (share (length rows.now) signal *ℤ axis_spread rows.now axis signal) }
    ensures size { unsigned_abs (entry table.new axis (BASELINE_COLUMNS + integers))
        ≤ unsigned_abs (entry table.old axis (BASELINE_COLUMNS + integers)) + 2 ^ 105 }
    ensures others { (i j : ℕ) → (i ≢ axis) ⊎ (j ≢ BASELINE_COLUMNS + integers) →
        entry table.new i j ≡ entry table.old i j }
{
    let spread = axis_spread(rows, axis, signal, sum);
    let share = turned_share(rows.len(), signal);
    add_to_entry(table, axis, BASELINE_COLUMNS + integers, spread, share);
}

/// Adds the entry of the constant with itself.
fn add_square(table: &mut NormalTable, rows: &[Row], signal: usize, integers: usize, sum: i64)
    requires some { 1 ≤ length rows.now }
    requires few_rows { length rows.now ≤ MOST_ROWS }
    requires signal { signal < SIGNALS }
    requires few { integers ≤ MOST_INTEGERS }
    requires sum { sum ≡ observation_sum rows.now signal }
    requires sum_size { unsigned_abs sum ≤ length rows.now * 2 ^ 34 }
    requires entry_size { unsigned_abs (entry table.old
        (BASELINE_COLUMNS + integers) (BASELINE_COLUMNS + integers)) ≤ 2 ^ 120 }
    ensures there { entry table.new (BASELINE_COLUMNS + integers) (BASELINE_COLUMNS + integers)
        ≡ entry table.old (BASELINE_COLUMNS + integers) (BASELINE_COLUMNS + integers)
        +ℤ (share (length rows.now) signal *ℤ observation_spread rows.now signal) }
    ensures size { unsigned_abs (entry table.new
        (BASELINE_COLUMNS + integers) (BASELINE_COLUMNS + integers)) ≤ unsigned_abs (entry table.old
        (BASELINE_COLUMNS + integers) (BASELINE_COLUMNS + integers)) + 2 ^ 105 }
    ensures others { (i j : ℕ) → (i ≢ BASELINE_COLUMNS + integers)
        ⊎ (j ≢ BASELINE_COLUMNS + integers) → entry table.new i j ≡ entry table.old i j }
{
    let spread = turned_spread(rows, signal, sum);
    let share = turned_share(rows.len(), signal);
    let last = BASELINE_COLUMNS + integers;
    add_to_entry(table, last, last, spread, share);
}

/// Adds the entries of the constant with itself and with the columns of the baseline.
pub(crate) fn add_observations(
    table: &mut NormalTable,
    rows: &[Row],
    signal: usize,
    integers: usize,
)
    requires some { 1 ≤ length rows.now }
    requires few_rows { length rows.now ≤ MOST_ROWS }
    requires signal { signal < SIGNALS }
    requires few { integers ≤ MOST_INTEGERS }
    requires axis_size { (i : ℕ) → i < BASELINE_COLUMNS →
        unsigned_abs (entry table.old i (BASELINE_COLUMNS + integers)) ≤ 2 ^ 120 }
    requires square_size { unsigned_abs (entry table.old
        (BASELINE_COLUMNS + integers) (BASELINE_COLUMNS + integers)) ≤ 2 ^ 120 }
    ensures axes { (i : ℕ) → i < BASELINE_COLUMNS → entry table.new i (BASELINE_COLUMNS + integers)
        ≡ entry table.old i (BASELINE_COLUMNS + integers)
        -ℤ (share (length rows.now) signal *ℤ axis_spread rows.now i signal) }
    ensures square { entry table.new (BASELINE_COLUMNS + integers) (BASELINE_COLUMNS + integers)
        ≡ entry table.old (BASELINE_COLUMNS + integers) (BASELINE_COLUMNS + integers)
        +ℤ (share (length rows.now) signal *ℤ observation_spread rows.now signal) }
    ensures size { (i j : ℕ) →
        unsigned_abs (entry table.new i j) ≤ unsigned_abs (entry table.old i j) + 2 ^ 105 }
    ensures others { (i j : ℕ) → (j ≢ BASELINE_COLUMNS + integers) ⊎ ((BASELINE_COLUMNS ≤ i)
        × (i ≢ BASELINE_COLUMNS + integers)) → entry table.new i j ≡ entry table.old i j }
{
    let sum = observation_sum(rows, signal);
    for axis in 0..BASELINE_COLUMNS {
        add_axis(table, rows, axis, signal, integers, sum);
    }
    add_square(table, rows, signal, integers, sum);
}
