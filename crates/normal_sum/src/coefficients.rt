//! The coefficients of a row in the columns of the matrix: three of the baseline, the integers, the constant.
ghost use Rattle.std.specs.Prelude.{◌≡◌, ◌≢◌, ℕ, ◌+◌, ◌^◌, ◌<◌, ◌≤◌, List, pos, length, unsigned_abs, replicate, slice_index_or, Option, IfSome};
ghost use Rattle.obs_rows.specs.declared.arcs.Arc.{Arc};
ghost use Rattle.quadratic_form.specs.declared.sizes.TheConstants.{BASELINE_COLUMNS, MOST_COLUMNS};
ghost use Rattle.obs_rows.specs.Signals.{cycle};
ghost use Rattle.obs_rows.specs.Integers.{integer_count, integer_place};
ghost use Rattle.obs_rows.specs.SignalGroups.{signal_row};
ghost use Rattle.quadratic_form.specs.MatrixEntries.{coefficient};
ghost use Rattle.normal_sum.specs.Places.{put_at};

use obs_rows::{ROW_EXPONENT, Row, SIGNALS, WAVELENGTHS};
use quadratic_form::{BASELINE_COLUMNS, MOST_COLUMNS, MOST_INTEGERS};

/// The wavelength of a signal in the unit of the rows.
fn cycle_of(signal: usize) -> i64
    requires { signal < SIGNALS }
    ensures value { result ≡ cycle signal }
    ensures size { unsigned_abs result ≤ 2 ^ 25 }
{
    WAVELENGTHS[signal] * (1 << ROW_EXPONENT)
}

/// Writes the coefficient of an integer, if there is one.
fn put_integer(values: &mut [i64; MOST_COLUMNS], place: Option<usize>, value: i64)
    requires { IfSome place (λ i. i < MOST_INTEGERS) }
    ensures value { values.new ≡ put_at values.old place value }
    ensures room { length values.new ≡ MOST_COLUMNS }
{
    if let Some(i) = place {
        values[BASELINE_COLUMNS + i] = value;
    }
}

/// Writes the coefficients of a row as one signal sees it over zeros, with its integer at this place.
pub(crate) fn put_coefficients(
    values: &mut [i64; MOST_COLUMNS],
    row: &Row,
    signal: usize,
    place: Option<usize>,
    integers: usize,
)
    requires zeros { values.old ≡ replicate MOST_COLUMNS (pos 0) }
    requires signal { signal < SIGNALS }
    requires place { IfSome place (λ i. i < integers) }
    requires few { integers ≤ MOST_INTEGERS }
    ensures entries { (arcs : List Arc) (ss : List ℕ) → place
        ≡ integer_place arcs ss row.now.arc signal → integers ≡ integer_count arcs ss → (j : ℕ) →
        slice_index_or values.new j (pos 0) ≡ coefficient (signal_row arcs ss signal row.now) j }
    ensures size { (j : ℕ) → unsigned_abs (slice_index_or values.new j (pos 0)) ≤ 2 ^ 34 }
    ensures others { (j : ℕ) → BASELINE_COLUMNS ≤ j → j ≢ BASELINE_COLUMNS + integers →
        IfSome place (λ i. j ≢ BASELINE_COLUMNS + i) → slice_index_or values.new j (pos 0) ≡ pos 0 }
{
    values[0] = -row.u[0];
    values[1] = -row.u[1];
    values[2] = -row.u[2];
    put_integer(values, place, -cycle_of(signal));
    values[BASELINE_COLUMNS + integers] = row.y[signal];
}

/// Writes 0 into the columns of a row again, with its integer at this place.
pub(crate) fn clear_coefficients(
    values: &mut [i64; MOST_COLUMNS],
    place: Option<usize>,
    integers: usize,
)
    requires place { IfSome place (λ i. i < integers) }
    requires few { integers ≤ MOST_INTEGERS }
    requires others { (j : ℕ) → BASELINE_COLUMNS ≤ j → j ≢ BASELINE_COLUMNS + integers →
        IfSome place (λ i. j ≢ BASELINE_COLUMNS + i) → slice_index_or values.old j (pos 0) ≡ pos 0 }
    ensures zeros { values.new ≡ replicate MOST_COLUMNS (pos 0) }
{
    values[0] = 0;
    values[1] = 0;
    values[2] = 0;
    put_integer(values, place, 0);
    values[BASELINE_COLUMNS + integers] = 0;
}
