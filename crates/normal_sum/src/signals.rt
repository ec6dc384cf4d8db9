//! What the rows of a pair add to the normal matrix after the columns of the baseline, as one signal sees them.
ghost use Rattle.std.specs.Prelude.{◌≡◌, ◌≢◌, ◌⊎◌, ℕ, ◌+◌, ◌*◌, ◌/◌, ◌^◌, ◌<◌, ◌≤◌, ◌+ℤ◌, ◌*ℤ◌, ◌≤ℤ◌, List, pos, length, map, replicate, unsigned_abs, slice_index_or, IfSome, None};
ghost use Rattle.quadratic_form.specs.MatrixEntries.{coefficient, coefficient_sum, product_sum, group_entry};
ghost use Rattle.obs_rows.specs.declared.arcs.Arc.{Arc};
ghost use Rattle.quadratic_form.specs.declared.sizes.TheConstants.{BASELINE_COLUMNS, MOST_COLUMNS, MOST_INTEGERS};
ghost use Rattle.quadratic_form.specs.Tables.{entry};
ghost use Rattle.obs_rows.specs.Signals.{weight};
ghost use Rattle.obs_rows.specs.Integers.{integer_count, integer_place};
ghost use Rattle.obs_rows.specs.SumOfSquares.{share};
ghost use Rattle.obs_rows.specs.SignalGroups.{signal_row, signal_group};
ghost use Rattle.obs_rows.specs.declared.limits.TheConstants.{MOST_PAIRS};
ghost use Rattle.normal_sum.specs.Columns.{AreColumnsOf};
ghost use Rattle.normal_sum.specs.Places.{place_from, ArePlaces, ArePlacesFrom, SeesNone};

use crate::coefficients::{clear_coefficients, put_coefficients};
use crate::columns::{add_values, used_columns};
use crate::observations::add_observations;
use crate::places::{MOST_ROWS, places_of};
use crate::products::add_product;
use obs_rows::{PHASES, PairRows, Row, SIGNALS, WEIGHTS};
use quadratic_form::{BASELINE_COLUMNS, MOST_COLUMNS, MOST_INTEGERS, NormalTable};

/// 360360 times a weight is whole over each number of rows from 1 to 15.
const COMMON_MULTIPLE: i64 = 360_360;

/// 360360 times the weight of a signal, over this number of rows.
pub fn share(rows: usize, signal: usize) -> i64
    requires some { 1 ≤ rows }
    requires few { rows ≤ MOST_ROWS }
    requires signal { signal < SIGNALS }
    ensures value { result ≡ share rows signal }
    ensures from { pos 0 ≤ℤ result }
    ensures to { (result *ℤ pos rows) ≤ℤ pos (2 ^ 32) }
    ensures size { unsigned_abs result ≤ 2 ^ 32 }
{
    COMMON_MULTIPLE / rows as i64 * WEIGHTS[signal]
}

/// The share with its sign turned.
pub(crate) fn turned_share(rows: usize, signal: usize) -> i64
    requires some { 1 ≤ rows }
    requires few { rows ≤ MOST_ROWS }
    requires signal { signal < SIGNALS }
    ensures { pos 0 ≡ result +ℤ share rows signal }
{
    -share(rows, signal)
}

/// Adds the weighted products of values to a table, after the columns of the baseline, and the values to a total.
#[inline(always)]
fn add_in(
    table: &mut NormalTable,
    total: &mut [i64; MOST_COLUMNS],
    values: &[i64; MOST_COLUMNS],
    columns: &[usize],
    weight: i64,
)
    requires columns { AreColumnsOf values.now columns.now }
    requires weight_size { unsigned_abs weight ≤ 2 ^ 32 }
    requires value_size { (j : ℕ) → unsigned_abs (slice_index_or values.now j (pos 0)) ≤ 2 ^ 34 }
    requires entry_size { (i j : ℕ) → i ≤ j → BASELINE_COLUMNS ≤ j → j < MOST_COLUMNS →
        unsigned_abs (entry table.old i j) ≤ 2 ^ 120 }
    requires total_size { (j : ℕ) → j < MOST_COLUMNS →
        unsigned_abs (slice_index_or total.old j (pos 0)) ≤ 2 ^ 40 }
    ensures products { (i j : ℕ) → i ≤ j → BASELINE_COLUMNS ≤ j → j < MOST_COLUMNS →
        entry table.new i j ≡ entry table.old i j +ℤ ((weight
        *ℤ slice_index_or values.now i (pos 0)) *ℤ slice_index_or values.now j (pos 0)) }
    ensures sums { (j : ℕ) → j < MOST_COLUMNS → slice_index_or total.new j (pos 0)
        ≡ slice_index_or total.old j (pos 0) +ℤ slice_index_or values.now j (pos 0) }
    ensures table_size { (i j : ℕ) → i ≤ j → BASELINE_COLUMNS ≤ j → j < MOST_COLUMNS →
        unsigned_abs (entry table.new i j) ≤ unsigned_abs (entry table.old i j) + 2 ^ 100 }
    ensures before { (i j : ℕ) → (j < i) ⊎ (j < BASELINE_COLUMNS) →
        entry table.new i j ≡ entry table.old i j }
    ensures sum_size { (j : ℕ) → j < MOST_COLUMNS →
        unsigned_abs (slice_index_or total.new j (pos 0))
        ≤ unsigned_abs (slice_index_or total.old j (pos 0)) + 2 ^ 34 }
{
    add_product(table, values, columns, weight);
    add_values(total, values, columns);
}

/// Adds the weighted products of a row's values to a table, and the values to a total: in the columns of the baseline, of
/// the integer at this place and of the constant.
fn add_used(
    table: &mut NormalTable,
    total: &mut [i64; MOST_COLUMNS],
    values: &[i64; MOST_COLUMNS],
    place: Option<usize>,
    integers: usize,
    weight: i64,
)
    requires place { IfSome place (λ i. i < integers) }
    requires few { integers ≤ MOST_INTEGERS }
    requires others { (j : ℕ) → BASELINE_COLUMNS ≤ j → j ≢ BASELINE_COLUMNS + integers →
        IfSome place (λ i. j ≢ BASELINE_COLUMNS + i) → slice_index_or values.now j (pos 0) ≡ pos 0 }
    requires weight_size { unsigned_abs weight ≤ 2 ^ 32 }
    requires value_size { (j : ℕ) → unsigned_abs (slice_index_or values.now j (pos 0)) ≤ 2 ^ 34 }
    requires entry_size { (i j : ℕ) → i ≤ j → BASELINE_COLUMNS ≤ j → j < MOST_COLUMNS →
        unsigned_abs (entry table.old i j) ≤ 2 ^ 120 }
    requires total_size { (j : ℕ) → j < MOST_COLUMNS →
        unsigned_abs (slice_index_or total.old j (pos 0)) ≤ 2 ^ 40 }
    ensures products { (i j : ℕ) → i ≤ j → BASELINE_COLUMNS ≤ j → j < MOST_COLUMNS →
        entry table.new i j ≡ entry table.old i j +ℤ ((weight
        *ℤ slice_index_or values.now i (pos 0)) *ℤ slice_index_or values.now j (pos 0)) }
    ensures sums { (j : ℕ) → j < MOST_COLUMNS → slice_index_or total.new j (pos 0)
        ≡ slice_index_or total.old j (pos 0) +ℤ slice_index_or values.now j (pos 0) }
    ensures table_size { (i j : ℕ) → i ≤ j → BASELINE_COLUMNS ≤ j → j < MOST_COLUMNS →
        unsigned_abs (entry table.new i j) ≤ unsigned_abs (entry table.old i j) + 2 ^ 100 }
    ensures before { (i j : ℕ) → (j < i) ⊎ (j < BASELINE_COLUMNS) →
        entry table.new i j ≡ entry table.old i j }
    ensures sum_size { (j : ℕ) → j < MOST_COLUMNS →
        unsigned_abs (slice_index_or total.new j (pos 0))
        ≤ unsigned_abs (slice_index_or total.old j (pos 0)) + 2 ^ 34 }
{
    let last = BASELINE_COLUMNS + integers;
    match place {
        Some(i) => {
            let columns = [0, 1, 2, BASELINE_COLUMNS + i, last];
            add_in(table, total, values, &columns, weight);
        }
        None => {
            let columns = [0, 1, 2, last];
            add_in(table, total, values, &columns, weight);
        }
    }
}

/// Adds the weighted products of a row's coefficients to a table, and the coefficients to a total. `values` lends the
/// room for the coefficients, and is zeros again after the call: to clear it whole for each row costs more than these writes.
fn add_row(
    table: &mut NormalTable,
    total: &mut [i64; MOST_COLUMNS],
    values: &mut [i64; MOST_COLUMNS],
    row: &Row,
    signal: usize,
    place: Option<usize>,
    integers: usize,
)
    requires zeros { values.old ≡ replicate MOST_COLUMNS (pos 0) }
    requires signal { signal < SIGNALS }
    requires place { IfSome place (λ i. i < integers) }
    requires few { integers ≤ MOST_INTEGERS }
    requires entry_size { (i j : ℕ) → i ≤ j → BASELINE_COLUMNS ≤ j → j < MOST_COLUMNS →
        unsigned_abs (entry table.old i j) ≤ 2 ^ 120 }
    requires total_size { (j : ℕ) → j < MOST_COLUMNS →
        unsigned_abs (slice_index_or total.old j (pos 0)) ≤ 2 ^ 40 }
    ensures products { (arcs : List Arc) (ss : List ℕ) → place
        ≡ integer_place arcs ss row.now.arc signal → integers ≡ integer_count arcs ss → (i j : ℕ) →
        i ≤ j → BASELINE_COLUMNS ≤ j → j < MOST_COLUMNS → entry table.new i j ≡ entry table.old i j
        +ℤ (((pos 360360 *ℤ weight signal) *ℤ coefficient (signal_row arcs ss signal row.now) i)
        *ℤ coefficient (signal_row arcs ss signal row.now) j) }
    ensures sums { (arcs : List Arc) (ss : List ℕ) →
        place ≡ integer_place arcs ss row.now.arc signal → integers ≡ integer_count arcs ss →
        (j : ℕ) → j < MOST_COLUMNS → slice_index_or total.new j (pos 0)
        ≡ slice_index_or total.old j (pos 0) +ℤ coefficient (signal_row arcs ss signal row.now) j }
    ensures table_size { (i j : ℕ) → i ≤ j → BASELINE_COLUMNS ≤ j → j < MOST_COLUMNS →
        unsigned_abs (entry table.new i j) ≤ unsigned_abs (entry table.old i j) + 2 ^ 100 }
    ensures before { (i j : ℕ) → (j < i) ⊎ (j < BASELINE_COLUMNS) →
        entry table.new i j ≡ entry table.old i j }
    ensures sum_size { (j : ℕ) → j < MOST_COLUMNS →
        unsigned_abs (slice_index_or total.new j (pos 0))
        ≤ unsigned_abs (slice_index_or total.old j (pos 0)) + 2 ^ 34 }
    ensures beyond { (j : ℕ) → BASELINE_COLUMNS + integers < j → j < MOST_COLUMNS →
        slice_index_or total.new j (pos 0) ≡ slice_index_or total.old j (pos 0) }
    ensures zeros { values.new ≡ replicate MOST_COLUMNS (pos 0) }
{
    put_coefficients(values, row, signal, place, integers);
    add_used(table, total, values, place, integers, share(1, signal));
    clear_coefficients(values, place, integers);
}

/// Adds the weighted products of the coefficients of each row, and gives the sum of the coefficients.
fn add_rows(
    table: &mut NormalTable,
    rows: &[Row],
    signal: usize,
    places: &[Option<usize>; MOST_ROWS],
    integers: usize,
) -> [i64; MOST_COLUMNS]
    requires few_rows { length rows.now ≤ MOST_ROWS }
    requires signal { signal < SIGNALS }
    requires places { (k : ℕ) → IfSome (slice_index_or places.now k None) (λ i. i < integers) }
    requires few { integers ≤ MOST_INTEGERS }
    requires entry_size { (i j : ℕ) → i ≤ j → BASELINE_COLUMNS ≤ j → j < MOST_COLUMNS →
        unsigned_abs (entry table.old i j) ≤ MOST_PAIRS * 2 ^ 108 }
    ensures products { (arcs : List Arc) (ss : List ℕ) →
        ArePlaces arcs ss signal rows.now places.now → integers ≡ integer_count arcs ss →
        (i j : ℕ) → i ≤ j → BASELINE_COLUMNS ≤ j → j < MOST_COLUMNS →
        entry table.new i j ≡ entry table.old i j +ℤ ((pos 360360 *ℤ weight signal)
        *ℤ product_sum (map (signal_row arcs ss signal) rows.now) i j) }
    ensures sums { (arcs : List Arc) (ss : List ℕ) → ArePlaces arcs ss signal rows.now places.now →
        integers ≡ integer_count arcs ss → (j : ℕ) → j < MOST_COLUMNS → slice_index_or result j
        (pos 0) ≡ coefficient_sum (map (signal_row arcs ss signal) rows.now) j }
    ensures table_size { (i j : ℕ) → i ≤ j → BASELINE_COLUMNS ≤ j → j < MOST_COLUMNS →
        unsigned_abs (entry table.new i j)
        ≤ unsigned_abs (entry table.old i j) + (length rows.now * 2 ^ 100) }
    ensures before { (i j : ℕ) → (j < i) ⊎ (j < BASELINE_COLUMNS) →
        entry table.new i j ≡ entry table.old i j }
    ensures sum_size { (j : ℕ) → j < MOST_COLUMNS →
        unsigned_abs (slice_index_or result j (pos 0)) ≤ length rows.now * 2 ^ 34 }
    ensures beyond { (j : ℕ) → BASELINE_COLUMNS + integers < j → j < MOST_COLUMNS →
        slice_index_or result j (pos 0) ≡ pos 0 }
{
    let mut total = [0; MOST_COLUMNS];
    let mut values = [0; MOST_COLUMNS];
    for k in 0..rows.len() {
        add_row(
            table,
            &mut total,
            &mut values,
            &rows[k],
            signal,
            places[k],
            integers,
        );
    }
    total
}

/// Adds the entries of a pair's rows as a phase sees them, after the columns of the baseline.
fn add_phase(
    table: &mut NormalTable,
    pair: &PairRows,
    signal: usize,
    places: &[Option<usize>; MOST_ROWS],
    integers: usize,
)
    requires signal { signal < SIGNALS }
    requires places { (k : ℕ) → IfSome (slice_index_or places.now k None) (λ i. i < integers) }
    requires few { integers ≤ MOST_INTEGERS }
    requires entry_size { (i j : ℕ) → i ≤ j → BASELINE_COLUMNS ≤ j → j < MOST_COLUMNS →
        unsigned_abs (entry table.old i j) ≤ MOST_PAIRS * 2 ^ 108 }
    ensures added { (arcs : List Arc) (ss : List ℕ) →
        ArePlaces arcs ss signal pair.now.rows places.now → integers ≡ integer_count arcs ss →
        (i j : ℕ) → i ≤ j → BASELINE_COLUMNS ≤ j → j < MOST_COLUMNS → entry table.new i j
        ≡ entry table.old i j +ℤ group_entry (signal_group arcs ss pair.now signal) i j }
    ensures size { (i j : ℕ) → i ≤ j → BASELINE_COLUMNS ≤ j → j < MOST_COLUMNS →
        unsigned_abs (entry table.new i j) ≤ unsigned_abs (entry table.old i j) + 2 ^ 105 }
    ensures before { (i j : ℕ) → (j < i) ⊎ (j < BASELINE_COLUMNS) →
        entry table.new i j ≡ entry table.old i j }
{
    let rows = pair.rows.as_slice();
    let total = add_rows(table, rows, signal, places, integers);
    let columns = used_columns(&total, integers);
    let share = turned_share(rows.len(), signal);
    add_product(table, &total, columns.as_slice(), share);
}

/// Adds the entries of a pair's rows as a code sees them, after the columns of the baseline. It sees no integer.
fn add_code(table: &mut NormalTable, pair: &PairRows, signal: usize, integers: usize)
    requires signal { signal < SIGNALS }
    requires few { integers ≤ MOST_INTEGERS }
    requires entry_size { (i j : ℕ) → i ≤ j → BASELINE_COLUMNS ≤ j → j < MOST_COLUMNS →
        unsigned_abs (entry table.old i j) ≤ MOST_PAIRS * 2 ^ 108 }
    ensures added { (arcs : List Arc) (ss : List ℕ) → SeesNone arcs ss signal pair.now.rows →
        integers ≡ integer_count arcs ss → (i j : ℕ) → i ≤ j → BASELINE_COLUMNS ≤ j →
        j < MOST_COLUMNS → entry table.new i j
        ≡ entry table.old i j +ℤ group_entry (signal_group arcs ss pair.now signal) i j }
    ensures size { (i j : ℕ) → i ≤ j → BASELINE_COLUMNS ≤ j → j < MOST_COLUMNS →
        unsigned_abs (entry table.new i j) ≤ unsigned_abs (entry table.old i j) + 2 ^ 105 }
    ensures before { (i j : ℕ) → (j < i) ⊎ (j < BASELINE_COLUMNS) →
        entry table.new i j ≡ entry table.old i j }
{
    add_observations(table, pair.rows.as_slice(), signal, integers);
}

/// Adds the entries of a pair's rows as one signal sees them, after the columns of the baseline: the arcs of the rows have
/// their first integers at `firsts`, and the signal has its place among the phases, if it is one.
pub(crate) fn add_signal(
    table: &mut NormalTable,
    pair: &PairRows,
    signal: usize,
    firsts: &[Option<usize>; MOST_ROWS],
    phase: Option<usize>,
    integers: usize,
)
    requires signal { signal < SIGNALS }
    requires first { (k : ℕ) → IfSome (slice_index_or firsts.now k None) (λ i. i ≤ MOST_INTEGERS) }
    requires phase { IfSome phase (λ i. i < PHASES) }
    requires places { (k : ℕ) →
        IfSome (place_from (slice_index_or firsts.now k None) phase) (λ i. i < integers) }
    requires few { integers ≤ MOST_INTEGERS }
    requires entry_size { (i j : ℕ) → i ≤ j → BASELINE_COLUMNS ≤ j → j < MOST_COLUMNS →
        unsigned_abs (entry table.old i j) ≤ MOST_PAIRS * 2 ^ 108 }
    ensures added { (arcs : List Arc) (ss : List ℕ) →
        ArePlacesFrom arcs ss signal pair.now.rows firsts.now phase →
        integers ≡ integer_count arcs ss → (i j : ℕ) → i ≤ j → BASELINE_COLUMNS ≤ j →
        j < MOST_COLUMNS → entry table.new i j
        ≡ entry table.old i j +ℤ group_entry (signal_group arcs ss pair.now signal) i j }
    ensures size { (i j : ℕ) → i ≤ j → BASELINE_COLUMNS ≤ j → j < MOST_COLUMNS →
        unsigned_abs (entry table.new i j) ≤ unsigned_abs (entry table.old i j) + 2 ^ 105 }
    ensures before { (i j : ℕ) → (j < i) ⊎ (j < BASELINE_COLUMNS) →
        entry table.new i j ≡ entry table.old i j }
{
    match phase {
        None => add_code(table, pair, signal, integers),
        Some(_) => {
            let places = places_of(firsts, phase);
            add_phase(table, pair, signal, &places, integers);
        }
    }
}
