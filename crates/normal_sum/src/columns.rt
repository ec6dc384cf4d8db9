//! The columns in which a row has a coefficient: at most five, so a product adds to at most nine entries on and above the
//! diagonal of the matrix after the columns of the baseline.
ghost use Rattle.std.specs.Prelude.{◌≡◌, ℕ, ◌+◌, ◌<◌, ◌≤◌, ◌^◌, ◌+ℤ◌, pos, unsigned_abs, slice_index_or};
ghost use Rattle.quadratic_form.specs.declared.sizes.TheConstants.{MOST_INTEGERS};
ghost use Rattle.normal_sum.specs.Columns.{AreColumnsOf};

use arrayvec::ArrayVec;
use quadratic_form::{BASELINE_COLUMNS, MOST_COLUMNS};

/// The columns of the baseline, and those of the integers and of the constant in which values aren't 0.
pub(crate) fn used_columns(
    values: &[i64; MOST_COLUMNS],
    integers: usize,
) -> ArrayVec<usize, MOST_COLUMNS>
    requires few { integers ≤ MOST_INTEGERS }
    requires beyond { (j : ℕ) → BASELINE_COLUMNS + integers < j → j < MOST_COLUMNS →
        slice_index_or values.now j (pos 0) ≡ pos 0 }
    ensures { AreColumnsOf values.now result.items }
{
    let mut used = ArrayVec::new();
    used.push(0);
    used.push(1);
    used.push(2);
    for j in BASELINE_COLUMNS..BASELINE_COLUMNS + integers + 1 {
        if values[j] != 0 {
            used.push(j);
        }
    }
    used
}

/// a + b
fn plus(a: i64, b: i64) -> i64
    requires a_size { unsigned_abs a ≤ 2 ^ 40 }
    requires b_size { unsigned_abs b ≤ 2 ^ 40 }
    ensures { result ≡ a +ℤ b }
{
    a + b
}

/// Adds values to a total, column by column.
#[inline(always)]
pub(crate) fn add_values(
    total: &mut [i64; MOST_COLUMNS],
    values: &[i64; MOST_COLUMNS],
    columns: &[usize],
)
    requires columns { AreColumnsOf values.now columns.now }
    requires total_size { (j : ℕ) → j < MOST_COLUMNS →
        unsigned_abs (slice_index_or total.old j (pos 0)) ≤ 2 ^ 40 }
    requires value_size { (j : ℕ) → j < MOST_COLUMNS →
        unsigned_abs (slice_index_or values.now j (pos 0)) ≤ 2 ^ 40 }
    ensures { (j : ℕ) → j < MOST_COLUMNS → slice_index_or total.new j (pos 0)
        ≡ slice_index_or total.old j (pos 0) +ℤ slice_index_or values.now j (pos 0) }
{
    for column in columns {
        total[*column] = plus(total[*column], values[*column]);
    }
}
