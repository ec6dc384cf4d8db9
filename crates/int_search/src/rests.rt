//! What the later entries of a vector and the constant give at an integer.
ghost use Rattle.std.specs.Prelude.{◌≡◌, ◌+◌, ◌^◌, ◌<◌, ◌≤◌, ◌*ℤ◌, unsigned_abs};
ghost use Rattle.int_search.specs.Suffixes.{rest};
ghost use Rattle.integer_form.specs.Forms.{integers_of};
ghost use Rattle.int_search.specs.Vectors.{IsSmall, suffix};
ghost use Rattle.int_search.specs.SearchedForm.{search_form};

use integer_form::Form;
use quadratic_form::{BASELINE_COLUMNS, MOST_INTEGERS};
use whole_math::product;

/// Σ l·z over the integers after integer i, and the constant's l.
pub(crate) fn later_part(form: &Form, i: usize, z: &[i64; MOST_INTEGERS]) -> i128
    requires place { i < integers_of form.now }
    requires small { IsSmall z.now }
    ensures value { result
        ≡ rest (search_form form.now) (suffix z.now (i + 1) (integers_of form.now)) }
    ensures size { unsigned_abs result ≤ 2 ^ 88 }
{
    let integers = form.columns - BASELINE_COLUMNS - 1;
    let column = BASELINE_COLUMNS + i;
    let mut sum = 0;
    for k in i + 1..integers {
        sum += product::<52, 30>(form.l.at(BASELINE_COLUMNS + k, column), z[k]);
    }
    sum + form.l.at(BASELINE_COLUMNS + integers, column) as i128
}
