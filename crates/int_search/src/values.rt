//! The form's value at a vector in an array.
ghost use Rattle.std.specs.Prelude.{◌≡◌};
ghost use Rattle.integer_form.specs.Forms.{integers_of, value_of};
ghost use Rattle.int_search.specs.Vectors.{IsSmall, suffix};

use integer_form::Form;
use quadratic_form::{BASELINE_COLUMNS, MOST_INTEGERS};

/// The value at the vector of the first entries of z, as many as there are integers.
pub(crate) fn value_at(form: &Form, z: &[i64; MOST_INTEGERS]) -> i128
    requires { IsSmall z.now }
    ensures { result ≡ value_of form.now (suffix z.now 0 (integers_of form.now)) }
{
    form.value(&z[..form.columns - BASELINE_COLUMNS - 1])
}
