//! The rounded point and its neighbour.
ghost use Rattle.std.specs.Prelude.{◌≡◌, ◌<◌, ◌≤◌, ◌^◌, get_or, pos, ◌+ℤ◌, unsigned_abs, MatchOption};
ghost use Rattle.int_search.specs.PlainCount.{rounded, neighbour, side, HasLarge};
ghost use Rattle.int_search.specs.Suffixes.{offset};
ghost use Rattle.integer_form.specs.Forms.{integers_of};
ghost use Rattle.int_search.specs.Vectors.{Holds, IsSmall, suffix};
ghost use Rattle.int_search.specs.SearchedForm.{search_form};

use crate::rests::later_part;
use crate::steps::{is_large, nearest_part, offset_of};
use integer_form::Form;
use quadratic_form::{BASELINE_COLUMNS, MOST_INTEGERS};

/// The point that rounds each entry, from the last to the first, to the centre that the later ones give; None where an
/// entry is large.
pub(crate) fn rounded_point(form: &Form) -> Option<[i64; MOST_INTEGERS]>
    requires { 4 < form.now.columns }
    ensures { MatchOption result (HasLarge (rounded (search_form form.now) (integers_of form.now)))
        (λ z.
        Holds (integers_of form.now) z (rounded (search_form form.now) (integers_of form.now))) }
{
    let integers = form.columns - BASELINE_COLUMNS - 1;
    let mut z = [0; MOST_INTEGERS];
    let mut i = integers;
    while i > 0 {
        i -= 1;
        let x = nearest_part(later_part(form, i, &z));
        if is_large(x) {
            return None;
        }
        z[i] = x as i64;
    }
    Some(z)
}

// The offset of the first entry of a vector from the centre that the later ones give.
fn first_offset(form: &Form, z: &[i64; MOST_INTEGERS]) -> i128
    requires some { 4 < form.now.columns }
    requires small { IsSmall z.now }
    ensures value { result ≡ offset (search_form form.now) (get_or z.now 0 (pos 0))
        (suffix z.now 1 (integers_of form.now)) }
    ensures size { unsigned_abs result ≤ 2 ^ 91 }
{
    offset_of(z[0], later_part(form, 0, z))
}

// One further than x, to the side on which the centre is.
fn one_further(x: i64, offset: i128) -> i64
    requires { unsigned_abs x < 2 ^ 30 }
    ensures value { result ≡ x +ℤ side offset }
    ensures size { unsigned_abs result ≤ 2 ^ 30 }
{
    if offset <= 0 {
        return x + 1;
    }
    x - 1
}

/// The neighbour of the rounded point z: the first entry one further, to the side of the centre; None where it is large.
pub(crate) fn neighbour_point(form: &Form, z: &[i64; MOST_INTEGERS]) -> Option<[i64; MOST_INTEGERS]>
    requires some { 4 < form.now.columns }
    requires point { Holds (integers_of form.now) z.now
        (rounded (search_form form.now) (integers_of form.now)) }
    ensures { MatchOption result (HasLarge (neighbour (search_form form.now))) (λ w.
        Holds (integers_of form.now) w (neighbour (search_form form.now))) }
{
    let x = one_further(z[0], first_offset(form, z));
    if is_large(x as i128) {
        return None;
    }
    let mut w = *z;
    w[0] = x;
    Some(w)
}
