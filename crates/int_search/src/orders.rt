//! The order of vectors: by value, then by entries.
ghost use Rattle.std.specs.Prelude.{◌≤◌};
ghost use Rattle.quadratic_form.specs.declared.sizes.TheConstants.{MOST_INTEGERS};
ghost use Rattle.int_search.specs.Vectors.{suffix};
ghost use Rattle.int_search.specs.Orders.{IsEntryOrder, IsRankOrder};

use quadratic_form::MOST_INTEGERS;
use std::cmp::Ordering;

/// The order of the first `size` entries.
fn entry_order(a: &[i64; MOST_INTEGERS], b: &[i64; MOST_INTEGERS], size: usize) -> Ordering
    requires { size ≤ MOST_INTEGERS }
    ensures { IsEntryOrder (suffix a.now 0 size) (suffix b.now 0 size) result }
{
    for k in 0..size {
        if a[k] < b[k] {
            return Ordering::Less;
        }
        if b[k] < a[k] {
            return Ordering::Greater;
        }
    }
    Ordering::Equal
}

/// The order of a vector with the value p and one with the value q.
pub(crate) fn order(
    p: i128,
    a: &[i64; MOST_INTEGERS],
    q: i128,
    b: &[i64; MOST_INTEGERS],
    size: usize,
) -> Ordering
    requires { size ≤ MOST_INTEGERS }
    ensures { IsRankOrder p (suffix a.now 0 size) q (suffix b.now 0 size) result }
{
    if p < q {
        return Ordering::Less;
    }
    if q < p {
        return Ordering::Greater;
    }
    entry_order(a, b, size)
}
