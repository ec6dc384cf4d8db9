//! Sums of products in the form's ranges.
ghost use Rattle.std.specs.Prelude.{◌≡◌, ◌^◌, ◌≤◌, pos, ◌+ℤ◌, ◌*ℤ◌, unsigned_abs};

use whole_math::{product, wide_product};

/// own · x² + 2 · x · later
pub(crate) fn column_value(own: i64, x: i64, later: i128) -> i128
    requires own_size { unsigned_abs own ≤ 2 ^ 52 }
    requires x_size { unsigned_abs x ≤ 2 ^ 30 }
    requires later_size { unsigned_abs later ≤ 2 ^ 88 }
    ensures value { result ≡ (own *ℤ (x *ℤ x)) +ℤ (pos 2 *ℤ (x *ℤ later)) }
    ensures size { unsigned_abs result ≤ 2 ^ 120 }
{
    wide_product::<52, 60>(own, product::<30, 30>(x, x)) + 2 * wide_product::<30, 88>(x, later)
}
