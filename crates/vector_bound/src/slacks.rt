//! What the data and the share of the sum of squares add.
ghost use Rattle.std.specs.Prelude.{◌≡◌, ◌+◌, ◌*◌, ◌^◌, ◌<◌, ◌≤◌, length, All, pos, ◌+ℤ◌, ◌*ℤ◌, ◌<ℤ◌, ◌≤ℤ◌};
ghost use Rattle.std.specs.Prelude.{unsigned_abs, slice_index_or, IfSome, IsNone};
ghost use Rattle.whole_math.specs.Rounding.{ceil_div};
ghost use Rattle.obs_rows.specs.Ranges.{IsBelow};
ghost use Rattle.vector_bound.specs.VectorBounds.{slack, FitsSlack};

use crate::slopes::plus_times;
use normal_sum::Normal;
use whole_math::ceil_shift;

/// A square of radii is at most this.
const MOST_SQUARE: i128 = 1 << 118;

/// m · m
fn square(m: i64) -> i128
    requires { unsigned_abs m ≤ 2 ^ 46 }
    ensures value { result ≡ m *ℤ m }
    ensures size { unsigned_abs result ≤ 2 ^ 92 }
{
    m as i128 * m as i128
}

/// r · m². `None` where it isn't from 0 to 2^118.
fn times_square(r: i128, m: i64) -> Option<i128>
    requires { unsigned_abs m ≤ 2 ^ 46 }
    ensures value { IfSome result (λ s. s ≡ r *ℤ (m *ℤ m)) }
    ensures from { IfSome result (λ s. pos 0 ≤ℤ s) }
    ensures to { IfSome result (λ s. s ≤ℤ pos (2 ^ 118)) }
    ensures none { IsNone result → pos 0 ≤ℤ (r *ℤ (m *ℤ m)) → (r *ℤ (m *ℤ m)) ≤ℤ pos (2 ^ 118) → ⊥ }
{
    let product = r.checked_mul(square(m))?;
    if product < 0 || product > MOST_SQUARE {
        return None;
    }
    Some(product)
}

/// The sum of squares of radii of a column of the baseline, or of the constant.
fn radius_of(normal: &Normal, column: usize) -> i128
    requires column { column < 4 }
    ensures value { result ≡ slice_index_or normal.now.r column (pos 0) }
    ensures from { pos 0 ≤ℤ result }
    ensures size { unsigned_abs result ≤ 2 ^ 100 }
{
    normal.r[column]
}

/// That times m². `None` where it isn't from 0 to 2^118.
fn radius_square(normal: &Normal, column: usize, m: i64) -> Option<i128>
    requires column { column < 4 }
    requires size { unsigned_abs m ≤ 2 ^ 46 }
    ensures value { IfSome result (λ s.
        s ≡ slice_index_or normal.now.r column (pos 0) *ℤ (m *ℤ m)) }
    ensures from { IfSome result (λ s. pos 0 ≤ℤ s) }
    ensures to { IfSome result (λ s. s ≤ℤ pos (2 ^ 118)) }
    ensures none { IsNone result →
        (slice_index_or normal.now.r column (pos 0) *ℤ (m *ℤ m)) ≤ℤ pos (2 ^ 118) → ⊥ }
{
    times_square(radius_of(normal, column), m)
}

/// 4 · (a + b + c + d)
fn four_times(a: i128, b: i128, c: i128, d: i128) -> i128
    requires a_from { pos 0 ≤ℤ a }
    requires a_to { a ≤ℤ pos (2 ^ 118) }
    requires b_from { pos 0 ≤ℤ b }
    requires b_to { b ≤ℤ pos (2 ^ 118) }
    requires c_from { pos 0 ≤ℤ c }
    requires c_to { c ≤ℤ pos (2 ^ 118) }
    requires d_from { pos 0 ≤ℤ d }
    requires d_to { d ≤ℤ pos (2 ^ 118) }
    ensures value { result ≡ pos 4 *ℤ (a +ℤ (b +ℤ (c +ℤ d))) }
    ensures size { unsigned_abs result ≤ 2 ^ 122 }
{
    4 * (a + (b + (c + d)))
}

/// The slack is at most this.
const MOST_SLACK: i128 = 1 << 126;

/// ⌈squares / 2^h⌉ + 16 · top. `None` where it isn't from 0 to 2^126.
fn slack_of(squares: i128, h: u32, top: i128) -> Option<i128>
    requires few { h ≤ 80 }
    requires squares { unsigned_abs squares ≤ 2 ^ 122 }
    ensures value { IfSome result (λ k. k ≡ ceil_div squares (2 ^ h) +ℤ (top *ℤ pos 16)) }
    ensures from { IfSome result (λ k. pos 0 ≤ℤ k) }
    ensures to { IfSome result (λ k. k ≤ℤ pos (2 ^ 126)) }
    ensures none { IsNone result → pos 0 ≤ℤ (ceil_div squares (2 ^ h) +ℤ (top *ℤ pos 16)) →
        (ceil_div squares (2 ^ h) +ℤ (top *ℤ pos 16)) ≤ℤ pos (2 ^ 126) → ⊥ }
{
    let whole = plus_times(ceil_shift(squares, h), top, 16)?;
    if whole < 0 || whole > MOST_SLACK {
        return None;
    }
    Some(whole)
}

/// What the radii at the move and the share of the upper sum `top` add. `None` where it doesn't fit.
pub(crate) fn slack(normal: &Normal, h: u32, moved: &[i64; 3], top: i128) -> Option<i128>
    requires few { h ≤ 80 }
    requires moved_size { All (IsBelow (2 ^ 46)) moved.now }
    ensures value { IfSome result (λ k. k ≡ slack normal.now h moved.now top) }
    ensures from { IfSome result (λ k. pos 0 ≤ℤ k) }
    ensures to { IfSome result (λ k. k ≤ℤ pos (2 ^ 126)) }
    ensures none { IsNone result → FitsSlack normal.now h moved.now top →
        pos 0 ≤ℤ slack normal.now h moved.now top → ⊥ }
{
    let first = radius_square(normal, 0, moved[0])?;
    let second = radius_square(normal, 1, moved[1])?;
    let third = radius_square(normal, 2, moved[2])?;
    let last = radius_square(normal, 3, 65_536)?;
    slack_of(four_times(first, second, third, last), h, top)
}
