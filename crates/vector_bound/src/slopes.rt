//! How steep the sum of squares at the centres is at the move, and what the data add.
ghost use Rattle.std.specs.Prelude.{◌≡◌, ◌+◌, ◌*◌, ◌^◌, ◌<◌, ◌≤◌, length, All, pos, ◌+ℤ◌, ◌*ℤ◌, ◌<ℤ◌, ◌≤ℤ◌};
ghost use Rattle.std.specs.Prelude.{ℕ, ℤ, List, unsigned_abs, FitsSigned, IfSome, IsNone};
ghost use Rattle.std.specs.Int.{w128};
ghost use Rattle.whole_math.specs.Rounding.{ceil_div};
ghost use Rattle.whole_math.specs.Vectors.{dot};
ghost use Rattle.quadratic_form.specs.Places.{list_from};
ghost use Rattle.quadratic_form.specs.UpperSum.{size};
ghost use Rattle.quadratic_form.specs.Tables.{entry};
ghost use Rattle.quadratic_form.specs.declared.sizes.TheConstants.{MOST_COLUMNS};
ghost use Rattle.obs_rows.specs.Ranges.{IsBelow};
ghost use Rattle.obs_rows.specs.Data.{number_at};
ghost use Rattle.vector_bound.specs.VectorBounds.{slope, steepness, FitsTerms, FitsSlopes};

use normal_sum::Normal;
use quadratic_form::{BASELINE_COLUMNS, MOST_COLUMNS};
use whole_math::ceil_shift;

/// 2^16: a move is in 2^-16 of the unit of a baseline.
const UNIT: i128 = 1 << 16;

/// A slope is at most this in size.
const MOST_SLOPE: i128 = 1 << 120;

/// The slopes together are at most this.
const MOST_SLOPES: i128 = 1 << 90;

/// a + b · c, where it fits
pub(crate) fn plus_times(a: i128, b: i128, c: i64) -> Option<i128>
    ensures value { IfSome result (λ s. s ≡ a +ℤ (b *ℤ c)) }
    ensures fits { IfSome result (λ s. FitsSigned w128 s) }
    ensures none { IsNone result → FitsSigned w128 (b *ℤ c) → FitsSigned w128 (a +ℤ (b *ℤ c)) → ⊥ }
{
    a.checked_add(b.checked_mul(c as i128)?)
}

/// Row j of the integers' columns times z.
fn integer_part(normal: &Normal, z: &[i64], j: usize) -> Option<i128>
    requires columns { normal.now.columns ≡ 4 + length z.now }
    requires row { j < 3 }
    requires z_size { All (IsBelow (2 ^ 30)) z.now }
    ensures value { IfSome result (λ s.
        s ≡ dot (list_from (entry normal.now.c j) 3 (length z.now)) z.now) }
    ensures fits { IfSome result (λ s. FitsSigned w128 s) }
    ensures small { (m : List ℤ) → FitsTerms normal.now z.now m j →
        IfSome result (λ s. unsigned_abs s ≤ 60 * 2 ^ 96) }
    ensures none { IsNone result → (m : List ℤ) → FitsTerms normal.now z.now m j → ⊥ }
{
    let mut sum = 0;
    for i in 0..z.len() {
        sum = plus_times(sum, normal.c.at(j, BASELINE_COLUMNS + i), z[i])?;
    }
    Some(sum)
}

/// sum + entry · by, of the entry in row j and column k, where it fits
fn plus_term(normal: &Normal, j: usize, k: usize, sum: i128, by: i64) -> Option<i128>
    requires row { j < 3 }
    requires column { k < MOST_COLUMNS }
    requires by_size { unsigned_abs by ≤ 2 ^ 46 }
    ensures value { IfSome result (λ s. s ≡ sum +ℤ (entry normal.now.c j k *ℤ by)) }
    ensures fits { IfSome result (λ s. FitsSigned w128 s) }
    ensures none { IsNone result → unsigned_abs sum ≤ 2 ^ 120 →
        unsigned_abs (entry normal.now.c j k *ℤ by) ≤ 2 ^ 118 → ⊥ }
{
    plus_times(sum, normal.c.at(j, k), by)
}

/// 2^16 times a number, where it fits
fn in_units(sum: i128) -> Option<i128>
    ensures value { IfSome result (λ s. s ≡ sum *ℤ pos (2 ^ 16)) }
    ensures fits { IfSome result (λ s. FitsSigned w128 s) }
    ensures none { IsNone result → unsigned_abs sum ≤ 2 ^ 110 → ⊥ }
{
    sum.checked_mul(UNIT)
}

/// Row j of the columns after those of the baseline at (2^16 z, 2^16).
fn later_part(normal: &Normal, z: &[i64], j: usize) -> Option<i128>
    requires columns { normal.now.columns ≡ 4 + length z.now }
    requires row { j < 3 }
    requires z_size { All (IsBelow (2 ^ 30)) z.now }
    ensures value { IfSome result (λ s.
        s ≡ (dot (list_from (entry normal.now.c j) 3 (length z.now)) z.now
        +ℤ (entry normal.now.c j (3 + length z.now) *ℤ pos 1)) *ℤ pos (2 ^ 16)) }
    ensures fits { IfSome result (λ s. FitsSigned w128 s) }
    ensures small { (m : List ℤ) → FitsTerms normal.now z.now m j →
        IfSome result (λ s. unsigned_abs s ≤ 2 ^ 118) }
    ensures none { IsNone result → (m : List ℤ) → FitsTerms normal.now z.now m j → ⊥ }
{
    let integers = integer_part(normal, z, j)?;
    let sum = plus_term(normal, j, BASELINE_COLUMNS + z.len(), integers, 1)?;
    in_units(sum)
}

/// Row j of the normal matrix at the move and the integers z. `None` where it doesn't fit.
fn slope(normal: &Normal, z: &[i64], moved: &[i64; 3], j: usize) -> Option<i128>
    requires columns { normal.now.columns ≡ 4 + length z.now }
    requires row { j < 3 }
    requires z_size { All (IsBelow (2 ^ 30)) z.now }
    requires moved_size { All (IsBelow (2 ^ 46)) moved.now }
    ensures value { IfSome result (λ s. s ≡ slope normal.now z.now moved.now j) }
    ensures fits { IfSome result (λ s. FitsSigned w128 s) }
    ensures small { FitsTerms normal.now z.now moved.now j →
        IfSome result (λ s. unsigned_abs s ≤ 2 ^ 120) }
    ensures none { IsNone result → FitsTerms normal.now z.now moved.now j → ⊥ }
{
    let later = later_part(normal, z, j)?;
    let third = plus_term(normal, j, 2, later, moved[2])?;
    let second = plus_term(normal, j, 1, third, moved[1])?;
    plus_term(normal, j, 0, second, moved[0])
}

/// The size of a slope. `None` where it is more than 2^120.
fn size_of_slope(normal: &Normal, z: &[i64], moved: &[i64; 3], j: usize) -> Option<i128>
    requires columns { normal.now.columns ≡ 4 + length z.now }
    requires row { j < 3 }
    requires z_size { All (IsBelow (2 ^ 30)) z.now }
    requires moved_size { All (IsBelow (2 ^ 46)) moved.now }
    ensures value { IfSome result (λ s. s ≡ size (slope normal.now z.now moved.now j)) }
    ensures from { IfSome result (λ s. pos 0 ≤ℤ s) }
    ensures to { IfSome result (λ s. s ≤ℤ pos (2 ^ 120)) }
    ensures none { IsNone result → FitsTerms normal.now z.now moved.now j → ⊥ }
{
    let whole = slope(normal, z, moved, j)?;
    if whole < -MOST_SLOPE || whole > MOST_SLOPE {
        return None;
    }
    Some(whole.abs())
}

/// ⌈(a + b + c) / 2^(h + 3)⌉. `None` where it is more than 2^90.
fn steepness_of(a: i128, b: i128, c: i128, h: u32) -> Option<i128>
    requires few { h ≤ 80 }
    requires a_from { pos 0 ≤ℤ a }
    requires a_to { a ≤ℤ pos (2 ^ 120) }
    requires b_from { pos 0 ≤ℤ b }
    requires b_to { b ≤ℤ pos (2 ^ 120) }
    requires c_from { pos 0 ≤ℤ c }
    requires c_to { c ≤ℤ pos (2 ^ 120) }
    ensures value { IfSome result (λ l. l ≡ ceil_div (a +ℤ (b +ℤ c)) (2 ^ (h + 3))) }
    ensures from { IfSome result (λ l. pos 0 ≤ℤ l) }
    ensures to { IfSome result (λ l. l ≤ℤ pos (2 ^ 90)) }
    ensures none { IsNone result → ceil_div (a +ℤ (b +ℤ c)) (2 ^ (h + 3)) ≤ℤ pos (2 ^ 90) → ⊥ }
{
    let l = ceil_shift(a + (b + c), h + 3);
    if l < 0 || l > MOST_SLOPES {
        return None;
    }
    Some(l)
}

/// The three slopes together, in units of 2^(h + 3). `None` where they are more than 2^90.
pub(crate) fn steepness(normal: &Normal, h: u32, z: &[i64], moved: &[i64; 3]) -> Option<i128>
    requires few { h ≤ 80 }
    requires columns { normal.now.columns ≡ 4 + length z.now }
    requires z_size { All (IsBelow (2 ^ 30)) z.now }
    requires moved_size { All (IsBelow (2 ^ 46)) moved.now }
    ensures value { IfSome result (λ l. l ≡ steepness normal.now h z.now moved.now) }
    ensures from { IfSome result (λ l. pos 0 ≤ℤ l) }
    ensures to { IfSome result (λ l. l ≤ℤ pos (2 ^ 90)) }
    ensures none { IsNone result → FitsSlopes normal.now h z.now moved.now → ⊥ }
{
    let first = size_of_slope(normal, z, moved, 0)?;
    let second = size_of_slope(normal, z, moved, 1)?;
    let third = size_of_slope(normal, z, moved, 2)?;
    steepness_of(first, second, third, h)
}
