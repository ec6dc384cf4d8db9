//! What is kept of the normal matrix of the baseline's columns, and how much it curves.
ghost use Rattle.std.specs.Prelude.{◌≡◌, ◌+◌, ◌*◌, ◌^◌, ◌<◌, ◌≤◌, pos, ◌+ℤ◌, ◌-ℤ◌, ◌*ℤ◌, ◌<ℤ◌, ◌≤ℤ◌, ℤ, unsigned_abs, IfSome, IsNone};
ghost use Rattle.std.specs.Int.{int_max};
ghost use Rattle.whole_math.specs.Rounding.{floor_div};
ghost use Rattle.vector_bound.specs.Curvatures.{determinant, IsCurvatureOf};
ghost use Rattle.vector_bound.specs.VectorBounds.{kept_own, kept_other, IsCurvature, FitsMatrix};

use lower_form::nearest_shift;
use normal_sum::Normal;
use whole_math::{floor, floor_shift};

/// An entry of what is kept is at most this in size.
const MOST_KEPT: i128 = 1 << 40;

/// Squares of radii that add to this or more are refused.
const MOST_RADII: i128 = 1 << 89;

/// 59 · entry
fn times_59(entry: i128) -> i128
    requires { unsigned_abs entry < 2 ^ 120 }
    ensures value { result ≡ pos 59 *ℤ entry }
    ensures size { unsigned_abs result ≤ 59 * 2 ^ 120 }
{
    59 * entry
}

/// entry - (2^32 + 16128) · radii
fn less_radii(entry: i128, radii: i128) -> i128
    requires size { unsigned_abs entry ≤ 59 * 2 ^ 120 }
    requires from { pos 0 ≤ℤ radii }
    requires to { radii <ℤ pos (2 ^ 89) }
    ensures value { result ≡ entry -ℤ (pos 4294983424 *ℤ radii) }
    ensures size { unsigned_abs result ≤ 63 * 2 ^ 120 }
{
    entry - 4_294_983_424 * radii
}

/// ⌊entry / 2^shift⌋ - 3
fn own_rounded(entry: i128, shift: u32) -> i128
    requires size { unsigned_abs entry ≤ 63 * 2 ^ 120 }
    requires few { shift ≤ 90 }
    ensures value { result ≡ floor_div entry (2 ^ shift) -ℤ pos 3 }
    ensures size { unsigned_abs result ≤ 2 ^ 126 }
{
    floor_shift(entry, shift) - 3
}

/// What is kept of the own entry of a column of the baseline. `None` where its radii don't fit.
fn own_of(normal: &Normal, h: u32, column: usize) -> Option<i128>
    requires few { h ≤ 80 }
    requires column { column < 3 }
    ensures value { IfSome result (λ a. a ≡ kept_own normal.now h column) }
    ensures size { IfSome result (λ a. unsigned_abs a ≤ 2 ^ 126) }
    ensures none { IsNone result → FitsMatrix normal.now h → ⊥ }
{
    let radii = normal.r[column];
    if radii >= MOST_RADII {
        return None;
    }
    let entry = less_radii(times_59(normal.c.at(column, column)), radii);
    Some(own_rounded(entry, h + 10))
}

/// The same. `None` where it is below 1 or doesn't fit.
fn own_kept(normal: &Normal, h: u32, column: usize) -> Option<i128>
    requires few { h ≤ 80 }
    requires column { column < 3 }
    ensures value { IfSome result (λ a. a ≡ kept_own normal.now h column) }
    ensures from { IfSome result (λ a. pos 1 ≤ℤ a) }
    ensures size { IfSome result (λ a. unsigned_abs a ≤ 2 ^ 40) }
    ensures none { IsNone result → FitsMatrix normal.now h →
        pos 1 ≤ℤ kept_own normal.now h column → ⊥ }
{
    let own = own_of(normal, h, column)?;
    if own < 1 || own > MOST_KEPT {
        return None;
    }
    Some(own)
}

/// The entry of two columns of the baseline. `None` where it is more than 2^40 in size.
fn other_kept(normal: &Normal, h: u32, row: usize, column: usize) -> Option<i128>
    requires few { h ≤ 80 }
    requires row { row < 3 }
    requires column { column < 3 }
    ensures value { IfSome result (λ a. a ≡ kept_other normal.now h row column) }
    ensures size { IfSome result (λ a. unsigned_abs a ≤ 2 ^ 40) }
    ensures none { IsNone result → unsigned_abs (kept_other normal.now h row column) ≤ 2 ^ 40 → ⊥ }
{
    let other = nearest_shift(times_59(normal.c.at(row, column)), h + 10);
    if other < -MOST_KEPT || other > MOST_KEPT {
        return None;
    }
    Some(other)
}

/// p · q - r · s
fn cross(p: i128, q: i128, r: i128, s: i128) -> i128
    requires p { unsigned_abs p ≤ 2 ^ 40 }
    requires q { unsigned_abs q ≤ 2 ^ 40 }
    requires r { unsigned_abs r ≤ 2 ^ 40 }
    requires s { unsigned_abs s ≤ 2 ^ 40 }
    ensures value { result ≡ (p *ℤ q) -ℤ (r *ℤ s) }
    ensures size { unsigned_abs result ≤ 2 ^ 81 }
{
    p * q - r * s
}

/// a · m
fn product_of(a: i128, m: i128) -> i128
    requires a { unsigned_abs a ≤ 2 ^ 40 }
    requires m { unsigned_abs m ≤ 2 ^ 81 }
    ensures value { result ≡ a *ℤ m }
    ensures size { unsigned_abs result ≤ 2 ^ 121 }
{
    a * m
}

/// The determinant of a form of three columns, with the own entries a, b, c and the others f, g, h.
fn determinant_of(a: i128, b: i128, c: i128, f: i128, g: i128, h: i128) -> i128
    requires a { unsigned_abs a ≤ 2 ^ 40 }
    requires b { unsigned_abs b ≤ 2 ^ 40 }
    requires c { unsigned_abs c ≤ 2 ^ 40 }
    requires f { unsigned_abs f ≤ 2 ^ 40 }
    requires g { unsigned_abs g ≤ 2 ^ 40 }
    requires h { unsigned_abs h ≤ 2 ^ 40 }
    ensures value { result ≡ determinant a b c f g h }
    ensures size { unsigned_abs result ≤ 2 ^ 123 }
{
    let first = product_of(a, cross(b, c, h, h));
    let second = product_of(f, cross(f, c, h, g));
    let third = product_of(g, cross(f, h, b, g));
    first - second + third
}

/// The greater of two.
fn greater(a: i128, b: i128) -> i128
    requires a_from { pos 1 ≤ℤ a }
    requires b_from { pos 1 ≤ℤ b }
    requires a_size { unsigned_abs a ≤ 2 ^ 81 }
    requires b_size { unsigned_abs b ≤ 2 ^ 81 }
    ensures value { result ≡ int_max a b }
    ensures from { pos 1 ≤ℤ result }
    ensures size { unsigned_abs result ≤ 2 ^ 81 }
{
    a.max(b)
}

/// The least curvature of a form of three columns. `None` where the form isn't positive, or the curvature is below 1.
fn curvature_of(a: i128, b: i128, c: i128, f: i128, g: i128, h: i128) -> Option<i128>
    requires a { unsigned_abs a ≤ 2 ^ 40 }
    requires b { unsigned_abs b ≤ 2 ^ 40 }
    requires c { unsigned_abs c ≤ 2 ^ 40 }
    requires f { unsigned_abs f ≤ 2 ^ 40 }
    requires g { unsigned_abs g ≤ 2 ^ 40 }
    requires h { unsigned_abs h ≤ 2 ^ 40 }
    ensures curved { IfSome result (λ mu. IsCurvatureOf a b c f g h mu) }
    ensures from { IfSome result (λ mu. pos 1 ≤ℤ mu) }
    ensures size { IfSome result (λ mu. unsigned_abs mu ≤ 2 ^ 123) }
    ensures none { IsNone result → (mu : ℤ) → IsCurvatureOf a b c f g h mu → mu <ℤ pos 1 }
{
    let first = cross(a, b, f, f);
    let second = cross(a, c, g, g);
    let third = cross(b, c, h, h);
    if first < 1 || second < 1 || third < 1 {
        return None;
    }
    let mu = floor(
        determinant_of(a, b, c, f, g, h),
        greater(greater(first, second), third),
    );
    if mu < 1 {
        return None;
    }
    Some(mu)
}

/// The least curvature of what is kept over 2^(h + 10). `None` where there is none from 1 on, or a number doesn't fit.
pub(crate) fn curvature(normal: &Normal, h: u32) -> Option<i128>
    requires few { h ≤ 80 }
    ensures curved { IfSome result (λ mu. IsCurvature normal.now h mu) }
    ensures to { IfSome result (λ mu. mu ≤ℤ pos (2 ^ 40)) }
    ensures none { IsNone result → FitsMatrix normal.now h →
        (mu : ℤ) → IsCurvature normal.now h mu → ⊥ }
{
    let a = own_kept(normal, h, 0)?;
    let b = own_kept(normal, h, 1)?;
    let c = own_kept(normal, h, 2)?;
    let f = other_kept(normal, h, 0, 1)?;
    let g = other_kept(normal, h, 0, 2)?;
    curvature_of(a, b, c, f, g, other_kept(normal, h, 1, 2)?)
}
