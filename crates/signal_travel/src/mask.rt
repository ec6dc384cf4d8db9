//! The mask's rule, decided exactly at a place on a grid of 2^-17 m.
ghost use Rattle.std.specs.Prelude.{◌≡◌, ◌+◌, ◌*◌, ◌^◌, ◌<◌, ◌≤◌, ◌↔◌, pos, ◌+ℤ◌, ◌*ℤ◌, ◌≤ℤ◌, unsigned_abs, IsTrue};
ghost use Rattle.signal_travel.specs.Grid.{grid, offset, dot3, IsAboveWhole};
ghost use Rattle.obs_rows.specs.declared.limits.TheConstants.{MOST_COORDINATE};

use crate::wide::is_at_least;

fn grid_of(lo: i64) -> i64
    requires size { unsigned_abs lo ≤ 2 ^ 62 }
    ensures value { result ≡ grid lo }
    ensures size { unsigned_abs result ≤ 8796093022209 }
{
    (lo >> 19) + 1
}

// How far the place on the grid just above `lo` lies from a coordinate in units of 0.1 mm
pub fn offset_of(lo: i64, coordinate: i64) -> i64
    requires lo_size { unsigned_abs lo ≤ 2 ^ 62 }
    requires size { unsigned_abs coordinate ≤ MOST_COORDINATE }
    ensures value { result ≡ offset lo coordinate }
    ensures size { unsigned_abs result ≤ 6100000000000000 }
{
    let grid = grid_of(lo);
    625 * grid - 8192 * coordinate
}

fn product(a: i64, p: i64) -> i128
    requires a_size { unsigned_abs a ≤ 6100000000000000 }
    requires p_size { unsigned_abs p ≤ 6100000000000000 }
    ensures value { result ≡ a *ℤ p }
    ensures size { unsigned_abs result ≤ 6100000000000000 * 6100000000000000 }
{
    a as i128 * p as i128
}

fn sum_of(x: i128, y: i128, z: i128) -> i128
    requires x_size { unsigned_abs x ≤ 6100000000000000 * 6100000000000000 }
    requires y_size { unsigned_abs y ≤ 6100000000000000 * 6100000000000000 }
    requires z_size { unsigned_abs z ≤ 6100000000000000 * 6100000000000000 }
    ensures value { result ≡ (x +ℤ y) +ℤ z }
    ensures size { unsigned_abs result ≤ 3 * (6100000000000000 * 6100000000000000) }
{
    x + y + z
}

fn dot_of(a: i64, b: i64, c: i64, p: i64, q: i64, r: i64) -> i128
    requires a_size { unsigned_abs a ≤ 6100000000000000 }
    requires b_size { unsigned_abs b ≤ 6100000000000000 }
    requires c_size { unsigned_abs c ≤ 6100000000000000 }
    requires p_size { unsigned_abs p ≤ 6100000000000000 }
    requires q_size { unsigned_abs q ≤ 6100000000000000 }
    requires r_size { unsigned_abs r ≤ 6100000000000000 }
    ensures value { result ≡ dot3 a b c p q r }
    ensures size { unsigned_abs result ≤ 3 * (6100000000000000 * 6100000000000000) }
{
    sum_of(product(a, p), product(b, q), product(c, r))
}

// mask² |d|²
fn mask_side(mask: u32, square: i128) -> u128
    requires mask { mask ≤ 1000 }
    requires low { pos 0 ≤ℤ square }
    requires size { unsigned_abs square ≤ 3 * (6100000000000000 * 6100000000000000) }
    ensures value { pos result ≡ pos (mask * mask) *ℤ square }
    ensures size { result < 2 ^ 127 }
{
    mask as u128 * mask as u128 * square as u128
}

// 1000 d · p
fn height(rise: i128) -> u128
    requires low { pos 0 ≤ℤ rise }
    requires size { unsigned_abs rise ≤ 3 * (6100000000000000 * 6100000000000000) }
    ensures value { pos result ≡ pos 1000 *ℤ rise }
    ensures size { result < 2 ^ 127 }
{
    1000 * rise as u128
}

fn square_of(a: i64, b: i64, c: i64) -> i128
    requires a_size { unsigned_abs a ≤ 6100000000000000 }
    requires b_size { unsigned_abs b ≤ 6100000000000000 }
    requires c_size { unsigned_abs c ≤ 6100000000000000 }
    ensures value { result ≡ dot3 a b c a b c }
    ensures low { pos 0 ≤ℤ result }
    ensures size { unsigned_abs result ≤ 3 * (6100000000000000 * 6100000000000000) }
{
    dot_of(a, b, c, a, b, c)
}

pub fn is_above(mask: u32, a: i64, b: i64, c: i64, p: i64, q: i64, r: i64) -> bool
    requires mask { mask ≤ 1000 }
    requires a_size { unsigned_abs a ≤ 6100000000000000 }
    requires b_size { unsigned_abs b ≤ 6100000000000000 }
    requires c_size { unsigned_abs c ≤ 6100000000000000 }
    requires p_size { unsigned_abs p ≤ 6100000000000000 }
    requires q_size { unsigned_abs q ≤ 6100000000000000 }
    requires r_size { unsigned_abs r ≤ 6100000000000000 }
    ensures { IsTrue result ↔ IsAboveWhole mask a b c p q r }
{
    let rise = dot_of(a, b, c, p, q, r);
    if rise < 0 {
        return false;
    }
    let height = height(rise);
    is_at_least(
        height,
        height,
        mask_side(mask, square_of(a, b, c)),
        square_of(p, q, r) as u128,
    )
}
