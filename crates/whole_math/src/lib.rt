//! Exact numbers: quotients and products of whole numbers, rationals, and the laws of both that all later proofs cite.
//!
//! `floor`, `ceil` and `nearest` give ⌊n/m⌋, ⌈n/m⌉ and ⌊n/m + 1/2⌋ for every 128-bit n and every m above 0, and `remainder` what
//! `floor` leaves; `floor_shift` and `ceil_shift` divide by a power of two. `product` and `wide_product` multiply two numbers of at
//! most 2^A and 2^B in size, where A + B is at most 126. Nothing overflows, no call fails, and none takes memory.
//!
//! A rational is a whole number over a positive one, not always in lowest terms. It exists in contracts and proofs alone, so there is
//! no code of it. Equality and order go by cross products; a box holds what lies between its two ends, whole numbers over a power of
//! two; a near-root of q has a square within 2^-60 of q, in proportion.
//!
//! Definitions stand in `specs/`, lemmas in `proofs/`. The functions of `laws` and those whose names end in `_laws` have empty bodies:
//! their contracts name the laws that a newcomer should see. Of whole numbers these are the laws of roundings, products, powers of
//! two, sums and vectors (`laws`). Of rationals: the order is total (`order_laws`); equal ones may stand for each other in every
//! operation, order and box (`equality_laws`); sums and products obey the laws of an ordered ring (`ring_laws`,
//! `ordered_ring_laws`); a box holds exactly what lies between its ends (`box_laws`); every list of rationals has a common
//! denominator (`common_denominator_laws`). For other proofs there are polynomial identities and inequalities of whole numbers by a
//! solver, and through one denominator the same of rationals (`proofs/Examples.antt` has one of each kind).
#![tactic(auto)]

pub mod laws;
mod rational_laws;

ghost use Rattle.std.specs.Prelude.{◌≡◌, ◌^◌, ◌<◌, ◌≤◌, pos, ◌+ℤ◌, ◌*ℤ◌, ◌≤ℤ◌, ◌<ℤ◌, unsigned_abs, ◌+◌};
ghost use Rattle.whole_math.specs.Rounding.{floor_div, ceil_div, nearest_div, IsFloor, IsCeil, IsNearest};

pub use rational_laws::{
    box_laws, common_denominator_laws, equality_laws, order_laws, ordered_ring_laws, ring_laws,
};

/// ⌊n / m⌋, the greatest whole number that is at most n / m.
pub fn floor(n: i128, m: i128) -> i128
    requires positive { pos 0 <ℤ m }
    ensures value { result ≡ floor_div n (unsigned_abs m) }
    ensures bounds { IsFloor n (unsigned_abs m) result }
    ensures size { unsigned_abs result ≤ unsigned_abs n }
{
    n.div_euclid(m)
}

/// What is left of n where m is taken ⌊n / m⌋ times.
pub fn remainder(n: i128, m: i128) -> i128
    requires positive { pos 0 <ℤ m }
    ensures value { n ≡ (floor_div n (unsigned_abs m) *ℤ m) +ℤ result }
    ensures low { pos 0 ≤ℤ result }
    ensures high { result <ℤ m }
{
    n.rem_euclid(m)
}

// What is left of n where m is taken `down` = ⌊n / m⌋ times. The product alone might not fit.
fn left_of(n: i128, down: i128, m: i128) -> i128
    requires positive { pos 0 <ℤ m }
    requires down { IsFloor n (unsigned_abs m) down }
    ensures value { n ≡ (down *ℤ m) +ℤ result }
    ensures low { pos 0 ≤ℤ result }
    ensures high { result <ℤ m }
{
    n.wrapping_sub(down.wrapping_mul(m))
}

/// ⌈n / m⌉, the least whole number that is at least n / m.
pub fn ceil(n: i128, m: i128) -> i128
    requires positive { pos 0 <ℤ m }
    ensures value { result ≡ ceil_div n (unsigned_abs m) }
    ensures bounds { IsCeil n (unsigned_abs m) result }
    ensures size { unsigned_abs result ≤ unsigned_abs n }
{
    let down = floor(n, m);
    let rest = left_of(n, down, m);
    if rest == 0 { down } else { down + 1 }
}

/// ⌊n / m + 1/2⌋, the whole number nearest to n / m, and where two are as near the greater.
pub fn nearest(n: i128, m: i128) -> i128
    requires positive { pos 0 <ℤ m }
    ensures value { result ≡ nearest_div n (unsigned_abs m) }
    ensures bounds { IsNearest n (unsigned_abs m) result }
    ensures size { unsigned_abs result ≤ unsigned_abs n }
{
    let down = floor(n, m);
    let rest = left_of(n, down, m);
    // Twice the rest might not fit.
    if rest < m - rest { down } else { down + 1 }
}

/// ⌊n / 2^shift⌋
pub fn floor_shift(n: i128, shift: u32) -> i128
    requires shift { shift < 128 }
    ensures value { result ≡ floor_div n (2 ^ shift) }
    ensures size { unsigned_abs result ≤ unsigned_abs n }
{
    n >> shift
}

/// ⌈n / 2^shift⌉
pub fn ceil_shift(n: i128, shift: u32) -> i128
    requires shift { shift < 128 }
    requires size { unsigned_abs n < 2 ^ 127 }
    ensures value { result ≡ ceil_div n (2 ^ shift) }
    ensures size { unsigned_abs result ≤ unsigned_abs n }
{
    -floor_shift(-n, shift)
}

/// x · y, of two numbers of at most 2^A and 2^B in size.
#[inline(always)]
pub fn product<const A: u32, const B: u32>(x: i64, y: i64) -> i128
    requires x_size { unsigned_abs x ≤ 2 ^ A }
    requires y_size { unsigned_abs y ≤ 2 ^ B }
    requires fits { A + B ≤ 126 }
    ensures value { result ≡ x *ℤ y }
    ensures size { unsigned_abs result ≤ 2 ^ (A + B) }
{
    x as i128 * y as i128
}

/// x · y, of a number of at most 2^A and a wide one of at most 2^B in size.
#[inline(always)]
pub fn wide_product<const A: u32, const B: u32>(x: i64, y: i128) -> i128
    requires x_size { unsigned_abs x ≤ 2 ^ A }
    requires y_size { unsigned_abs y ≤ 2 ^ B }
    requires fits { A + B ≤ 126 }
    ensures value { result ≡ x *ℤ y }
    ensures size { unsigned_abs result ≤ 2 ^ (A + B) }
{
    x as i128 * y
}
