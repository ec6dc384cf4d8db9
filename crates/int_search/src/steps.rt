//! The numbers of one level.
ghost use Rattle.std.specs.Prelude.{◌≡◌, ◌+◌, ◌^◌, ◌<◌, ◌≤◌, pos, ◌+ℤ◌, ◌-ℤ◌, ◌*ℤ◌, ◌≤ℤ◌, ◌<ℤ◌, unsigned_abs, neg_ℤ, IsTrue, false, MatchOption};
ghost use Rattle.int_search.specs.Steps.{IsUntouched, Chooses, Moves, IsTermWithin};
ghost use Rattle.whole_math.specs.Rounding.{floor_div, ceil_div, nearest_div};

use crate::stack::Level;
use whole_math::wide_product;

/// The entry that comes next at a level.
#[derive(Clone, Copy, Debug)]
pub(crate) struct Choice {
    pub(crate) entry: i64,
    pub(crate) offset: i128,
    /// Whether it is the next entry above.
    pub(crate) is_up: bool,
}

/// Whether x is 2^30 or more in size.
pub(crate) fn is_large(x: i128) -> bool
    ensures yes { IsTrue result → 2 ^ 30 ≤ unsigned_abs x }
    ensures no { result ≡ false → unsigned_abs x < 2 ^ 30 }
{
    x >= 1 << 30 || x <= -(1 << 30)
}

// The least whole number that is at least z / 2^30.
fn ceil_part(z: i128) -> i128
    requires { unsigned_abs z ≤ 2 ^ 89 }
    ensures value { result ≡ ceil_div z (2 ^ 30) }
    ensures size { unsigned_abs result ≤ 2 ^ 59 + 1 }
{
    -(-z >> 30)
}

/// The nearest whole number to -z / 2^30.
pub(crate) fn nearest_part(z: i128) -> i128
    requires { unsigned_abs z ≤ 2 ^ 88 }
    ensures value { result ≡ nearest_div (neg_ℤ z) (2 ^ 30) }
    ensures size { unsigned_abs result ≤ 2 ^ 60 }
{
    (-2 * z + (1 << 30)) >> 31
}

/// 2^30·x + rest
pub(crate) fn offset_of(x: i64, rest: i128) -> i128
    requires x_size { unsigned_abs x ≤ 2 ^ 60 }
    requires rest_size { unsigned_abs rest ≤ 2 ^ 88 }
    ensures value { result ≡ (pos (2 ^ 30) *ℤ x) +ℤ rest }
    ensures size { unsigned_abs result ≤ 2 ^ 91 }
{
    (1 << 30) * x as i128 + rest
}

/// A level with no entry taken.
pub(crate) fn untouched_level(rest: i128, low: i128) -> Level
    requires { unsigned_abs rest ≤ 2 ^ 88 }
    ensures { IsUntouched rest low result }
{
    let up = ceil_part(-rest) as i64;
    let down = up - 1;
    Level {
        up,
        down,
        up_offset: offset_of(up, rest),
        down_offset: offset_of(down, rest),
        low,
    }
}

/// The nearer of the two entries at the ends.
pub(crate) fn nearest(a: &Level) -> Choice
    requires up { unsigned_abs a.now.up_offset ≤ 2 ^ 100 }
    requires down { unsigned_abs a.now.down_offset ≤ 2 ^ 100 }
    ensures { Chooses a.now result.entry result.offset result.is_up }
{
    if a.up_offset <= -a.down_offset {
        Choice {
            entry: a.up,
            offset: a.up_offset,
            is_up: true,
        }
    } else {
        Choice {
            entry: a.down,
            offset: a.down_offset,
            is_up: false,
        }
    }
}

/// The level with that entry taken.
pub(crate) fn level_after(a: &Level, is_up: bool) -> Level
    requires up { unsigned_abs a.now.up ≤ 2 ^ 61 }
    requires down { unsigned_abs a.now.down ≤ 2 ^ 61 }
    requires up_offset { unsigned_abs a.now.up_offset ≤ 2 ^ 100 }
    requires down_offset { unsigned_abs a.now.down_offset ≤ 2 ^ 100 }
    ensures { Moves a.now is_up result }
{
    let mut b = *a;
    if is_up {
        b.up = a.up + 1;
        b.up_offset = a.up_offset + (1 << 30);
    } else {
        b.down = a.down - 1;
        b.down_offset = a.down_offset - (1 << 30);
    }
    b
}

/// What a bound p leaves over a lower sum.
pub(crate) fn bound_left(p: i128, low: i128) -> i128
    requires p_size { unsigned_abs p ≤ 2 ^ 62 }
    requires low_size { unsigned_abs low ≤ 2 ^ 122 }
    ensures value { result ≡ (pos (2 ^ 60) *ℤ p) -ℤ low }
    ensures size { unsigned_abs result ≤ 2 ^ 123 }
{
    (1 << 60) * p - low
}

// c · c
fn square(c: i128) -> i128
    requires { unsigned_abs c ≤ 2 ^ 62 }
    ensures value { result ≡ c *ℤ c }
    ensures low { pos 0 ≤ℤ result }
    ensures size { unsigned_abs result ≤ 2 ^ 124 }
{
    c * c
}

// c · c, where c is small
fn small_square(c: i128) -> i128
    requires { unsigned_abs c ≤ 2 ^ 37 }
    ensures value { result ≡ c *ℤ c }
    ensures size { unsigned_abs result ≤ 2 ^ 74 }
{
    c * c
}

// ⌊room / d⌋
fn share(room: i128, d: i64) -> i128
    requires room_size { unsigned_abs room ≤ 2 ^ 123 }
    requires d_from { pos 1 ≤ℤ d }
    ensures value { result ≡ floor_div room (unsigned_abs d) }
{
    room.div_euclid(d as i128)
}

// d · q, which is at most room
fn scaled(d: i64, q: i128, room: i128) -> i128
    requires d_from { pos 1 ≤ℤ d }
    requires q_from { pos 0 ≤ℤ q }
    requires room_size { unsigned_abs room ≤ 2 ^ 123 }
    requires within { (d *ℤ q) ≤ℤ room }
    ensures value { result ≡ d *ℤ q }
    ensures size { unsigned_abs result ≤ 2 ^ 126 }
{
    d as i128 * q
}

/// d·c², where that is at most `room`.
pub(crate) fn term_within(room: i128, d: i64, c: i128) -> Option<i128>
    requires room { unsigned_abs room ≤ 2 ^ 123 }
    requires d_from { pos 1 ≤ℤ d }
    requires d_to { d ≤ℤ pos (2 ^ 52) }
    ensures { MatchOption result (room <ℤ (d *ℤ (c *ℤ c))) (IsTermWithin room d c) }
{
    if c.unsigned_abs() <= 1 << 37 {
        let term = wide_product::<52, 74>(d, small_square(c));
        return if term <= room { Some(term) } else { None };
    }
    if room < 0 || c.unsigned_abs() > 1 << 62 {
        return None;
    }
    let square = square(c);
    if square <= share(room, d) {
        Some(scaled(d, square, room))
    } else {
        None
    }
}

/// 2^60·g
pub(crate) fn first_low(g: i64) -> i128
    ensures { result ≡ pos (2 ^ 60) *ℤ g }
{
    (1 << 60) * g as i128
}

/// low + term
pub(crate) fn low_with(low: i128, term: i128) -> i128
    requires low_size { unsigned_abs low ≤ 2 ^ 122 }
    requires term_size { unsigned_abs term ≤ 2 ^ 126 }
    ensures { result ≡ low +ℤ term }
{
    low + term
}
