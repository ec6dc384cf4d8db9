//! The vector from a point to a place, and its length.
ghost use Rattle.std.specs.Prelude.{◌≡◌, ◌+◌, ◌*◌, ◌^◌, ◌<◌, ◌≤◌, ℤ, pos, ◌+ℤ◌, ◌-ℤ◌, ◌*ℤ◌, ◌≤ℤ◌, ◌<ℤ◌, unsigned_abs};
ghost use Rattle.whole_math.specs.Rounding.{floor_div, ceil_div};
ghost use Rattle.whole_math.specs.Rational.{Rational, ◌-ʳ◌, ◌*ʳ◌, IsNearRoot};
ghost use Rattle.iv_core.specs.Boxes.{near_end, far_end};
ghost use Rattle.iv_core.specs.Intervals.{Holds, width_of, IsWithin};
ghost use Rattle.orbit_model.specs.SeenPlaces.{Position, square};
ghost use Rattle.signal_travel.specs.VectorBoxes.{coordinate_of, HoldsVector, IsVectorWithin, AreEndsWithin, IsVectorAtMostWide, HasVectorBetween, near_square, far_square};
ghost use Rattle.obs_rows.specs.declared.limits.TheConstants.{MOST_COORDINATE};

use crate::places::VectorBox;
use crate::sent::Point;
use iv_core::Iv;

// 625 · 2^27, which makes a coordinate positive
const COORDINATE_OFFSET: i64 = 83_886_080_000;

// ⌊raised · 2^32 / 625⌋, in two digits at 2^32. The divisor is known when the program is built, which then multiplies in place of
// dividing 128 bits.
fn raised_units(raised: u64) -> u64
    requires { raised ≤ 153886080000 }
    ensures low { result * 625 ≤ raised * 2 ^ 32 }
    ensures high { raised * 2 ^ 32 < result * 625 + 625 }
{
    raised / 625 * 4_294_967_296 + raised % 625 * 4_294_967_296 / 625
}

// ⌊coordinate · 2^36 / 10^4⌋, which is ⌊coordinate · 2^32 / 625⌋
fn units_of(coordinate: i64) -> i64
    requires { unsigned_abs coordinate ≤ MOST_COORDINATE }
    ensures low { (result *ℤ pos 10000) ≤ℤ (coordinate *ℤ pos (2 ^ 36)) }
    ensures high { (coordinate *ℤ pos (2 ^ 36)) <ℤ ((result *ℤ pos 10000) +ℤ pos 10000) }
{
    raised_units((coordinate + COORDINATE_OFFSET) as u64) as i64 - (1 << 59)
}

// 1 where the coordinate lies between two units, else 0: whole units are multiples of 625, since 2^32 has no factor 5
fn rest_of(coordinate: i64) -> i64
    requires { unsigned_abs coordinate ≤ MOST_COORDINATE }
    ensures low { pos 0 ≤ℤ result }
    ensures high { result ≤ℤ pos 1 }
    ensures above { (u : ℤ) → (coordinate *ℤ pos (2 ^ 36)) <ℤ ((u *ℤ pos 10000) +ℤ pos 10000) →
        (coordinate *ℤ pos (2 ^ 36)) ≤ℤ ((u +ℤ result) *ℤ pos 10000) }
{
    let raised = (coordinate + COORDINATE_OFFSET) as u64;
    if raised % 625 == 0 { 0 } else { 1 }
}

/// The box of a coordinate in units of 0.1 mm.
pub fn coordinate_box(coordinate: i64) -> Iv<36>
    requires { unsigned_abs coordinate ≤ MOST_COORDINATE }
    ensures holds { Holds result (coordinate_of coordinate) }
    ensures size { IsWithin (7000001 * 2 ^ 36) result }
    ensures width { width_of result ≤ℤ pos 1 }
{
    let low = units_of(coordinate);
    Iv::from_ends(low, low + rest_of(coordinate))
}

// x less a coordinate of a point
fn offset_from(x: &Iv<36>, coordinate: &Iv<36>) -> Iv<36>
    requires x_size { IsWithin (38100000 * 2 ^ 36) x.now }
    requires size { IsWithin (7000001 * 2 ^ 36) coordinate.now }
    requires narrow { width_of coordinate.now ≤ℤ pos 1 }
    ensures holds { (q p : Rational) → Holds x.now q → Holds coordinate.now p →
        Holds result (q -ʳ p) }
    ensures size { IsWithin (45200000 * 2 ^ 36) result }
    ensures width { width_of result ≤ℤ (width_of x.now +ℤ pos 1) }
{
    x.difference_of(coordinate)
}

/// The place less the point.
pub fn vector_from(point: &Point, place: &VectorBox) -> VectorBox
    requires { IsVectorWithin (38100000 * 2 ^ 36) place.now }
    ensures holds { (p : Position) → HoldsVector place.now p → HoldsVector result (record {
      x = p.x -ʳ coordinate_of point.now.x;
      y = p.y -ʳ coordinate_of point.now.y;
      z = p.z -ʳ coordinate_of point.now.z;
    }) }
    ensures size { IsVectorWithin (45200000 * 2 ^ 36) result }
    ensures width { (w : ℤ) → IsVectorAtMostWide w place.now →
        IsVectorAtMostWide (w +ℤ pos 1) result }
{
    VectorBox {
        x: offset_from(&place.x, &point.boxes.x),
        y: offset_from(&place.y, &point.boxes.y),
        z: offset_from(&place.z, &point.boxes.z),
    }
}

fn square_of(x: &Iv<36>) -> Iv<9>
    requires { IsWithin (45200000 * 2 ^ 36) x.now }
    ensures holds { (q : Rational) → Holds x.now q → Holds result (q *ʳ q) }
    ensures lo { result.lo
        ≡ floor_div (near_end x.now.lo x.now.hi *ℤ near_end x.now.lo x.now.hi) (2 ^ 63) }
    ensures hi { result.hi
        ≡ ceil_div (far_end x.now.lo x.now.hi *ℤ far_end x.now.lo x.now.hi) (2 ^ 63) }
    ensures low { pos 0 ≤ℤ result.lo }
    ensures high { result.hi ≤ℤ pos (45200000 * 45200000 * 2 ^ 9) }
{
    x.square_of::<9>()
}

// x² + y² + z²
fn squared_length(v: &VectorBox) -> Iv<9>
    requires { IsVectorWithin (45200000 * 2 ^ 36) v.now }
    ensures holds { (p : Position) → HoldsVector v.now p → Holds result (square p) }
    ensures low { pos 0 ≤ℤ result.lo }
    ensures near { near_square v.now ≤ℤ (pos (2 ^ 63) *ℤ (result.lo +ℤ pos 3)) }
    ensures far { (pos (2 ^ 63) *ℤ (result.hi -ℤ pos 3)) ≤ℤ far_square v.now }
{
    let x = square_of(&v.x);
    let y = square_of(&v.y);
    let z = square_of(&v.z);
    x.sum_of(&y).sum_of(&z)
}

// From units of 2^-34 to units of 2^-36
fn in_quarters(root: &Iv<34>) -> Iv<36>
    requires low { pos 0 ≤ℤ root.now.lo }
    requires high { root.now.hi ≤ℤ pos (2 ^ 60) }
    ensures lo { result.lo ≡ pos 4 *ℤ root.now.lo }
    ensures hi { result.hi ≡ pos 4 *ℤ root.now.hi }
{
    Iv::from_ends(4 * root.lo, 4 * root.hi)
}

/// The length of the vector, at least 10,000 km, from what is thought to be near it in 2^-34 m: nothing that is said of the length rests
/// on it.
pub fn length_by(v: &VectorBox, guess: u64) -> Iv<36>
    requires size { IsVectorWithin (45200000 * 2 ^ 36) v.now }
    requires narrow { IsVectorAtMostWide (pos (2 ^ 48)) v.now }
    requires between { HasVectorBetween 141000000000000 2040000000000000 v.now }
    ensures holds { (p : Position) (r : Rational) → HoldsVector v.now p → IsNearRoot r (square p) →
        Holds result r }
    ensures far { pos (10000000 * 2 ^ 36) ≤ℤ result.lo }
    ensures near { result.hi ≤ℤ pos (45200000 * 2 ^ 36) }

    // At most 7/4 of a coordinate's width, and rounding.
    ensures width { (w : ℤ) → IsVectorAtMostWide w v.now →
        (pos 4 *ℤ width_of result) ≤ℤ ((pos 7 *ℤ w) +ℤ pos 800) }

    // No end of a coordinate is longer than the vector's least length, but for its width and rounding.
    ensures reach { (w : ℤ) → IsVectorAtMostWide w v.now →
        AreEndsWithin ((result.lo +ℤ pos 80) +ℤ w) v.now }
{
    in_quarters(&squared_length(v).root_by::<34>(guess))
}
