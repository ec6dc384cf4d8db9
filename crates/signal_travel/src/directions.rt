//! The mean direction over a move: −(2 (x − p) − δ) over the sum of the ranges before and after it.
ghost use Rattle.std.specs.Prelude.{◌≡◌, ◌+◌, ◌*◌, ◌^◌, ◌≤◌, pos, ◌+ℤ◌, ◌-ℤ◌, neg_ℤ, ◌≤ℤ◌, unsigned_abs};
ghost use Rattle.whole_math.specs.Rational.{Rational, ◌≈◌, ◌≤ʳ◌, of_whole, ◌+ʳ◌, ◌-ʳ◌, ◌*ʳ◌, IsAtMostInSize};
ghost use Rattle.iv_core.specs.Intervals.{Holds, width_of, IsWithin};
ghost use Rattle.orbit_model.specs.Places.{IsBetweenDistances};
ghost use Rattle.orbit_model.specs.SeenPlaces.{Position, difference, point_of, IsDisplacement, IsMeanDirection};
ghost use Rattle.obs_rows.specs.declared.units.TheConstants.{DIRECTION_EXPONENT};
ghost use Rattle.signal_travel.specs.VectorBoxes.{HoldsVector, IsVectorAtMostWide};
ghost use Rattle.signal_travel.specs.Directions.{IsInSpread};

use crate::passes::SightBoxes;
use crate::sent::{Point, SeenPlace};
use crate::spread::Spread;
use crate::vectors::{length_by, vector_from};
use iv_core::{Inverses, Iv};
use obs_rows::DIRECTION_EXPONENT;

// A move is at most 16 m long, and changes the range by at most 33/2 m: both in metres at 2^-35
const LONGEST_MOVE: i64 = 16 << 35;

const MOST_CHANGE: i64 = 33 << 34;

// 1 as a row's direction
const UNIT: i64 = 1 << DIRECTION_EXPONENT;

// The sum of the ranges before and after a move: what is the range at 2^-36 is twice the range at 2^-35.
fn sum_of_ranges(before: &Iv<36>) -> Iv<35>
    requires far { pos (10000000 * 2 ^ 36) ≤ℤ before.now.lo }
    requires near { before.now.hi ≤ℤ pos (45200000 * 2 ^ 36) }
    ensures lo { result.lo ≡ before.now.lo -ℤ pos (33 * 2 ^ 34) }
    ensures hi { result.hi ≡ before.now.hi +ℤ pos (33 * 2 ^ 34) }
    ensures holds { (r s : Rational) → Holds before.now r →
        of_whole (pos 2) *ʳ s ≤ʳ of_whole (pos 2) *ʳ r +ʳ of_whole (pos 33) →
        of_whole (pos 2) *ʳ r -ʳ of_whole (pos 33) ≤ʳ of_whole (pos 2) *ʳ s →
        Holds result (r +ʳ s) }
{
    Iv::from_ends(before.lo - MOST_CHANGE, before.hi + MOST_CHANGE)
}

// A coordinate of the move less twice that of the vector from the point, which is x
fn move_less_twice(x: &Iv<36>) -> Iv<35>
    requires { IsWithin (45200000 * 2 ^ 36) x.now }
    ensures lo { result.lo ≡ neg_ℤ x.now.hi -ℤ pos (16 * 2 ^ 35) }
    ensures hi { result.hi ≡ pos (16 * 2 ^ 35) -ℤ x.now.lo }
    ensures holds { (q m : Rational) → Holds x.now q → IsAtMostInSize (of_whole (pos 16)) m →
        Holds result (m -ʳ of_whole (pos 2) *ʳ q) }
{
    Iv::from_ends(-x.hi - LONGEST_MOVE, LONGEST_MOVE - x.lo)
}

// The quotient, which is at most 28 units past 1 in size and at most 57 wide.
fn quotient_of(change: &Iv<35>, sum: &Iv<35>, inverses: &Inverses) -> Iv<DIRECTION_EXPONENT>
    requires least { pos (9999991 * 2 ^ 36) ≤ℤ sum.now.lo }
    requires low { neg_ℤ (sum.now.lo +ℤ pos (66 * 2 ^ 34)) ≤ℤ change.now.lo }
    requires high { change.now.hi ≤ℤ (sum.now.lo +ℤ pos (66 * 2 ^ 34)) }
    requires change_width { width_of change.now ≤ℤ pos (2 ^ 40 + 2 ^ 20) }
    requires sum_width { width_of sum.now ≤ℤ pos (33 * 2 ^ 35 + 2 ^ 20) }
    ensures holds { (x y z : Rational) → Holds change.now x → Holds sum.now y → z *ʳ y ≈ x →
        Holds result z }
    ensures size { IsWithin (2 ^ DIRECTION_EXPONENT + 28) result }
    ensures width { width_of result ≤ℤ pos 57 }
{
    change
        .div_by::<35, DIRECTION_EXPONENT>(sum, inverses)
        .unwrap()
}

// The middle of the box, rounded down
fn middle_of(x: &Iv<DIRECTION_EXPONENT>) -> i64
    requires size { IsWithin (2 ^ DIRECTION_EXPONENT + 28) x.now }
    requires width { width_of x.now ≤ℤ pos 57 }
    ensures low { x.now.lo ≤ℤ result }
    ensures high { result ≤ℤ x.now.hi }
    ensures below { (result -ℤ x.now.lo) ≤ℤ pos 28 }
    ensures above { (x.now.hi -ℤ result) ≤ℤ pos 29 }
{
    (x.lo + x.hi) >> 1
}

// The middle, or the nearest number that is at most 1 in size
fn centre_of(x: &Iv<DIRECTION_EXPONENT>) -> i64
    requires size { IsWithin (2 ^ DIRECTION_EXPONENT + 28) x.now }
    requires width { width_of x.now ≤ℤ pos 57 }
    ensures size { unsigned_abs result ≤ 2 ^ DIRECTION_EXPONENT }
    ensures low { (result -ℤ x.now.lo) ≤ℤ pos 32 }
    ensures high { (x.now.hi -ℤ result) ≤ℤ pos 32 }
{
    middle_of(x).max(-UNIT).min(UNIT)
}

// The box by its centre and the distance of that from the farther end
fn spread_of(x: &Iv<DIRECTION_EXPONENT>) -> Spread
    requires size { IsWithin (2 ^ DIRECTION_EXPONENT + 28) x.now }
    requires width { width_of x.now ≤ℤ pos 57 }
    ensures { (q : Rational) → Holds x.now q → IsInSpread result q }
{
    let centre = centre_of(x);
    Spread {
        centre,
        radius: (x.hi - centre).max(centre - x.lo),
    }
}

// One coordinate, from that of the vector and the vector's length. The inverses are those of the sum of the ranges.
fn coordinate_spread(x: &Iv<36>, range: &Iv<36>, inverses: &Inverses) -> Spread
    requires size { IsWithin (45200000 * 2 ^ 36) x.now }
    requires far { pos (10000000 * 2 ^ 36) ≤ℤ range.now.lo }
    requires near { range.now.hi ≤ℤ pos (45200000 * 2 ^ 36) }
    requires width { width_of x.now ≤ℤ pos (2 ^ 19 + 1) }
    requires range_width { width_of range.now ≤ℤ pos (2 ^ 20) }
    requires low { neg_ℤ (range.now.lo +ℤ pos (2 ^ 20)) ≤ℤ x.now.lo }
    requires high { x.now.hi ≤ℤ (range.now.lo +ℤ pos (2 ^ 20)) }
    ensures { (q m r s u : Rational) → Holds x.now q → Holds range.now r →
        IsAtMostInSize (of_whole (pos 16)) m →
        of_whole (pos 2) *ʳ s ≤ʳ of_whole (pos 2) *ʳ r +ʳ of_whole (pos 33) →
        of_whole (pos 2) *ʳ r -ʳ of_whole (pos 33) ≤ʳ of_whole (pos 2) *ʳ s →
        u *ʳ (r +ʳ s) ≈ m -ʳ of_whole (pos 2) *ʳ q → IsInSpread result u }
{
    spread_of(&quotient_of(&move_less_twice(x), &sum_of_ranges(range), inverses))
}

/// The spreads of a direction's coordinates.
#[derive(Clone, Copy)]
pub struct DirectionSpreads {
    pub x: Spread,
    pub y: Spread,
    pub z: Spread,
}

/// The mean directions from the point to the places of the box.
pub fn direction_to(seen: &SeenPlace, point: &Point) -> DirectionSpreads
    ensures { (place move direction : Position) → HoldsVector seen.now.place place →
        IsDisplacement move →
        IsMeanDirection place (point_of point.now.x point.now.y point.now.z) move direction →
        IsInSpread result.x direction.x × IsInSpread result.y direction.y
        × IsInSpread result.z direction.z }
{
    let vector = vector_from(point, &seen.place);
    let range = length_by(&vector, 0);
    let inverses = sum_of_ranges(&range).inverses();
    DirectionSpreads {
        x: coordinate_spread(&vector.x, &range, &inverses),
        y: coordinate_spread(&vector.y, &range, &inverses),
        z: coordinate_spread(&vector.z, &range, &inverses),
    }
}

/// The mean directions from the point of a sight to its places, by the vector and the range that it has.
pub fn direction_of(sight: &SightBoxes, point: &Point) -> DirectionSpreads
    requires vector { (p : Position) → HoldsVector sight.now.place p →
        HoldsVector sight.now.vector (difference p (point_of point.now.x point.now.y point.now.z)) }
    requires narrow { IsVectorAtMostWide (pos (2 ^ 19)) sight.now.place }
    requires range_narrow { width_of sight.now.range ≤ℤ pos (2 ^ 19) }
    requires far { pos (10000000 * 2 ^ 36) ≤ℤ sight.now.range.lo }
    requires away { IsBetweenDistances 18900000 38100000 sight.now.place.x sight.now.place.y
        sight.now.place.z }
    ensures { (place move direction : Position) → HoldsVector sight.now.place place →
        IsDisplacement move →
        IsMeanDirection place (point_of point.now.x point.now.y point.now.z) move direction →
        IsInSpread result.x direction.x × IsInSpread result.y direction.y
        × IsInSpread result.z direction.z }
{
    let inverses = sum_of_ranges(&sight.range).inverses();
    DirectionSpreads {
        x: coordinate_spread(&sight.vector.x, &sight.range, &inverses),
        y: coordinate_spread(&sight.vector.y, &sight.range, &inverses),
        z: coordinate_spread(&sight.vector.z, &sight.range, &inverses),
    }
}
