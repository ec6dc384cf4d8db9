//! The point pair of one angle, from which boxes of the pairs of all angles nearby are made.
ghost use Rattle.std.specs.Prelude.{◌≡◌, ◌*◌, ◌^◌, ◌≤◌, pos, ◌+ℤ◌, ◌-ℤ◌, ◌*ℤ◌, neg_ℤ, ◌≤ℤ◌, unsigned_abs};
ghost use Rattle.whole_math.specs.Rational.{Rational, InBox};
ghost use Rattle.trig_box.specs.AnglePairs.{IsAnglePair};
ghost use Rattle.trig_box.specs.PairBoxes.{HoldsPair, AreAtMostWide, HasEndsWithin};
ghost use Rattle.trig_box.specs.Chain.{code_pair};

use crate::{PairBox, around, pad_for, point_pair, small_point_pair};

/// An angle in units of 2^-56, of at most 16 rad, and the cosine and the sine that 5 doublings lead to, in units of 2^-62.
#[derive(Clone, Copy, Debug)]
pub struct PointPair {
    pub angle: i64,
    pub cos: i64,
    pub sin: i64,
    pub ghost range: { unsigned_abs angle ≤ 2 ^ 60 },
    pub ghost cos_is: { cos ≡ (code_pair 5 angle).cos },
    pub ghost sin_is: { sin ≡ (code_pair 5 angle).sin },
    pub ghost cos_size: { unsigned_abs cos ≤ 3 * 2 ^ 61 },
    pub ghost sin_size: { unsigned_abs sin ≤ 3 * 2 ^ 61 },
}

impl PointPair {
    /// The pair of an angle.
    pub fn of(angle: i64) -> PointPair
        requires { unsigned_abs angle ≤ 2 ^ 60 }
        ensures { result.angle ≡ angle }
    {
        let (cos, sin) = point_pair(angle, 5);
        PointPair { angle, cos, sin }
    }

    /// The same for an angle below 2^-16 rad, by shorter sums.
    pub fn of_small(angle: i64) -> PointPair
        requires { unsigned_abs angle ≤ 2 ^ 40 }
        ensures { result.angle ≡ angle }
    {
        let (cos, sin) = small_point_pair(angle);
        PointPair { angle, cos, sin }
    }

    /// Boxes of every pair of every angle within `radius` of this one: those that `pair_box` makes of these angles.
    pub fn within(&self, radius: i64) -> PairBox
        requires radius_low { pos 0 ≤ℤ radius }
        requires radius_high { radius ≤ℤ pos (2 ^ 15) }
        requires low { neg_ℤ (pos (2 ^ 60)) ≤ℤ (self.now.angle -ℤ radius) }
        requires high { (self.now.angle +ℤ radius) ≤ℤ pos (2 ^ 60) }
        ensures holds { (a c s : Rational) →
            InBox 56 (self.now.angle -ℤ radius) (self.now.angle +ℤ radius) a → IsAnglePair 5 a c s →
            HoldsPair result c s }
        ensures width { AreAtMostWide (pos 512 +ℤ (pos 64 *ℤ radius)) result }
        ensures ends { HasEndsWithin (9 * 2 ^ 57) result }
    {
        let pad = pad_for(5, radius);
        let cos = around(self.cos, pad);
        let sin = around(self.sin, pad);
        PairBox { cos, sin }
    }
}
