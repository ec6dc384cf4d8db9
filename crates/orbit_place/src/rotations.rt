ghost use Rattle.std.specs.Prelude.{◌≡◌, ◌+◌, ◌*◌, ◌^◌, ◌≤◌, pos, ◌≤ℤ◌};
ghost use Rattle.whole_math.specs.Rational.{Rational};
ghost use Rattle.iv_core.specs.Intervals.{Holds, width_of, IsWithin};
ghost use Rattle.trig_box.specs.AnglePairs.{Pair, double, SolvesKepler};
ghost use Rattle.orbit_model.specs.Solution.{turned, IsPairOf5, IsPairOf7};
ghost use Rattle.orbit_place.specs.Rotations.{HasPairNearCircle, HoldsBoth};

use crate::ellipse::ANOMALY_WIDTH;
use iv_core::Iv;
use kepler_box::anomaly_box;
use sized_box::SizedBox;
use trig_box::pair_box;

/// 1 + 2^-10 at 2^-60: no end of a rotation's boxes is further from 0.
pub const SIZE: u64 = 1025 << 50;

// What two products of cosines and sines sum up to at most.
const SUM: u64 = 1 << 62;

const HALF: u64 = 1 << 61;

/// A box of a cosine and one of a sine, both at 2^-60 and at most WIDTH units wide. Some pair of rationals in them has a sum
/// of squares within OFF / 2^16 of 1.
#[derive(Clone, Copy, Debug)]
pub struct Rotation<const OFF: u64, const WIDTH: u64> {
    pub cos: Iv<60>,
    pub sin: Iv<60>,
    pub ghost near_circle: { ∥ HasPairNearCircle OFF cos sin ∥₁ },
    pub ghost cos_narrow: { width_of cos ≤ℤ pos WIDTH },
    pub ghost sin_narrow: { width_of sin ≤ℤ pos WIDTH },
    pub ghost close: { OFF ≤ 32 },
    pub ghost fine: { WIDTH ≤ 2 ^ 40 },
}

impl<const OFF: u64, const WIDTH: u64> Rotation<OFF, WIDTH> {
    /// The two boxes, where they are as the type says.
    pub fn new(cos: Iv<60>, sin: Iv<60>) -> Self
        requires near_circle { ∥ HasPairNearCircle OFF cos sin ∥₁ }
        requires cos_narrow { width_of cos ≤ℤ pos WIDTH }
        requires sin_narrow { width_of sin ≤ℤ pos WIDTH }
        requires close { OFF ≤ 32 }
        requires fine { WIDTH ≤ 2 ^ 40 }
        ensures cos { result.cos ≡ cos }
        ensures sin { result.sin ≡ sin }
    {
        Rotation { cos, sin }
    }

    /// The box of the cosine, with its limits.
    pub fn cosine(&self) -> SizedBox<60, SIZE, WIDTH>
        ensures { result.held ≡ self.now.cos }
    {
        SizedBox::new(self.cos)
    }

    /// The box of the sine, with its limits.
    pub fn sine(&self) -> SizedBox<60, SIZE, WIDTH>
        ensures { result.held ≡ self.now.sin }
    {
        SizedBox::new(self.sin)
    }

    /// Holds the pair of every sum of an angle of each. PART is the width of a product of two parts.
    pub fn turn<
        const OTHER_OFF: u64,
        const OTHER_WIDTH: u64,
        const PART: u64,
        const TO_OFF: u64,
        const TO_WIDTH: u64,
    >(&self, other: &Rotation<OTHER_OFF, OTHER_WIDTH>) -> Rotation<TO_OFF, TO_WIDTH>
        requires off { OFF + OTHER_OFF + 1 ≤ TO_OFF }
        requires close { TO_OFF ≤ 32 }
        requires part { SIZE * OTHER_WIDTH + SIZE * WIDTH + 2 * 2 ^ 60 ≤ (PART + 1) * 2 ^ 60 }
        requires width { PART + PART ≤ TO_WIDTH }
        requires fine { TO_WIDTH ≤ 2 ^ 40 }
        ensures holds { (p q : Pair) → HoldsBoth self.now.cos self.now.sin p →
            HoldsBoth other.now.cos other.now.sin q → HoldsBoth result.cos result.sin (turned p q) }
    {
        let (cos, sin) = (self.cosine(), self.sine());
        let (other_cos, other_sin) = (other.cosine(), other.sine());
        let both: SizedBox<60, HALF, PART> = cos.mul(&other_cos);
        let neither: SizedBox<60, HALF, PART> = sin.mul(&other_sin);
        let first: SizedBox<60, HALF, PART> = sin.mul(&other_cos);
        let second: SizedBox<60, HALF, PART> = cos.mul(&other_sin);
        let difference: SizedBox<60, SUM, TO_WIDTH> = both.sub(&neither);
        let sum: SizedBox<60, SUM, TO_WIDTH> = first.add(&second);
        Rotation::new(difference.held, sum.held)
    }

    /// Holds the pair of every double of an angle. PART is the width of a product of two parts.
    pub fn double<const PART: u64, const TO_OFF: u64, const TO_WIDTH: u64>(
        &self,
    ) -> Rotation<TO_OFF, TO_WIDTH>
        requires off { OFF + OFF + 1 ≤ TO_OFF }
        requires close { TO_OFF ≤ 32 }
        requires part { 2 * SIZE * WIDTH + 2 * 2 ^ 60 ≤ (PART + 1) * 2 ^ 60 }
        requires width { PART + PART ≤ TO_WIDTH }
        requires fine { TO_WIDTH ≤ 2 ^ 40 }
        ensures holds { (p : Pair) → HoldsBoth self.now.cos self.now.sin p →
            HoldsBoth result.cos result.sin (double p) }
    {
        let (cos, sin) = (self.cosine(), self.sine());
        let both: SizedBox<60, HALF, PART> = cos.square();
        let neither: SizedBox<60, HALF, PART> = sin.square();
        let half: SizedBox<60, HALF, PART> = sin.mul(&cos);
        let difference: SizedBox<60, SUM, TO_WIDTH> = both.sub(&neither);
        let whole: SizedBox<60, SUM, TO_WIDTH> = half.add(&half);
        Rotation::new(difference.held, whole.held)
    }
}

/// Holds every pair of every angle in the box, of at most 16 rad, by 5 doublings.
pub fn rotation_of<const ANGLE: u64, const ANGLE_WIDTH: u64, const WIDTH: u64>(
    angle: &SizedBox<56, ANGLE, ANGLE_WIDTH>,
) -> Rotation<1, WIDTH>
    requires range { ANGLE ≤ 2 ^ 60 }
    requires narrow { ANGLE_WIDTH ≤ 2 ^ 16 }
    requires width { 512 + 32 * ANGLE_WIDTH ≤ WIDTH }
    requires fine { WIDTH ≤ 2 ^ 40 }
    ensures holds { (x : Rational) (p : Pair) → Holds angle.now.held x → IsPairOf5 x p →
        HoldsBoth result.cos result.sin p }
{
    let pair = pair_box(&angle.held, 5);
    Rotation::new(pair.cos, pair.sin)
}

/// Holds every pair of every angle in the box, of at most 64 rad, by 7 doublings.
pub fn wide_rotation_of<const ANGLE: u64, const ANGLE_WIDTH: u64, const WIDTH: u64>(
    angle: &SizedBox<56, ANGLE, ANGLE_WIDTH>,
) -> Rotation<4, WIDTH>
    requires narrow { ANGLE_WIDTH ≤ 2 ^ 16 }
    requires width { 4096 + 32 * ANGLE_WIDTH ≤ WIDTH }
    requires fine { WIDTH ≤ 2 ^ 40 }
    ensures holds { (x : Rational) (p : Pair) → Holds angle.now.held x → IsPairOf7 x p →
        HoldsBoth result.cos result.sin p }
{
    let pair = pair_box(&angle.held, 7);
    Rotation::new(pair.cos, pair.sin)
}

/// The pair of the eccentric anomaly: holds that of every solution of Kepler's equation for a mean anomaly in `mean` and an
/// eccentricity in `eccentricity`. What is asked of the two is what `anomaly_box` asks.
pub fn eccentric_pair(mean: &Iv<56>, eccentricity: &Iv<60>) -> Rotation<1, ANOMALY_WIDTH>
    requires mean { IsWithin (12 * 2 ^ 56) mean.now }
    requires mean_narrow { width_of mean.now ≤ℤ pos (2 ^ 4) }
    requires eccentricity_low { pos 0 ≤ℤ eccentricity.now.lo }
    requires eccentricity_high { eccentricity.now.hi ≤ℤ pos (2 ^ 55) }
    requires eccentricity_narrow { width_of eccentricity.now ≤ℤ pos 2 }
    ensures holds { (m e angle : Rational) (p : Pair) →
        Holds mean.now m → Holds eccentricity.now e → SolvesKepler m e angle p.cos p.sin →
        HoldsBoth result.cos result.sin p }
{
    let found = anomaly_box(mean, eccentricity);
    Rotation::new(found.cos, found.sin)
}
