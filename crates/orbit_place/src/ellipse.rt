//! A place on an ellipse: its radius and true anomaly from the eccentricity and the pair of the eccentric anomaly.
ghost use Rattle.std.specs.Prelude.{◌≡◌, ◌+◌, ◌*◌, ◌-◌, ◌^◌, ◌≤◌, pos, ◌≤ℤ◌};
ghost use Rattle.whole_math.specs.Rational.{Rational, ◌-ʳ◌, ◌*ʳ◌, two_to_minus, AreWithin, IsNearRoot};
ghost use Rattle.whole_math.specs.Boxes.{of_scale};
ghost use Rattle.iv_core.specs.Intervals.{Holds, width_of};
ghost use Rattle.trig_box.specs.AnglePairs.{Pair};
ghost use Rattle.orbit_model.specs.Solution.{one};
ghost use Rattle.orbit_place.specs.Rotations.{HoldsBoth};
ghost use Rattle.orbit_place.specs.Ellipses.{IsTrueAnomaly};

use crate::rotations::{Rotation, SIZE};
use iv_core::Iv;
use sized_box::SizedBox;

/// 1/32 at 2^-60: the greatest eccentricity.
pub const ECCENTRICITY: u64 = 1 << 55;

/// The width of the boxes of the pair of the eccentric anomaly, in units of 2^-60.
pub const ANOMALY_WIDTH: u64 = 1600;

// e cos E
const PULL: u64 = 1025 << 45;

const PULL_WIDTH: u64 = 53;

/// The greatest radius over the semi-major axis at 2^-60, 1 + 1025/2^15; 1 - 1025/2^15 is the least.
pub const RADIUS: u64 = (1 << 60) + (1025 << 45);

pub const LEAST_RADIUS: u64 = (1 << 60) - (1025 << 45);

pub const RADIUS_WIDTH: u64 = 53;

// e²
const SQUARE: u64 = 1 << 50;

const REST_WIDTH: u64 = 8;

// What is divided by the radius: cos E - e, and the root of 1 - e² times sin E.
const PART: u64 = 9 << 57;

const SHIFTED_WIDTH: u64 = 1601;

const SHORTENED_WIDTH: u64 = 1611;

const QUOTIENT: u64 = 5 << 58;

/// The width of the boxes of the pair of the true anomaly, in units of 2^-60.
pub const TRUE_WIDTH: u64 = 1733;

/// A place on an ellipse.
#[derive(Clone, Copy, Debug)]
pub struct OnEllipse {
    /// The radius over the semi-major axis: 1 - e cos E
    pub radius: SizedBox<60, RADIUS, RADIUS_WIDTH>,
    /// The pair of the true anomaly
    pub true_anomaly: Rotation<2, TRUE_WIDTH>,
    pub ghost radius_least: { pos (2 ^ 60 - 1025 * 2 ^ 45) ≤ℤ radius.held.lo },
}

/// An eccentricity e and the near-roots of 1 - e². The lower end of these is one of them, but for 2^-50.
#[derive(Clone, Copy, Debug)]
pub struct Shape {
    pub eccentricity: SizedBox<60, ECCENTRICITY, 1>,
    pub root: SizedBox<60, SIZE, REST_WIDTH>,
    pub ghost root_in: { (e w : Rational) → Holds eccentricity.held e →
        IsNearRoot w (one -ʳ e *ʳ e) → Holds root.held w },
    pub ghost root_near: { (e : Rational) → Holds eccentricity.held e → AreWithin (two_to_minus 50)
        (of_scale 60 root.held.lo *ʳ of_scale 60 root.held.lo) (one -ʳ e *ʳ e) },
}

impl Shape {
    /// The shape of an ellipse of that eccentricity.
    pub fn of(eccentricity: &SizedBox<60, ECCENTRICITY, 1>) -> Shape
        ensures { result.eccentricity.held ≡ eccentricity.now.held }
    {
        Shape {
            eccentricity: *eccentricity,
            root: root_of_rest(eccentricity),
        }
    }
}

fn one() -> Iv<60>
    ensures lo { result.lo ≡ pos (2 ^ 60) }
    ensures hi { result.hi ≡ pos (2 ^ 60) }
{
    Iv::from_ends(1 << 60, 1 << 60)
}

// 1 - e cos E
fn radius_of(
    eccentricity: &SizedBox<60, ECCENTRICITY, 1>,
    anomaly: &Rotation<1, ANOMALY_WIDTH>,
) -> SizedBox<60, RADIUS, RADIUS_WIDTH>
    ensures holds { (e : Rational) (p : Pair) → Holds eccentricity.now.held e →
        HoldsBoth anomaly.now.cos anomaly.now.sin p → Holds result.held (one -ʳ e *ʳ p.cos) }
    ensures least { pos (2 ^ 60 - 1025 * 2 ^ 45) ≤ℤ result.held.lo }
{
    let pull: SizedBox<60, PULL, PULL_WIDTH> = eccentricity.mul(&anomaly.cosine());
    SizedBox::new(one().difference_of(&pull.held))
}

// 1 - e²
fn rest_of(eccentricity: &SizedBox<60, ECCENTRICITY, 1>) -> Iv<60>
    ensures holds { (e : Rational) → Holds eccentricity.now.held e → Holds result (one -ʳ e *ʳ e) }
    ensures low { pos (2 ^ 60 - 2 ^ 50) ≤ℤ result.lo }
    ensures high { result.hi ≤ℤ pos (2 ^ 60 + 2 ^ 50) }
    ensures narrow { width_of result ≤ℤ pos 2 }
{
    let square: SizedBox<60, SQUARE, 2> = eccentricity.square();
    one().difference_of(&square.held)
}

// Near-roots of 1 - e²; the lower end is one of them, but for 2^-50
fn root_of_rest(eccentricity: &SizedBox<60, ECCENTRICITY, 1>) -> SizedBox<60, SIZE, REST_WIDTH>
    ensures holds { (e w : Rational) → Holds eccentricity.now.held e →
        IsNearRoot w (one -ʳ e *ʳ e) → Holds result.held w }
    ensures near { (e : Rational) → Holds eccentricity.now.held e → AreWithin (two_to_minus 50)
        (of_scale 60 result.held.lo *ʳ of_scale 60 result.held.lo) (one -ʳ e *ʳ e) }
{
    SizedBox::new(rest_of(eccentricity).root_to::<60>())
}

/// The radius and the true anomaly, from the eccentricity and the pair of the eccentric anomaly.
pub fn on_ellipse(shape: &Shape, anomaly: &Rotation<1, ANOMALY_WIDTH>) -> OnEllipse
    ensures radius { (e : Rational) (p : Pair) → Holds shape.now.eccentricity.held e →
        HoldsBoth anomaly.now.cos anomaly.now.sin p → Holds result.radius.held (one -ʳ e *ʳ p.cos) }
    ensures true_anomaly { (e w : Rational) (p v : Pair) → Holds shape.now.eccentricity.held e →
        HoldsBoth anomaly.now.cos anomaly.now.sin p → IsNearRoot w (one -ʳ e *ʳ e) →
        IsTrueAnomaly e w p v → HoldsBoth result.true_anomaly.cos result.true_anomaly.sin v }
{
    let radius = radius_of(&shape.eccentricity, anomaly);
    let shifted: SizedBox<60, PART, SHIFTED_WIDTH> = anomaly.cosine().sub(&shape.eccentricity);
    let shortened: SizedBox<60, PART, SHORTENED_WIDTH> = shape.root.mul(&anomaly.sine());
    let cos = shifted.div::<60, RADIUS, RADIUS_WIDTH, LEAST_RADIUS, 60, QUOTIENT, TRUE_WIDTH>(
        &radius,
    );
    let sin = shortened.div::<60, RADIUS, RADIUS_WIDTH, LEAST_RADIUS, 60, QUOTIENT, TRUE_WIDTH>(
        &radius,
    );
    let true_anomaly = Rotation::new(cos.held, sin.held);
    OnEllipse {
        radius,
        true_anomaly,
    }
}
