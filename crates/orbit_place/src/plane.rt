//! The place in the plane of the orbit: the argument of latitude and the radius, both corrected.
ghost use Rattle.std.specs.Prelude.{◌-◌, ◌*◌, ◌^◌, ◌≤◌, pos, ◌≤ℤ◌};
ghost use Rattle.whole_math.specs.Rational.{Rational, ◌+ʳ◌, ◌*ʳ◌};
ghost use Rattle.iv_core.specs.Intervals.{Holds};
ghost use Rattle.trig_box.specs.AnglePairs.{Pair};
ghost use Rattle.orbit_model.specs.Solution.{harmonic, turned, IsPairOf5};
ghost use Rattle.orbit_place.specs.Rotations.{HoldsBoth};
ghost use Rattle.orbit_place.specs.Held.{ForSolutions};

use crate::ellipse::{RADIUS, RADIUS_WIDTH, TRUE_WIDTH, on_ellipse};
use crate::orbit::{AXIS, Orbit, RADIUS_CHANGE, SMALL};
use crate::rotations::{Rotation, rotation_of};
use sized_box::SizedBox;

/// The width of the boxes of the perigee's pair, in units of 2^-60.
pub const PERIGEE_WIDTH: u64 = 544;

// The argument of latitude, before its correction, and twice it.
const LATITUDE_PART: u64 = 2281;

const LATITUDE_WIDTH: u64 = 4562;

const TWICE_PART: u64 = 9134;

pub const TWICE_WIDTH: u64 = 18_268;

// A correction of an angle and its two terms.
const ANGLE_TERM: u64 = 1 << 48;

pub const ANGLE_CHANGE: u64 = 1 << 49;

pub const ANGLE_CHANGE_WIDTH: u64 = 8;

const CHANGE_WIDTH: u64 = 768;

const CORRECTED_PART: u64 = 5337;

pub const CORRECTED_WIDTH: u64 = 10_674;

// The correction of the radius and its two terms, in units of 2^-36 m.
const RADIUS_TERM: u64 = 10_010 << 36;

const CORRECTION: u64 = 20_020 << 36;

const CORRECTION_WIDTH: u64 = 24;

// The radius without its correction, and with it.
const BARE_RADIUS: u64 = 37_127_000 << 36;

const BARE_WIDTH: u64 = 119;

pub const GREATEST_RADIUS: u64 = 37_150_000 << 36;

pub const GREATEST_RADIUS_WIDTH: u64 = 143;

/// The radius in metres, the pair of the corrected argument of latitude, and that of twice the argument before.
#[derive(Clone, Copy, Debug)]
pub struct InPlane {
    pub radius: SizedBox<36, GREATEST_RADIUS, GREATEST_RADIUS_WIDTH>,
    pub latitude: Rotation<6, CORRECTED_WIDTH>,
    pub twice: Rotation<9, TWICE_WIDTH>,
    pub ghost radius_least: { pos (19590000 * 2 ^ 36) ≤ℤ radius.held.lo },
}

// ν + ω
fn latitude_of(
    true_anomaly: &Rotation<2, TRUE_WIDTH>,
    perigee: &Rotation<1, PERIGEE_WIDTH>,
) -> Rotation<4, LATITUDE_WIDTH>
    ensures holds { (p q : Pair) → HoldsBoth true_anomaly.now.cos true_anomaly.now.sin p →
        HoldsBoth perigee.now.cos perigee.now.sin q → HoldsBoth result.cos result.sin (turned p q) }
{
    true_anomaly.turn::<1, PERIGEE_WIDTH, LATITUDE_PART, 4, LATITUDE_WIDTH>(perigee)
}

/// A correction of an angle, in radians: s sin 2Φ + c cos 2Φ
pub fn angle_change(
    s: &SizedBox<60, SMALL, 1>,
    c: &SizedBox<60, SMALL, 1>,
    twice: &Rotation<9, TWICE_WIDTH>,
) -> SizedBox<56, ANGLE_CHANGE, ANGLE_CHANGE_WIDTH>
    ensures holds { (x y : Rational) (p : Pair) → Holds s.now.held x → Holds c.now.held y →
        HoldsBoth twice.now.cos twice.now.sin p → Holds result.held (harmonic x y p) }
{
    let sine: SizedBox<56, ANGLE_TERM, 4> = s.mul(&twice.sine());
    let cosine: SizedBox<56, ANGLE_TERM, 4> = c.mul(&twice.cosine());
    sine.add(&cosine)
}

// The correction of the radius, in metres: s sin 2Φ + c cos 2Φ
fn radius_change(
    s: &SizedBox<40, RADIUS_CHANGE, 1>,
    c: &SizedBox<40, RADIUS_CHANGE, 1>,
    twice: &Rotation<9, TWICE_WIDTH>,
) -> SizedBox<36, CORRECTION, CORRECTION_WIDTH>
    ensures holds { (x y : Rational) (p : Pair) → Holds s.now.held x → Holds c.now.held y →
        HoldsBoth twice.now.cos twice.now.sin p → Holds result.held (harmonic x y p) }
{
    let sine: SizedBox<36, RADIUS_TERM, 12> = s.mul(&twice.sine());
    let cosine: SizedBox<36, RADIUS_TERM, 12> = c.mul(&twice.cosine());
    sine.add(&cosine)
}

// Φ + δu
fn corrected(
    latitude: &Rotation<4, LATITUDE_WIDTH>,
    change: &SizedBox<56, ANGLE_CHANGE, ANGLE_CHANGE_WIDTH>,
) -> Rotation<6, CORRECTED_WIDTH>
    ensures holds { (x : Rational) (p q : Pair) → HoldsBoth latitude.now.cos latitude.now.sin p →
        Holds change.now.held x → IsPairOf5 x q → HoldsBoth result.cos result.sin (turned p q) }
{
    let turn: Rotation<1, CHANGE_WIDTH> = rotation_of(change);
    latitude.turn::<1, CHANGE_WIDTH, CORRECTED_PART, 6, CORRECTED_WIDTH>(&turn)
}

// A (1 - e cos E) + δr
fn radius_of(
    axis: &SizedBox<36, AXIS, 4>,
    share: &SizedBox<60, RADIUS, RADIUS_WIDTH>,
    change: &SizedBox<36, CORRECTION, CORRECTION_WIDTH>,
) -> SizedBox<36, GREATEST_RADIUS, GREATEST_RADIUS_WIDTH>
    requires axis_least { pos (20249999 * 2 ^ 36) ≤ℤ axis.now.held.lo }
    requires share_least { pos (2 ^ 60 - 1025 * 2 ^ 45) ≤ℤ share.now.held.lo }
    ensures holds { (x y z : Rational) → Holds axis.now.held x → Holds share.now.held y →
        Holds change.now.held z → Holds result.held (x *ʳ y +ʳ z) }
    ensures least { pos (19590000 * 2 ^ 36) ≤ℤ result.held.lo }
{
    let bare: SizedBox<36, BARE_RADIUS, BARE_WIDTH> = axis.mul(share);
    bare.add(change)
}

/// The place in the plane of the orbit.
pub fn in_plane(orbit: &Orbit) -> InPlane
    ensures radius { ForSolutions orbit.now (λ q. Holds result.radius.held q.radius) }
    ensures latitude { ForSolutions orbit.now (λ q.
        HoldsBoth result.latitude.cos result.latitude.sin q.corrected_pair) }
    ensures twice { ForSolutions orbit.now (λ q.
        HoldsBoth result.twice.cos result.twice.sin q.twice_pair) }
{
    let ellipse = on_ellipse(&orbit.shape, &orbit.anomaly);
    let argument = latitude_of(&ellipse.true_anomaly, &orbit.perigee);
    let twice = argument.double::<TWICE_PART, 9, TWICE_WIDTH>();
    let change = angle_change(&orbit.cus, &orbit.cuc, &twice);
    let correction = radius_change(&orbit.crs, &orbit.crc, &twice);
    let latitude = corrected(&argument, &change);
    let radius = radius_of(&orbit.axis, &ellipse.radius, &correction);
    InPlane {
        radius,
        latitude,
        twice,
    }
}
