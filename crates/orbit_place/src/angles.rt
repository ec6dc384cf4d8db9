//! The inclination and the longitude of the ascending node at the time of sending.
ghost use Rattle.std.specs.Prelude.{◌*◌, ◌<◌, pos};
ghost use Rattle.whole_math.specs.Rational.{Rational, ◌+ʳ◌, ◌-ʳ◌, ◌*ʳ◌, times, of_whole};
ghost use Rattle.iv_core.specs.Intervals.{Holds};
ghost use Rattle.orbit_model.specs.Elements.{earth_rate};
ghost use Rattle.orbit_place.specs.Rotations.{HoldsBoth};
ghost use Rattle.orbit_place.specs.Held.{ForSolutions};

use crate::orbit::{ANGLE, EPOCH_TIME, Orbit, SMALL, TINY};
use crate::plane::{ANGLE_CHANGE, ANGLE_CHANGE_WIDTH, TWICE_WIDTH, angle_change};
use crate::rotations::{Rotation, rotation_of, wide_rotation_of};
use iv_core::Iv;
use orbit_model::EARTH_ROTATION;
use sized_box::SizedBox;

// What the inclination turns by since the reference epoch.
const TILT: u64 = 1 << 43;

const START: u64 = 17 << 55;

const INCLINATION: u64 = 9 << 56;

const INCLINED_WIDTH: u64 = 11;

pub const INCLINATION_WIDTH: u64 = 864;

// The Earth's rate, in 10^-4 rad/s
const EARTH_RATE: u64 = 47 << 54;

/// The greatest rate of the node less the Earth's, at 2^-60 of 10^-4 rad/s.
pub const RELATIVE_RATE: u64 = 3 << 58;

// What the node turns by
const DRIFT: u64 = 3 << 54;

const DRIFTED: u64 = 9 << 56;

/// The most that the Earth turns by from the week's begin to the reference epoch, at 2^-56.
pub const EARTH_TURN: u64 = 45 << 56;

const LONGITUDE: u64 = 54 << 56;

const LONGITUDE_WIDTH: u64 = 4;

pub const NODE_WIDTH: u64 = 4224;

// i0 + δi + IDOT tk
fn inclined(
    start: &SizedBox<56, ANGLE, 1>,
    change: &SizedBox<56, ANGLE_CHANGE, ANGLE_CHANGE_WIDTH>,
    rate: &SizedBox<60, TINY, 1>,
    time: &SizedBox<60, EPOCH_TIME, 3>,
) -> SizedBox<56, INCLINATION, INCLINED_WIDTH>
    ensures holds { (i d r t : Rational) → Holds start.now.held i → Holds change.now.held d →
        Holds rate.now.held r → Holds time.now.held t → Holds result.held (i +ʳ d +ʳ r *ʳ t) }
{
    let tilt: SizedBox<56, TILT, 2> = rate.mul(time);
    let changed: SizedBox<56, START, 9> = start.add(change);
    changed.add(&tilt)
}

// The Earth's rate in 10^-4 rad/s
fn earth_rate() -> SizedBox<60, EARTH_RATE, 1>
    ensures { Holds result.held (times 10000 earth_rate) }
{
    SizedBox::new(Iv::ratio(EARTH_ROTATION as i128, 100_000_000_000).unwrap())
}

/// The rate of the node less the Earth's, in 10^-4 rad/s.
pub fn relative_rate(rate: &SizedBox<60, SMALL, 1>) -> SizedBox<60, RELATIVE_RATE, 2>
    ensures { (r : Rational) → Holds rate.now.held r →
        Holds result.held (r -ʳ times 10000 earth_rate) }
{
    rate.sub(&earth_rate())
}

/// The angle by which the Earth turns in `second` seconds of a week, in radians.
pub fn earth_turn(second: u32) -> SizedBox<56, EARTH_TURN, 1>
    requires { second < 604800 }
    ensures { Holds result.held (earth_rate *ʳ of_whole (pos second)) }
{
    let angle = EARTH_ROTATION as i128 * second as i128;
    SizedBox::new(Iv::ratio(angle, 1_000_000_000_000_000).unwrap())
}

// Ω0 + (Ωdot - Ωe) tk - Ωe toe
fn longitude_of(
    start: &SizedBox<56, ANGLE, 1>,
    rate: &SizedBox<60, RELATIVE_RATE, 2>,
    time: &SizedBox<60, EPOCH_TIME, 3>,
    earth_turn: &SizedBox<56, EARTH_TURN, 1>,
) -> SizedBox<56, LONGITUDE, LONGITUDE_WIDTH>
    ensures holds { (n r t w : Rational) → Holds start.now.held n → Holds rate.now.held r →
        Holds time.now.held t → Holds earth_turn.now.held w → Holds result.held (n +ʳ r *ʳ t -ʳ w) }
{
    let drift: SizedBox<56, DRIFT, 2> = rate.mul(time);
    let drifted: SizedBox<56, DRIFTED, 3> = start.add(&drift);
    drifted.sub(earth_turn)
}

/// The pair of the inclination.
pub fn inclination_of(
    orbit: &Orbit,
    twice: &Rotation<9, TWICE_WIDTH>,
) -> Rotation<1, INCLINATION_WIDTH>
    ensures holds { ForSolutions orbit.now (λ q. HoldsBoth twice.now.cos twice.now.sin
        q.twice_pair → HoldsBoth result.cos result.sin q.inclination_pair) }
{
    let change = angle_change(&orbit.cis, &orbit.cic, twice);
    let angle = inclined(
        &orbit.inclination,
        &change,
        &orbit.inclination_rate,
        &orbit.epoch_time,
    );
    rotation_of(&angle)
}

/// The pair of the longitude of the ascending node.
pub fn node_of(orbit: &Orbit) -> Rotation<4, NODE_WIDTH>
    ensures holds { ForSolutions orbit.now (λ q. HoldsBoth result.cos result.sin q.node_pair) }
{
    let angle = longitude_of(
        &orbit.node,
        &orbit.node_rate,
        &orbit.epoch_time,
        &orbit.earth_turn,
    );
    wide_rotation_of(&angle)
}
