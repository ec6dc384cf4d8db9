//! The numbers of an orbit, and how large they are.
ghost use Rattle.std.specs.Prelude.{◌*◌, ◌^◌, pos, ◌≤ℤ◌};

use crate::angles::{EARTH_TURN, RELATIVE_RATE};
use crate::ellipse::{ANOMALY_WIDTH, Shape};
use crate::plane::PERIGEE_WIDTH;
use crate::rotations::Rotation;
use sized_box::SizedBox;

/// 36,000 km at 2^-36 m: the greatest semi-major axis.
pub const AXIS: u64 = 36_000_000 << 36;

/// 10^4 s at 2^-60 of it: no time since the reference epoch is longer.
pub const EPOCH_TIME: u64 = 1 << 60;

/// 8 rad at 2^-56: no angle of a record is larger.
pub const ANGLE: u64 = 1 << 59;

/// 1/512 at 2^-60: no amplitude of a correction of an angle, in rad, and no rate of the node, in 10^-4 rad/s, is larger.
pub const SMALL: u64 = 1 << 51;

/// 1/8192 at 2^-60: no rate of the inclination, in 10^-4 rad/s, is larger.
pub const TINY: u64 = 1 << 47;

/// 10 km at 2^-40 m: the greatest amplitude of a correction of the radius.
pub const RADIUS_CHANGE: u64 = 10_000 << 40;

/// What a satellite's place is made from: boxes of the numbers of a record, and of what its clock and Kepler's equation give.
#[derive(Clone, Copy, Debug)]
pub struct Orbit {
    /// e
    pub shape: Shape,
    /// The pair of E
    pub anomaly: Rotation<1, ANOMALY_WIDTH>,
    /// A, in metres
    pub axis: SizedBox<36, AXIS, 4>,
    /// tk, in 10^4 s
    pub epoch_time: SizedBox<60, EPOCH_TIME, 3>,
    /// The pair of ω
    pub perigee: Rotation<1, PERIGEE_WIDTH>,
    /// i0 and Ω0, in radians
    pub inclination: SizedBox<56, ANGLE, 1>,
    pub node: SizedBox<56, ANGLE, 1>,
    /// The rate of i, and that of Ω less the Earth's, in 10^-4 rad/s
    pub inclination_rate: SizedBox<60, TINY, 1>,
    pub node_rate: SizedBox<60, RELATIVE_RATE, 2>,
    /// The amplitudes of the corrections of u and i, in radians, and of r, in metres
    pub cuc: SizedBox<60, SMALL, 1>,
    pub cus: SizedBox<60, SMALL, 1>,
    pub cic: SizedBox<60, SMALL, 1>,
    pub cis: SizedBox<60, SMALL, 1>,
    pub crc: SizedBox<40, RADIUS_CHANGE, 1>,
    pub crs: SizedBox<40, RADIUS_CHANGE, 1>,
    /// What the Earth turns by from the week's begin to the reference epoch, in radians
    pub earth_turn: SizedBox<56, EARTH_TURN, 1>,
    pub ghost axis_least: { pos (20249999 * 2 ^ 36) ≤ℤ axis.held.lo },
}
