//! A record as a navigation file gives it.

use decimal_text::Dec;
use gps_time::Tick;

/// A GPS record of a navigation file (RINEX 3, GPS navigation message record), before it is known to be usable.
///
/// Angles are in radians, their rates in radians a second, lengths in metres, times in seconds.
#[derive(Clone, Copy, Debug)]
pub struct Raw {
    /// The satellite's number.
    pub sat: u8,
    /// The time of the clock's polynomial.
    pub toc: Tick,
    /// The clock's offset at `toc`, its drift and the rate of its drift.
    pub af0: Dec,
    pub af1: Dec,
    pub af2: Dec,
    /// Amplitude of the sine in the orbit radius' correction.
    pub crs: Dec,
    /// What the mean motion differs from the computed one (Δn).
    pub dn: Dec,
    /// The mean anomaly at `toe`.
    pub m0: Dec,
    /// Amplitude of the cosine in the correction of the argument of latitude.
    pub cuc: Dec,
    /// The eccentricity.
    pub ecc: Dec,
    /// Amplitude of the sine in the correction of the argument of latitude.
    pub cus: Dec,
    /// The square root of the semi-major axis, in √m.
    pub root_a: Dec,
    /// Amplitude of the cosine in the inclination's correction.
    pub cic: Dec,
    /// The longitude of the ascending node at the beginning of the week (Ω0).
    pub node: Dec,
    /// Amplitude of the sine in the inclination's correction.
    pub cis: Dec,
    /// The inclination at `toe` (i0).
    pub incl: Dec,
    /// Amplitude of the cosine in the orbit radius' correction.
    pub crc: Dec,
    /// The argument of perigee (ω).
    pub peri: Dec,
    /// The rate of the ascending node.
    pub node_rate: Dec,
    /// The rate of the inclination.
    pub incl_rate: Dec,
    /// The week of the ephemeris' time, which counts on without rollover.
    pub week: Dec,
    /// The ephemeris' time as a second of its week.
    pub toe_s: Dec,
    /// The satellite's health; 0 is healthy.
    pub health: Dec,
}
