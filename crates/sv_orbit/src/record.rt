//! The place and the clock of a record's satellite.
ghost use Rattle.std.specs.Prelude.{◌≡◌, ◌*◌, ◌^◌, ◌<◌, ◌≤◌, pos, ◌≤ℤ◌};
ghost use Rattle.std.specs.Int.{abs_diff};
ghost use Rattle.whole_math.specs.Rational.{Rational, ◌≈◌, ◌-ʳ◌, ◌*ʳ◌, times};
ghost use Rattle.iv_core.specs.Intervals.{Holds};
ghost use Rattle.orbit_model.specs.Elements.{Constants, earth_rate, sent_at, elements_of, gps};
ghost use Rattle.trig_box.specs.AnglePairs.{Pair};
ghost use Rattle.orbit_model.specs.Solution.{Quantities, IsNearSolution, with_share, IsPairOf5};
ghost use Rattle.sv_orbit.specs.Records.{constants_of};
ghost use Rattle.sv_orbit.specs.Timings.{HoldsTiming};
ghost use Rattle.orbit_place.specs.Held.{HoldsOrbit};
ghost use Rattle.orbit_place.specs.Rotations.{HoldsBoth};
ghost use Rattle.sv_orbit.specs.Solutions.{HoldsSolution};

use crate::{AXIS, ClockRecord, SvBox, Timing, World, axis, decimal_box, timing_at};
use eph_store::Eph;
use gps_time::Tick;
use orbit_place::{
    ANGLE, EARTH_TURN, Orbit, PERIGEE_WIDTH, RADIUS_CHANGE, RELATIVE_RATE, Rotation, SMALL, Shape,
    TINY, earth_turn, eccentric_pair, place_of, relative_rate, rotation_of,
};
use sized_box::SizedBox;

/// A record with the constants of its system, and boxes of all that its satellite's place and clock are made from: what does not
/// depend on the time, made once for the record.
#[derive(Clone, Copy, Debug)]
pub struct SvRecord {
    /// What the clock's correction and Kepler's equation take.
    pub clock: ClockRecord,
    /// e
    pub shape: Shape,
    /// A, in metres
    pub axis: SizedBox<36, AXIS, 4>,
    /// The pair of ω
    pub perigee: Rotation<1, PERIGEE_WIDTH>,
    /// i0 and Ω0, in radians
    pub inclination: SizedBox<56, ANGLE, 1>,
    pub node: SizedBox<56, ANGLE, 1>,
    /// The rate of i, and that of Ω less the Earth's, in 10^-4 rad/s
    pub inclination_rate: SizedBox<60, TINY, 1>,
    pub node_rate: SizedBox<60, RELATIVE_RATE, 2>,
    /// What the Earth turns by from the week's begin to the reference epoch, in radians
    pub earth_turn: SizedBox<56, EARTH_TURN, 1>,
    /// The amplitudes of the corrections of u and i, in radians, and of r, in metres
    pub cuc: SizedBox<60, SMALL, 1>,
    pub cus: SizedBox<60, SMALL, 1>,
    pub cic: SizedBox<60, SMALL, 1>,
    pub cis: SizedBox<60, SMALL, 1>,
    pub crc: SizedBox<40, RADIUS_CHANGE, 1>,
    pub crs: SizedBox<40, RADIUS_CHANGE, 1>,
    pub ghost eccentricity_in: { Holds shape.eccentricity.held (elements_of clock.eph).ecc },
    pub ghost axis_in: { (x : Rational) →
        x ≈ (elements_of clock.eph).root_a *ʳ (elements_of clock.eph).root_a → Holds axis.held x },
    pub ghost axis_least: { pos (20249999 * 2 ^ 36) ≤ℤ axis.held.lo },
    pub ghost perigee_in: { (p : Pair) → IsPairOf5 (elements_of clock.eph).peri p →
        HoldsBoth perigee.cos perigee.sin p },
    pub ghost inclination_in: { Holds inclination.held (elements_of clock.eph).incl },
    pub ghost node_in: { Holds node.held (elements_of clock.eph).node },
    pub ghost inclination_rate_in: { Holds inclination_rate.held
        (times (10 ^ 4) (elements_of clock.eph).incl_rate) },
    pub ghost node_rate_in: { Holds node_rate.held
        (times (10 ^ 4) (elements_of clock.eph).node_rate -ʳ times (10 ^ 4) earth_rate) },
    pub ghost earth_turn_in: { Holds earth_turn.held
        (earth_rate *ʳ (elements_of clock.eph).toe_second) },
    pub ghost cuc_in: { Holds cuc.held (elements_of clock.eph).cuc },
    pub ghost cus_in: { Holds cus.held (elements_of clock.eph).cus },
    pub ghost cic_in: { Holds cic.held (elements_of clock.eph).cic },
    pub ghost cis_in: { Holds cis.held (elements_of clock.eph).cis },
    pub ghost crc_in: { Holds crc.held (elements_of clock.eph).crc },
    pub ghost crs_in: { Holds crs.held (elements_of clock.eph).crs },
}

// The pair of ω
fn perigee(eph: &Eph) -> Rotation<1, PERIGEE_WIDTH>
    ensures { (p : Pair) → IsPairOf5 (elements_of eph.now).peri p →
        HoldsBoth result.cos result.sin p }
{
    rotation_of(&decimal_box::<56, 65, 1, 0, ANGLE>(eph.peri))
}

impl SvRecord {
    /// The boxes of a record, with the constants of its system.
    pub fn of(eph: &Eph, world: &World) -> SvRecord
        ensures eph { result.clock.eph ≡ eph.now }
        ensures world { result.clock.world ≡ world.now }
    {
        let clock = ClockRecord::of(eph, world);
        SvRecord {
            clock,
            shape: Shape::of(&clock.eccentricity),
            axis: axis(eph),
            perigee: perigee(eph),
            inclination: decimal_box::<56, 65, 1, 0, ANGLE>(eph.incl),
            node: decimal_box::<56, 65, 1, 0, ANGLE>(eph.node),
            inclination_rate: decimal_box::<60, 1, 8, 4, TINY>(eph.incl_rate),
            node_rate: relative_rate(&decimal_box::<60, 1, 7, 4, SMALL>(eph.node_rate)),
            earth_turn: earth_turn(eph.toe_second),
            cuc: decimal_box::<60, 1, 3, 0, SMALL>(eph.cuc),
            cus: decimal_box::<60, 1, 3, 0, SMALL>(eph.cus),
            cic: decimal_box::<60, 1, 3, 0, SMALL>(eph.cic),
            cis: decimal_box::<60, 1, 3, 0, SMALL>(eph.cis),
            crc: decimal_box::<40, 10_000, 0, 0, RADIUS_CHANGE>(eph.crc),
            crs: decimal_box::<40, 10_000, 0, 0, RADIUS_CHANGE>(eph.crs),
        }
    }
}

// What the place is made from
fn orbit_of(made: &SvRecord, timing: &Timing) -> Orbit
    ensures { (sent : Rational) (world : Constants) (q : Quantities)
        (near : IsNearSolution world (elements_of made.now.clock.eph) sent q) →
        HoldsTiming timing.now q →
        HoldsOrbit result (with_share (elements_of made.now.clock.eph) near.share) q }
{
    let eccentricity = made.clock.eccentricity.held;
    Orbit {
        shape: made.shape,
        anomaly: eccentric_pair(&timing.mean.held, &eccentricity),
        axis: made.axis,
        epoch_time: timing.epoch_time.loose(),
        perigee: made.perigee,
        inclination: made.inclination,
        node: made.node,
        inclination_rate: made.inclination_rate,
        node_rate: made.node_rate,
        cuc: made.cuc,
        cus: made.cus,
        cic: made.cic,
        cis: made.cis,
        crc: made.crc,
        crs: made.crs,
        earth_turn: made.earth_turn,
    }
}

/// The place and the clock of the record's satellite when it sent what was received at the tag with the code, in mm:
/// tag less code over c, by the satellite's own clock. The boxes hold every solution with the constants of its system.
///
/// The tag is at most 7201 s from the ephemeris' time.
pub fn sv_from(made: &SvRecord, tag: Tick, code: i64) -> SvBox
    requires near { abs_diff tag.0 made.now.clock.eph.toe.0 ≤ 72010000000 }
    requires code_low { pos 0 ≤ℤ code }
    requires code_high { code ≤ℤ pos (10 ^ 11) }
    ensures { (q : Quantities) → IsNearSolution (constants_of made.now.clock.world)
        (elements_of made.now.clock.eph) (sent_at tag.0 code) q → HoldsSolution result q }
{
    let timing = timing_at(&made.clock, tag, code);
    let orbit = orbit_of(made, &timing);
    SvBox {
        place: place_of(&orbit),
        clock: timing.clock.held,
    }
}

/// The boxes from the record itself, with the constants of that system.
pub fn sv_with(eph: &Eph, tag: Tick, code: i64, world: &World) -> SvBox
    requires near { abs_diff tag.0 eph.now.toe.0 ≤ 72010000000 }
    requires code_low { pos 0 ≤ℤ code }
    requires code_high { code ≤ℤ pos (10 ^ 11) }
    ensures { (q : Quantities) →
        IsNearSolution (constants_of world.now) (elements_of eph.now) (sent_at tag.0 code) q →
        HoldsSolution result q }
{
    sv_from(&SvRecord::of(eph, world), tag, code)
}

/// The same with the constants of IS-GPS-200. It serves tests alone.
pub fn sv_at(eph: &Eph, tag: Tick, code: i64) -> SvBox
    requires near { abs_diff tag.0 eph.now.toe.0 ≤ 72010000000 }
    requires code_low { pos 0 ≤ℤ code }
    requires code_high { code ≤ℤ pos (10 ^ 11) }
    ensures { (q : Quantities) → IsNearSolution gps (elements_of eph.now) (sent_at tag.0 code) q →
        HoldsSolution result q }
{
    sv_with(eph, tag, code, &World::gps())
}
