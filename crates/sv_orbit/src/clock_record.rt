//! What a record and a system say at every time.
ghost use Rattle.std.specs.Prelude.{◌≡◌, ◌^◌, pos, ◌≤ℤ◌};
ghost use Rattle.whole_math.specs.Rational.{Rational, ◌+ʳ◌, ◌*ʳ◌, times, two_to_minus, IsAtMostInSize};
ghost use Rattle.whole_math.specs.Boxes.{of_scale};
ghost use Rattle.iv_core.specs.Intervals.{Holds};
ghost use Rattle.orbit_model.specs.Solution.{Quantities, IsNearSolution, with_share};
ghost use Rattle.sv_orbit.specs.Records.{constants_of};
ghost use Rattle.orbit_model.specs.Elements.{elements_of};

use crate::correction::{AGING, BIAS, DRIFT, OWN_BIAS};
use crate::quotient::quotient;
use crate::shape::{
    ECCENTRICITY, MOTION, MOTION_WIDTH, TEN_THOUSAND, eccentricity, mean_motion, root_of_axis,
    ten_thousand,
};
use crate::{World, decimal_box};
use decimal_text::Dec;
use eph_store::Eph;
use iv_core::Iv;
use sized_box::SizedBox;

/// 6.5 at 2^-56
pub const ANGLE: u64 = 13 << 55;

// F at 2^-60 of 10^-4 s/√m, and with √A, with e, and in s
const FACTOR: u64 = 5_123_000_000_000;

const BY_ROOT: u64 = 30_738_000_000_000_000;

const BY_ECCENTRICITY: u64 = 960_600_000_000_000;

pub const RELATIVITY: u64 = 96_100_000_000;

/// A record with the constants of its system, and boxes of what the clock's correction and Kepler's equation take from them at every
/// time. They are made once for a record, not at each time.
#[derive(Clone, Copy, Debug)]
pub struct ClockRecord {
    pub eph: Eph,
    pub world: World,
    /// af0 and each share of af2 that a near solution has, in s
    pub bias: SizedBox<60, BIAS, 3>,
    /// af1, in 10^-4
    pub drift: SizedBox<60, DRIFT, 1>,
    /// af2, in 10^-8 1/s
    pub aging: SizedBox<60, AGING, 1>,
    /// e
    pub eccentricity: SizedBox<60, ECCENTRICITY, 1>,
    /// M0, in radians
    pub start: SizedBox<56, ANGLE, 1>,
    /// n, in 10^-4 rad/s
    pub motion: SizedBox<60, MOTION, MOTION_WIDTH>,
    /// F e √A, in s
    pub relativity: SizedBox<60, RELATIVITY, 2>,
    pub ghost bias_in: { (share : Rational) → IsAtMostInSize (two_to_minus 44) share →
        Holds bias.held (with_share (elements_of eph) share).af0 },
    pub ghost drift_in: { Holds drift.held (times (10 ^ 4) (elements_of eph).af1) },
    pub ghost aging_in: { Holds aging.held (times (10 ^ 8) (elements_of eph).af2) },
    pub ghost eccentricity_in: { Holds eccentricity.held (elements_of eph).ecc },
    pub ghost eccentricity_low: { pos 0 ≤ℤ eccentricity.held.lo },
    pub ghost start_in: { Holds start.held (elements_of eph).m0 },
    pub ghost motion_in: { (sent : Rational) (q : Quantities) →
        IsNearSolution (constants_of world) (elements_of eph) sent q →
        Holds motion.held (times 10000 q.motion) },
    pub ghost relativity_in: { Holds relativity.held
        ((constants_of world).relativity *ʳ (elements_of eph).ecc *ʳ (elements_of eph).root_a) },
}

// F e √A, in s
fn relativity(eph: &Eph, world: &World) -> SizedBox<60, RELATIVITY, 2>
    ensures { Holds result.held ((constants_of world.now).relativity *ʳ (elements_of eph.now).ecc *ʳ
        (elements_of eph.now).root_a) }
{
    let factor: SizedBox<60, FACTOR, 1> = factor_of(world);
    let by_root: SizedBox<60, BY_ROOT, 6_002> = factor.mul(&root_of_axis(eph));
    let both: SizedBox<60, BY_ECCENTRICITY, 189> = by_root.mul(&eccentricity(eph));
    both.div::<0, TEN_THOUSAND, 0, TEN_THOUSAND, 60, RELATIVITY, 2>(&ten_thousand())
}

// F in 10^-4 s/√m
fn factor_of(world: &World) -> SizedBox<60, FACTOR, 1>
    ensures { Holds result.held (times (10 ^ 4) (constants_of world.now).relativity) }
{
    quotient(world.rel as i128, 1_000_000_000_000_000)
}

// A unit wider on both sides
fn widened(bias: &SizedBox<60, OWN_BIAS, 1>) -> SizedBox<60, BIAS, 3>
    ensures { (x y : Rational) → Holds bias.now.held x → IsAtMostInSize (of_scale 60 (pos 1)) y →
        Holds result.held (x +ʳ y) }
{
    SizedBox::new(Iv::from_ends(bias.held.lo() - 1, bias.held.hi() + 1))
}

fn mantissa_of(number: &Dec) -> i64
    ensures { result ≡ number.now.mant }
{
    number.mant
}

// af0 and each share of af2 that a near solution has. Where af2 is 0 it is no wider than af0's own box.
fn bias_of(eph: &Eph) -> SizedBox<60, BIAS, 3>
    ensures { (share : Rational) → IsAtMostInSize (two_to_minus 44) share →
        Holds result.held (with_share (elements_of eph.now) share).af0 }
{
    let own = decimal_box::<60, 1, 2, 0, OWN_BIAS>(eph.af0);
    let aging = mantissa_of(&eph.af2);
    if aging == 0 {
        own.loose()
    } else {
        widened(&own)
    }
}

impl ClockRecord {
    /// The boxes of a record, with the constants of its system.
    pub fn of(eph: &Eph, world: &World) -> ClockRecord
        ensures eph { result.eph ≡ eph.now }
        ensures world { result.world ≡ world.now }
    {
        ClockRecord {
            eph: *eph,
            world: *world,
            bias: bias_of(eph),
            drift: decimal_box::<60, 1, 7, 4, DRIFT>(eph.af1),
            aging: decimal_box::<60, 1, 12, 8, AGING>(eph.af2),
            eccentricity: eccentricity(eph),
            start: decimal_box::<56, 65, 1, 0, ANGLE>(eph.m0),
            motion: mean_motion(eph, world),
            relativity: relativity(eph, world),
        }
    }
}
