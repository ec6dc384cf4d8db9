//! The orbit's size and shape, and how fast it is run through, from the numbers of a record.
ghost use Rattle.std.specs.Prelude.{◌≡◌, ◌*◌, ◌^◌, pos, ◌*ℤ◌, ◌≤ℤ◌};
ghost use Rattle.whole_math.specs.Rational.{Rational, ◌≈◌, of_whole, times, ◌*ʳ◌, IsNearRoot};
ghost use Rattle.iv_core.specs.Intervals.{Holds};
ghost use Rattle.orbit_model.specs.Solution.{Quantities, IsNearSolution};
ghost use Rattle.sv_orbit.specs.Records.{constants_of};
ghost use Rattle.orbit_model.specs.Elements.{elements_of};

use crate::{World, decimal_box};
use eph_store::Eph;
use iv_core::Iv;
use sized_box::SizedBox;

/// 6000 √m at 2^-48
pub const ROOT: u64 = 6_000 << 48;

/// 36,000 km at 2^-36 m
pub const AXIS: u64 = 36_000_000 << 36;

// 4500³ and 6000³, at 2^-24 m√m; a little is left for rounding.
const CUBE: u64 = 216_000_000_000 << 24;

const LEAST_CUBE: u64 = 91_124_999_999 << 24;

/// 1/32 at 2^-60
pub const ECCENTRICITY: u64 = 1 << 55;

// A little over √μ, at 2^-36, and 10^4 times it, at 2^-24
const ROOT_OF_MU: u64 = 19_965_300 << 36;

const TENS: u64 = 199_653_000_000 << 24;

pub const TEN_THOUSAND: u64 = 10_000;

const THOUSANDTH: u64 = (1 << 60) / 1_000 + 1;

// 2.191 and 2.192, at 2^-60 of 10^-4 rad/s
const COMPUTED: u64 = (1 << 60) / 1_000 * 2_191;

/// The greatest mean motion.
pub const MOTION: u64 = (1 << 60) / 1_000 * 2_192 + 1_000;

/// Its width.
pub const MOTION_WIDTH: u64 = 30;

/// 10^4
pub fn ten_thousand() -> SizedBox<0, TEN_THOUSAND, 0>
    ensures holds { Holds result.held (of_whole (pos 10000)) }
    ensures low { result.held.lo ≡ pos 10000 }
{
    SizedBox::new(Iv::from_ends(10_000, 10_000))
}

/// The eccentricity.
pub fn eccentricity(eph: &Eph) -> SizedBox<60, ECCENTRICITY, 1>
    ensures holds { Holds result.held (elements_of eph.now).ecc }
    ensures low { pos 0 ≤ℤ result.held.lo }
{
    decimal_box::<60, 3_125, 5, 0, ECCENTRICITY>(eph.ecc)
}

/// The root of the semi-major axis.
pub fn root_of_axis(eph: &Eph) -> SizedBox<48, ROOT, 1>
    ensures { Holds result.held (elements_of eph.now).root_a }
{
    decimal_box::<48, 6_000, 0, 0, ROOT>(eph.root_a)
}

/// The semi-major axis, in metres.
pub fn axis(eph: &Eph) -> SizedBox<36, AXIS, 4>
    ensures holds { (x : Rational) →
        x ≈ (elements_of eph.now).root_a *ʳ (elements_of eph.now).root_a → Holds result.held x }
    ensures least { pos (20249999 * 2 ^ 36) ≤ℤ result.held.lo }
{
    root_of_axis(eph).square()
}

// A √A
fn cube(eph: &Eph) -> SizedBox<24, CUBE, 10>
    ensures holds { (x : Rational) →
        x ≈ (elements_of eph.now).root_a *ʳ (elements_of eph.now).root_a →
        Holds result.held (x *ʳ (elements_of eph.now).root_a) }
    ensures least { pos (91124999999 * 2 ^ 24) ≤ℤ result.held.lo }
{
    axis(eph).mul(&root_of_axis(eph))
}

// μ in units of 2^-12
fn scaled_mu(world: &World) -> i64
    ensures value { result ≡ world.now.mu *ℤ pos 4096 }
    ensures low { pos 0 ≤ℤ result }
    ensures high { result ≤ℤ pos (398600500000000 * 2 ^ 12) }
{
    world.mu * 4_096
}

// The near-roots of μ
fn root_of_mu(world: &World) -> SizedBox<36, ROOT_OF_MU, 3>
    ensures { (r : Rational) → IsNearRoot r (of_whole world.now.mu) → Holds result.held r }
{
    let scaled = scaled_mu(world);
    let mu: Iv<12> = Iv::from_ends(scaled, scaled);
    SizedBox::new(mu.root_to::<36>())
}

/// The corrected mean motion, in 10^-4 rad/s.
pub fn mean_motion(eph: &Eph, world: &World) -> SizedBox<60, MOTION, MOTION_WIDTH>
    ensures { (sent : Rational) (q : Quantities) →
        IsNearSolution (constants_of world.now) (elements_of eph.now) sent q →
        Holds result.held (times 10000 q.motion) }
{
    let tens: SizedBox<24, TENS, 9> = root_of_mu(world).mul(&ten_thousand());
    let computed = tens.div::<24, CUBE, 10, LEAST_CUBE, 60, COMPUTED, 25>(&cube(eph));
    let change = decimal_box::<60, 1, 7, 4, THOUSANDTH>(eph.dn);
    computed.add(&change)
}
