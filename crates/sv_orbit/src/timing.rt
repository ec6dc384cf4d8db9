//! The clock by three passes of its correction, and the mean anomaly at the time that it gives.
ghost use Rattle.std.specs.Prelude.{◌+◌, ◌*◌, ◌^◌, ◌<◌, ◌≤◌, pos, ◌+ℤ◌, ◌-ℤ◌, neg_ℤ, ◌≤ℤ◌};
ghost use Rattle.std.specs.Int.{abs_diff};
ghost use Rattle.whole_math.specs.Rational.{Rational, ◌+ʳ◌, ◌-ʳ◌, ◌*ʳ◌, two_to_minus, IsAtMostInSize};
ghost use Rattle.whole_math.specs.Boxes.{of_scale, IsNearBox};
ghost use Rattle.iv_core.specs.Intervals.{Holds};
ghost use Rattle.trig_box.specs.AnglePairs.{SolvesKepler};
ghost use Rattle.orbit_model.specs.Elements.{sent_at, elements_of};
ghost use Rattle.orbit_model.specs.Solution.{Quantities, IsNearSolution};
ghost use Rattle.sv_orbit.specs.Records.{constants_of};
ghost use Rattle.sv_orbit.specs.ClockTerms.{per_ten_thousand};
ghost use Rattle.sv_orbit.specs.Timings.{HoldsTiming};

use crate::clock_record::ClockRecord;
use crate::correction::{
    CLOCK, EFFECT, SCALED_CLOCK, SENT, Terms, corrected_clock, per_ten_thousand, time_since,
};
use crate::shape::ECCENTRICITY;
use gps_time::Tick;
use iv_core::{Iv, middle_between};
use kepler_box::quick_anomaly_box;
use sized_box::SizedBox;

/// The greatest time since the reference epoch, at 2^-60 of 10^4 s.
pub const EPOCH_TIME: u64 = (1 << 60) / 10_000 * 7_203;

const TURNED: u64 = (1 << 56) / 100 * 158;

/// The greatest mean anomaly, at 2^-56.
pub const MEAN: u64 = 12 << 56;

// How much the sine of an approximate solution is widened
const PAD: i64 = (1 << 27) + 1;

const SINE: u64 = (9 << 57) + (1 << 27) + 1;

const SINE_WIDTH: u64 = 1_600 + (1 << 28) + 2;

const EFFECT_WIDTH: u64 = 26;

const FIRST_WIDTH: u64 = 224_698_263_228;

const SECOND_WIDTH: u64 = 29_338;

/// The width of the clock, at 2^-60 s.
pub const CLOCK_WIDTH: u64 = 36;

/// When a satellite sent, and what Kepler's equation is asked with.
#[derive(Clone, Copy, Debug)]
pub struct Timing {
    /// Δt, in s
    pub clock: SizedBox<60, CLOCK, CLOCK_WIDTH>,
    /// tk, in 10^4 s
    pub epoch_time: SizedBox<60, EPOCH_TIME, 3>,
    /// M, in radians
    pub mean: SizedBox<56, MEAN, 4>,
}

// tk over 10^4, at a clock
fn time_at<const WIDTH: u64>(
    sent: &SizedBox<60, SENT, 1>,
    clock: &SizedBox<60, CLOCK, WIDTH>,
) -> SizedBox<60, EPOCH_TIME, 3>
    requires { WIDTH ≤ 10000 }
    ensures { (s x : Rational) → Holds sent.now.held s → Holds clock.now.held x →
        Holds result.held (s -ʳ per_ten_thousand x) }
{
    let scaled: SizedBox<60, SCALED_CLOCK, 2> = per_ten_thousand(clock);
    sent.sub(&scaled)
}

// M0 + n tk
fn mean_anomaly(made: &ClockRecord, time: &SizedBox<60, EPOCH_TIME, 3>) -> SizedBox<56, MEAN, 4>
    ensures { (n t : Rational) → Holds made.now.motion.held n → Holds time.now.held t →
        Holds result.held ((elements_of made.now.eph).m0 +ʳ n *ʳ t) }
{
    let turned: SizedBox<56, TURNED, 3> = made.motion.mul(time);
    made.start.add(&turned)
}

// The sines of the solutions whose mean anomaly is within 2^-35 of the box
fn sine_near(
    mean: &SizedBox<56, MEAN, 4>,
    eccentricity: &SizedBox<60, ECCENTRICITY, 1>,
) -> SizedBox<60, SINE, SINE_WIDTH>
    requires { pos 0 ≤ℤ eccentricity.now.held.lo }
    ensures { (m e x c s : Rational) →
        IsNearBox 56 mean.now.held.lo mean.now.held.hi (two_to_minus 35) m →
        Holds eccentricity.now.held e → SolvesKepler m e x c s → Holds result.held s }
{
    let sine = quick_anomaly_box(&mean.held, &eccentricity.held).sin;
    SizedBox::new(Iv::from_ends(sine.lo() - PAD, sine.hi() + PAD))
}

// The middle of the ends of a box, rounded down
fn middle_of(clock: &SizedBox<60, CLOCK, FIRST_WIDTH>) -> i64
    ensures low { clock.now.held.lo ≤ℤ result }
    ensures high { result ≤ℤ clock.now.held.hi }
    ensures above { ((clock.now.held.hi -ℤ result) +ℤ (clock.now.held.hi -ℤ result))
        ≤ℤ pos 224698263229 }
    ensures below { ((result -ℤ clock.now.held.lo) +ℤ (result -ℤ clock.now.held.lo))
        ≤ℤ pos 224698263229 }
{
    middle_between(clock.held.lo(), clock.held.hi())
}

// That clock alone
fn clock_at(point: i64) -> SizedBox<60, CLOCK, 0>
    requires low { neg_ℤ (pos (2 ^ 54)) ≤ℤ point }
    requires high { point ≤ℤ pos (2 ^ 54) }
    ensures { Holds result.held (of_scale 60 point) }
{
    SizedBox::new(Iv::from_ends(point, point))
}

// All clocks of at most 1/64 s
fn any_clock() -> SizedBox<60, CLOCK, 36_028_797_018_963_968>
    ensures { (x : Rational) → IsAtMostInSize (of_scale 60 (pos (2 ^ 54))) x → Holds result.held x }
{
    SizedBox::new(Iv::from_ends(-(1 << 54), 1 << 54))
}

// All relativistic terms
fn any_effect() -> SizedBox<60, EFFECT, 220_000_000_000>
    ensures { (x : Rational) → IsAtMostInSize (of_scale 60 (pos 110000000000)) x →
        Holds result.held x }
{
    SizedBox::new(Iv::from_ends(-110_000_000_000, 110_000_000_000))
}

// The relativistic term, from an approximate clock
fn effect_of(
    made: &ClockRecord,
    sent: &SizedBox<60, SENT, 1>,
    first: &SizedBox<60, CLOCK, FIRST_WIDTH>,
) -> SizedBox<60, EFFECT, EFFECT_WIDTH>
    ensures { (s : Rational) (q : Quantities) →
        IsNearSolution (constants_of made.now.world) (elements_of made.now.eph) s q →
        Holds sent.now.held (per_ten_thousand (s -ʳ (elements_of made.now.eph).toe)) →
        Holds first.now.held q.clock → Holds result.held
        ((constants_of made.now.world).relativity *ʳ (elements_of made.now.eph).ecc *ʳ
        (elements_of made.now.eph).root_a *ʳ q.eccentric_pair.sin) }
{
    let time = time_at(sent, &clock_at(middle_of(first)));
    let mean = mean_anomaly(made, &time);
    let sine = sine_near(&mean, &made.eccentricity);
    made.relativity.mul(&sine)
}

/// When a satellite sent what was received at a tag with a code, in mm, and what Kepler's equation is asked with: boxes of
/// every near solution. The tag is at most 7201 s from the ephemeris' time.
pub fn timing_at(made: &ClockRecord, tag: Tick, code: i64) -> Timing
    requires near { abs_diff tag.0 made.now.eph.toe.0 ≤ 72010000000 }
    requires code_low { pos 0 ≤ℤ code }
    requires code_high { code ≤ℤ pos (10 ^ 11) }
    ensures { (q : Quantities) → IsNearSolution (constants_of made.now.world)
        (elements_of made.now.eph) (sent_at tag.0 code) q → HoldsTiming result q }
{
    let sent = time_since::<72_010_000_000, SENT>(made.eph.toe, tag, code);
    let terms = Terms::of(made, tag, code, &sent);
    let first: SizedBox<60, CLOCK, FIRST_WIDTH> = corrected_clock::<
        36_028_797_018_963_968,
        3_602_879_701_898,
        3_602_879_701_899,
        360_287_973,
        360_287_974,
        4_698_263_225,
        4_698_263_228,
        220_000_000_000,
        FIRST_WIDTH,
    >(&terms, &any_clock(), &any_effect());
    let effect = effect_of(made, &sent, &first);
    let second = corrected_clock::<
        FIRST_WIDTH,
        22_469_828,
        22_469_829,
        2_250,
        2_251,
        29_309,
        29_312,
        EFFECT_WIDTH,
        SECOND_WIDTH,
    >(&terms, &first, &effect);
    let clock = corrected_clock::<SECOND_WIDTH, 4, 5, 3, 4, 7, 10, EFFECT_WIDTH, CLOCK_WIDTH>(
        &terms, &second, &effect,
    );
    let epoch_time = time_at(&sent, &clock);
    let mean = mean_anomaly(made, &epoch_time);
    Timing {
        clock,
        epoch_time,
        mean,
    }
}
