//! The clock's correction: IS-GPS-200, 20.3.3.3.3.1. Times are over 10^4 s, so the drift is times 10^4 and the aging times 10^8.
ghost use Rattle.std.specs.Prelude.{◌≡◌, ◌+◌, ◌*◌, ◌^◌, ◌<◌, ◌≤◌, pos, ◌+ℤ◌, ◌-ℤ◌, ◌*ℤ◌, ◌≤ℤ◌, ◌<ℤ◌, unsigned_abs};
ghost use Rattle.std.specs.Int.{abs_diff};
ghost use Rattle.whole_math.specs.Rational.{Rational, ◌-ʳ◌, two_to_minus, IsAtMostInSize};
ghost use Rattle.iv_core.specs.Intervals.{Holds};
ghost use Rattle.orbit_model.specs.Elements.{Elements, sent_at, elements_of, seconds};
ghost use Rattle.orbit_model.specs.Solution.{with_share};
ghost use Rattle.sv_orbit.specs.ClockTerms.{HoldsTerms, per_ten_thousand, correction};

use crate::clock_record::ClockRecord;
use crate::quotient::quotient;
use gps_time::Tick;
use iv_core::Iv;
use sized_box::SizedBox;

const ONE: u64 = 1 << 60;

// Limits of size, at 2^-60: 0.01, 10^-3, 10^-4 and 1.4402 for the terms; that of af0 a unit wider on both sides
pub const OWN_BIAS: u64 = ONE / 100 + 1;

pub const BIAS: u64 = ONE / 100 + 2;

pub const DRIFT: u64 = ONE / 1_000 + 1;

pub const AGING: u64 = ONE / 10_000 + 1;

const OFFSET: u64 = ONE / 10_000 * 14_402;

// The time from toe to sending by the satellite's own clock, at 2^-60 of 10^4 s
pub const SENT: u64 = ONE / 10_000 * 7_202;

/// 1/64 s: the greatest clock.
pub const CLOCK: u64 = 1 << 54;

/// The greatest relativistic term: 9.6 · 10^-8 s
pub const EFFECT: u64 = 110_000_000_000;

// CLOCK over 10^4, and the steps of the polynomial
pub const SCALED_CLOCK: u64 = 1_801_439_850_949;

const TIME: u64 = ONE / 10_000 * 14_403;

const AGED: u64 = ONE / 100_000 * 15;

const SLOPE: u64 = ONE / 100_000 * 116;

const TURN: u64 = ONE / 100_000 * 168;

const SUM: u64 = ONE / 100_000 * 1_169;

/// Boxes of the terms of the clock's correction at a time of sending.
#[derive(Clone, Copy, Debug)]
pub struct Terms {
    /// af0 and each share of af2, in s
    pub bias: SizedBox<60, BIAS, 3>,
    /// af1, in 10^-4
    pub drift: SizedBox<60, DRIFT, 1>,
    /// af2, in 10^-8 1/s
    pub aging: SizedBox<60, AGING, 1>,
    /// The time from toc to sending by the satellite's own clock, in 10^4 s
    pub offset: SizedBox<60, OFFSET, 1>,
}

// (tag - epoch) - code / c, in 1 / 149896229 ticks
fn sent_since(epoch: Tick, tag: Tick, code: i64) -> i128
    ensures { result ≡ ((pos tag.0 -ℤ pos epoch.0) *ℤ pos 149896229) -ℤ (code *ℤ pos 5000) }
{
    let ticks = tag.0 as i128 - epoch.0 as i128;
    ticks * 149_896_229 - code as i128 * 5_000
}

/// The time from an epoch to sending by the satellite's own clock, in 10^4 s; the epoch is at most TICKS from the tag.
pub fn time_since<const TICKS: u64, const SIZE: u64>(
    epoch: Tick,
    tag: Tick,
    code: i64,
) -> SizedBox<60, SIZE, 1>
    requires near { abs_diff tag.0 epoch.0 ≤ TICKS }
    requires ticks { TICKS ≤ 2 ^ 40 }
    requires code_low { pos 0 ≤ℤ code }
    requires code_high { code ≤ℤ pos (10 ^ 11) }
    requires size { (TICKS * 149896229 + 5 * 10 ^ 14) * 2 ^ 60 ≤ SIZE * 14989622900000000000 }
    requires limit { SIZE ≤ 2 ^ 62 }
    ensures { Holds result.held (per_ten_thousand (sent_at tag.0 code -ʳ seconds epoch.0)) }
{
    quotient(sent_since(epoch, tag, code), 14_989_622_900_000_000_000)
}

// 10^4 · 2^41, which makes a clock positive
const CLOCK_OFFSET: i64 = 21_990_232_555_520_000;

const OFFSET_QUOTIENT: i64 = 1 << 41;

// ⌊clock / 10^4⌋. The divisor is known when the program is built, which then multiplies in place of dividing.
fn per_ten_thousand_below(clock: i64) -> i64
    requires { unsigned_abs clock ≤ 2 ^ 54 }
    ensures low { (result *ℤ pos 10000) ≤ℤ clock }
    ensures high { clock <ℤ ((result *ℤ pos 10000) +ℤ pos 10000) }
{
    ((clock + CLOCK_OFFSET) as u64 / 10_000) as i64 - OFFSET_QUOTIENT
}

// ⌈clock / 10^4⌉
fn per_ten_thousand_above(clock: i64) -> i64
    requires { unsigned_abs clock ≤ 2 ^ 54 }
    ensures low { clock ≤ℤ (result *ℤ pos 10000) }
    ensures high { (result *ℤ pos 10000) <ℤ (clock +ℤ pos 10000) }
{
    -per_ten_thousand_below(-clock)
}

// A clock over 10^4
pub fn per_ten_thousand<const WIDTH: u64, const TO: u64>(
    clock: &SizedBox<60, CLOCK, WIDTH>,
) -> SizedBox<60, SCALED_CLOCK, TO>
    requires width { WIDTH + 20000 ≤ (TO + 1) * 10000 }
    ensures { (x : Rational) → Holds clock.now.held x → Holds result.held (per_ten_thousand x) }
{
    let low = per_ten_thousand_below(clock.held.lo);
    let high = per_ten_thousand_above(clock.held.hi);
    SizedBox::new(Iv::from_ends(low, high))
}

// The time from toc to sending, which is that from toe where the two are one
fn offset_of(
    made: &ClockRecord,
    tag: Tick,
    code: i64,
    sent: &SizedBox<60, SENT, 1>,
) -> SizedBox<60, OFFSET, 1>
    requires near { abs_diff tag.0 made.now.eph.toe.0 ≤ 72010000000 }
    requires code_low { pos 0 ≤ℤ code }
    requires code_high { code ≤ℤ pos (10 ^ 11) }
    requires sent { Holds sent.now.held
        (per_ten_thousand (sent_at tag.0 code -ʳ seconds made.now.eph.toe.0)) }
    ensures { Holds result.held
        (per_ten_thousand (sent_at tag.0 code -ʳ seconds made.now.eph.toc.0)) }
{
    if made.eph.toc.0 == made.eph.toe.0 {
        sent.loose()
    } else {
        time_since::<144_010_000_000, OFFSET>(made.eph.toc, tag, code)
    }
}

impl Terms {
    /// The terms of a record, with the time of sending that a tag and a code say, and the time to it from the reference epoch.
    pub fn of(made: &ClockRecord, tag: Tick, code: i64, sent: &SizedBox<60, SENT, 1>) -> Terms
        requires near { abs_diff tag.0 made.now.eph.toe.0 ≤ 72010000000 }
        requires code_low { pos 0 ≤ℤ code }
        requires code_high { code ≤ℤ pos (10 ^ 11) }
        requires sent { Holds sent.now.held
            (per_ten_thousand (sent_at tag.0 code -ʳ seconds made.now.eph.toe.0)) }
        ensures { (share : Rational) → IsAtMostInSize (two_to_minus 44) share →
            HoldsTerms result (with_share (elements_of made.now.eph) share) (sent_at tag.0 code) }
    {
        Terms {
            bias: made.bias,
            drift: made.drift,
            aging: made.aging,
            offset: offset_of(made, tag, code, sent),
        }
    }
}

/// The clock that the correction gives at each clock in a box, with a relativistic term in another; the numbers are the widths
/// of the boxes and of the steps between them.
pub fn corrected_clock<
    const WIDTH: u64,
    const SCALED_WIDTH: u64,
    const TIME_WIDTH: u64,
    const AGED_WIDTH: u64,
    const SLOPE_WIDTH: u64,
    const TURN_WIDTH: u64,
    const SUM_WIDTH: u64,
    const EFFECT_WIDTH: u64,
    const TO_WIDTH: u64,
>(
    terms: &Terms,
    clock: &SizedBox<60, CLOCK, WIDTH>,
    effect: &SizedBox<60, EFFECT, EFFECT_WIDTH>,
) -> SizedBox<60, CLOCK, TO_WIDTH>
    requires scaled { WIDTH + 20000 ≤ (SCALED_WIDTH + 1) * 10000 }
    requires time { SCALED_WIDTH + 1 ≤ TIME_WIDTH }
    requires aged { AGING * TIME_WIDTH + TIME * 1 + 2 * 2 ^ 60 ≤ (AGED_WIDTH + 1) * 2 ^ 60 }
    requires slope { AGED_WIDTH + 1 ≤ SLOPE_WIDTH }
    requires turn { TIME * SLOPE_WIDTH + SLOPE * TIME_WIDTH + 2 * 2 ^ 60
        ≤ (TURN_WIDTH + 1) * 2 ^ 60 }
    requires sum { TURN_WIDTH + 3 ≤ SUM_WIDTH }
    requires width { SUM_WIDTH + EFFECT_WIDTH ≤ TO_WIDTH }
    ensures { (eph : Elements) (sent x y : Rational) → HoldsTerms terms.now eph sent →
        Holds clock.now.held x → Holds effect.now.held y →
        Holds result.held (correction eph sent x y) }
{
    let scaled: SizedBox<60, SCALED_CLOCK, SCALED_WIDTH> = per_ten_thousand(clock);
    let time: SizedBox<60, TIME, TIME_WIDTH> = terms.offset.sub(&scaled);
    let aged: SizedBox<60, AGED, AGED_WIDTH> = terms.aging.mul(&time);
    let slope: SizedBox<60, SLOPE, SLOPE_WIDTH> = terms.drift.add(&aged);
    let turn: SizedBox<60, TURN, TURN_WIDTH> = time.mul(&slope);
    let sum: SizedBox<60, SUM, SUM_WIDTH> = terms.bias.add(&turn);
    sum.add(effect)
}
