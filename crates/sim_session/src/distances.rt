//! Distances, and what is measured of them.
ghost use Rattle.std.specs.Prelude.{◌≡◌, ◌*◌, ◌^◌, ◌≤◌, pos, ◌+ℤ◌, ◌*ℤ◌, ◌≤ℤ◌, ◌<ℤ◌, unsigned_abs};
ghost use Rattle.whole_math.specs.Rational.{Rational, of_whole, ◌+ʳ◌, ◌-ʳ◌, ◌*ʳ◌, AreWithin};
ghost use Rattle.iv_core.specs.Intervals.{Holds, width_of, IsWithin};
ghost use Rattle.whole_math.specs.Rounding.{IsFloor, IsNearest};
ghost use Rattle.obs_rows.specs.declared.units.TheConstants.{LIGHT_SPEED};
ghost use Rattle.sim_session.specs.Observed.{IsDistance, measured, thousandths};
ghost use Rattle.sim_session.specs.declared.drawn.TheConstants.{MOST_CLOCK, MOST_CYCLES};

use iv_core::Iv;
use obs_rows::LIGHT_SPEED;
use whole_math::{floor_shift, nearest};

/// A distance in units of 2^-36 m.
#[derive(Clone, Copy, Debug)]
pub struct Distance {
    pub units: i64,
    pub ghost low: { pos (5000000 * 2 ^ 36) ≤ℤ units },
    pub ghost high: { units ≤ℤ pos (72000000 * 2 ^ 36) },
}

// c times what the satellite's clock is ahead, in units of 2^-36 m and rounded down
fn ahead_of(clock: &Iv<60>) -> i64
    requires { IsWithin (2 ^ 54) clock.now }
    ensures floor { IsFloor (LIGHT_SPEED *ℤ clock.now.hi) (2 ^ 24) result }
    ensures size { unsigned_abs result ≤ 2 ^ 59 }
{
    floor_shift(LIGHT_SPEED as i128 * clock.hi as i128, 24) as i64
}

/// The range less c times what the satellite's clock is ahead, from boxes of both: at most a unit too much and 2^20 units too little,
/// so within 2^-16 m.
pub fn distance_of(range: &Iv<36>, clock: &Iv<60>) -> Distance
    requires range_narrow { width_of range.now ≤ℤ pos (2 ^ 19) }
    requires range_far { pos (10000000 * 2 ^ 36) ≤ℤ range.now.lo }
    requires clock_narrow { width_of clock.now ≤ℤ pos (2 ^ 10) }
    requires clock_small { IsWithin (2 ^ 54) clock.now }
    ensures { (r t : Rational) → Holds range.now r → Holds clock.now t →
        IsDistance result.units (r -ʳ of_whole LIGHT_SPEED *ʳ t) }
{
    Distance {
        units: range.lo - ahead_of(clock),
    }
}

// The nearest whole number of mm
fn whole_units(distance: &Distance) -> i64
    ensures nearest { IsNearest (pos 1000 *ℤ distance.now.units) (2 ^ 36) result }
    ensures low { pos 4999999000 ≤ℤ result }
    ensures high { result ≤ℤ pos 72000001000 }
{
    nearest(1_000 * distance.units as i128, 1 << 36) as i64
}

/// What is measured of a distance with a clock term in mm, in mm.
pub fn code_of(distance: &Distance, clock: i64) -> i64
    requires { unsigned_abs clock ≤ MOST_CLOCK }
    ensures near { (v : Rational) → IsDistance distance.now.units v →
        AreWithin (of_whole (pos 2)) (of_whole result) (measured clock v) }
    ensures low { pos 0 ≤ℤ result }
    ensures high { result ≤ℤ pos (10 ^ 11) }
{
    whole_units(distance) + clock
}

// A distance and a clock term in units of 2^-36 mm
fn with_clock(distance: &Distance, clock: i64) -> i128
    requires { unsigned_abs clock ≤ MOST_CLOCK }
    ensures value { result ≡ (pos 1000 *ℤ distance.now.units) +ℤ (clock *ℤ pos (2 ^ 36)) }
    ensures low { pos (4900000000 * 2 ^ 36) ≤ℤ result }
    ensures high { result ≤ℤ pos (73000000000 * 2 ^ 36) }
{
    1_000 * distance.units as i128 + clock as i128 * (1 << 36)
}

// A length in units of 2^-36 mm times a frequency in Hz
fn scaled(length: i128, frequency: u32) -> i128
    requires low { pos (4900000000 * 2 ^ 36) ≤ℤ length }
    requires high { length ≤ℤ pos (73000000000 * 2 ^ 36) }
    requires least { 1000000000 ≤ frequency }
    requires most { frequency ≤ 2000000000 }
    ensures value { result ≡ length *ℤ pos frequency }
    ensures low { pos (4900000000 * 2 ^ 36 * 1000000000) ≤ℤ result }
    ensures high { result ≤ℤ pos (73000000000 * 2 ^ 36 * 2000000000) }
{
    length * frequency as i128
}

// That over c, to the nearest whole number
fn whole_thousandths(scaled: i128) -> i64
    requires low { pos (4900000000 * 2 ^ 36 * 1000000000) ≤ℤ scaled }
    requires high { scaled ≤ℤ pos (73000000000 * 2 ^ 36 * 2000000000) }
    ensures nearest { IsNearest scaled (unsigned_abs LIGHT_SPEED * 2 ^ 36) result }
    ensures low { pos 16000000000 ≤ℤ result }
    ensures high { result ≤ℤ pos 490000000000 }
{
    nearest(scaled, LIGHT_SPEED as i128 * (1 << 36)) as i64
}

/// What is measured of a distance with a clock term in mm, over the wavelength of a carrier of `frequency` Hz and with `cycles`
/// whole cycles, in thousandths of a cycle.
pub fn phase_of(distance: &Distance, clock: i64, frequency: u32, cycles: i64) -> i64
    requires clock { unsigned_abs clock ≤ MOST_CLOCK }
    requires least { 1000000000 ≤ frequency }
    requires most { frequency ≤ 2000000000 }
    requires cycles { unsigned_abs cycles ≤ MOST_CYCLES }
    ensures near { (v : Rational) → IsDistance distance.now.units v →
        AreWithin (of_whole (pos 2)) (of_whole result)
        (thousandths frequency (measured clock v) +ʳ of_whole (pos 1000 *ℤ cycles)) }
    ensures low { pos 0 ≤ℤ result }
    ensures high { result <ℤ pos (10 ^ 13) }
{
    let length = with_clock(distance, clock);
    whole_thousandths(scaled(length, frequency)) + 1_000 * cycles
}
