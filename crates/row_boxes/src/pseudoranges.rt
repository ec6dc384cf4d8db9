//! What one receiver would observe if its own clock were right.
ghost use Rattle.std.specs.Prelude.{◌≡◌, ◌+◌, ◌*◌, ◌^◌, ◌<◌, ◌≤◌, pos, ◌+ℤ◌, ◌-ℤ◌, ◌*ℤ◌, ◌≤ℤ◌, unsigned_abs};
ghost use Rattle.whole_math.specs.Rounding.{IsFloor, IsCeil};
ghost use Rattle.whole_math.specs.Rational.{Rational, InBox};
ghost use Rattle.iv_core.specs.Intervals.{Holds, width_of, IsWithin};
ghost use Rattle.obs_rows.specs.declared.units.TheConstants.{LIGHT_SPEED};
ghost use Rattle.row_boxes.specs.declared.pseudoranges.TheConstants.{METRE_UNITS, HALF_LIGHT_SPEED};
ghost use Rattle.row_boxes.specs.Terms.{pseudorange_width, pseudorange, iota_exponent};

use iv_core::Iv;
use obs_rows::{LIGHT_SPEED, UNIT_FREQUENCY};

/// A range less what the satellite's clock is ahead, in 2^-15 ι, from `lo` to `hi`.
#[derive(Clone, Copy, Debug)]
pub struct Pseudorange {
    pub lo: i64,
    pub hi: i64,
    pub ghost ordered: { lo ≤ℤ hi },
    pub ghost narrow: { (hi -ℤ lo) ≤ℤ pseudorange_width },
    pub ghost lo_size: { unsigned_abs lo ≤ 2 ^ 55 },
    pub ghost hi_size: { unsigned_abs hi ≤ 2 ^ 55 },
}

/// One unit of 2^-60 m is `METRE_UNITS` / (`HALF_LIGHT_SPEED` · 2^39) units of 2^-15 ι: a metre is `UNIT_FREQUENCY` / `LIGHT_SPEED` ι, of which
/// the first is divided by 2^7 and the second by 2.
pub const METRE_UNITS: u128 = (UNIT_FREQUENCY >> 7) as u128;

/// Half of the speed of light in m/s.
pub const HALF_LIGHT_SPEED: u64 = (LIGHT_SPEED >> 1) as u64;

// HALF_LIGHT_SPEED · 2^60 units of 2^-60 m, which make what is divided positive, and METRE_UNITS · 2^21, which they are in units of 2^-15 ι
const METRE_OFFSET: i128 = (HALF_LIGHT_SPEED as i128) << 60;

const OFFSET_UNITS: i64 = (METRE_UNITS as i64) << 21;

// The second digit of a divisor HALF_LIGHT_SPEED · 2^39
const DIGIT: u128 = 1 << 39;

// A range at 2^-36 m less a clock at 2^-60 s, in 2^-60 m.
fn less_clock(range: i64, clock: i64) -> i128
    requires range { unsigned_abs range ≤ 2 ^ 62 }
    requires clock { unsigned_abs clock ≤ 2 ^ 54 }
    ensures value { result ≡ (range *ℤ pos (2 ^ 24)) -ℤ (clock *ℤ LIGHT_SPEED) }
    ensures size { unsigned_abs result ≤ 2 ^ 86 + 2 ^ 83 }
{
    range as i128 * (1 << 24) - clock as i128 * LIGHT_SPEED as i128
}

// ⌊units / HALF_LIGHT_SPEED⌋, in two digits at 2^34. The divisor is known when the program is built, which then multiplies in place of
// dividing 128 bits.
pub fn over_half_light_speed(units: u128) -> u64
    requires { units < 2 ^ 84 }
    ensures low { result * HALF_LIGHT_SPEED ≤ units }
    ensures high { units < result * HALF_LIGHT_SPEED + HALF_LIGHT_SPEED }
{
    let high = (units / 17_179_869_184) as u64;
    let low = (units % 17_179_869_184) as u64;
    let rest = high % HALF_LIGHT_SPEED * 17_179_869_184 + low;
    high / HALF_LIGHT_SPEED * 17_179_869_184 + rest / HALF_LIGHT_SPEED
}

// What is raised, in units of 2^-15 ι over HALF_LIGHT_SPEED · 2^39
fn raised_units(metres: i128) -> u128
    requires { unsigned_abs metres ≤ 2 ^ 86 + 2 ^ 83 }
    ensures value { pos result
        ≡ (metres *ℤ pos METRE_UNITS) +ℤ pos (METRE_UNITS * HALF_LIGHT_SPEED * 2 ^ 60) }
    ensures size { result < 2 ^ 122 }
{
    (metres + METRE_OFFSET) as u128 * METRE_UNITS
}

fn below(metres: i128) -> i64
    requires { unsigned_abs metres ≤ 2 ^ 86 + 2 ^ 83 }
    ensures rounded { IsFloor (metres *ℤ pos METRE_UNITS) (HALF_LIGHT_SPEED * 2 ^ 39) result }
    ensures size { unsigned_abs result ≤ 2 ^ 55 }
{
    over_half_light_speed(raised_units(metres) / DIGIT) as i64 - OFFSET_UNITS
}

fn above(metres: i128) -> i64
    requires { unsigned_abs metres ≤ 2 ^ 86 + 2 ^ 83 }
    ensures rounded { IsCeil (metres *ℤ pos METRE_UNITS) (HALF_LIGHT_SPEED * 2 ^ 39) result }
    ensures size { unsigned_abs result ≤ 2 ^ 55 }
{
    // Less than one more, so that it is rounded up.
    let units = raised_units(metres) + (HALF_LIGHT_SPEED as u128 * DIGIT - 1);
    over_half_light_speed(units / DIGIT) as i64 - OFFSET_UNITS
}

/// From the boxes of a range in metres and of a satellite's clock in seconds.
pub fn pseudorange_of(range: &Iv<36>, clock: &Iv<60>) -> Pseudorange
    requires range_narrow { width_of range.now ≤ℤ pos (2 ^ 19) }
    requires clock_narrow { width_of clock.now ≤ℤ pos (2 ^ 10) }
    requires clock_small { IsWithin (2 ^ 54) clock.now }
    ensures { (r t : Rational) → Holds range.now r → Holds clock.now t →
        InBox iota_exponent result.lo result.hi (pseudorange r t) }
{
    Pseudorange {
        lo: below(less_clock(range.lo, clock.hi)),
        hi: above(less_clock(range.hi, clock.lo)),
    }
}
