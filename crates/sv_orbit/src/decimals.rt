//! Boxes of decimal numbers.
//!
//! `decimal_box` gives the least box of a decimal number times a power of ten at its scale, at any exponent; the
//! limit of its size is compared with that of the number when the program is checked.
ghost use Rattle.std.specs.Prelude.{◌≡◌, ◌+◌, ◌*◌, ◌^◌, ◌<◌, ◌≤◌, pos, ◌+ℤ◌, ◌*ℤ◌, ◌≤ℤ◌, ◌<ℤ◌, min, unsigned_abs};
ghost use Rattle.whole_math.specs.Bounds.{Within};
ghost use Rattle.whole_math.specs.Rational.{of_whole, times, IsAtMostInSize};
ghost use Rattle.whole_math.specs.Boxes.{of_scale};
ghost use Rattle.iv_core.specs.Intervals.{width_of};
ghost use Rattle.eph_store.specs.Decimals.{decimal, with_exponent, value_of, IsWithin};
ghost use Rattle.sv_orbit.specs.LeastBoxes.{IsLeastBox};

use decimal_text::Dec;
use iv_core::Iv;
use sized_box::SizedBox;

// 10^exponent, or 10^most where the exponent is larger
fn cut_power(exponent: u32, most: u32) -> i128
    requires { most ≤ 38 }
    ensures value { result ≡ pos (10 ^ min exponent most) }
    ensures positive { pos 0 <ℤ result }
    ensures bound { result ≤ℤ pos (10 ^ most) }
{
    10i128.pow(exponent.min(most))
}

// mant · 10^power, or mant · 10^19 where the power is larger
fn whole_number(mant: i64, power: u32) -> i128
    ensures { result ≡ mant *ℤ pos (10 ^ min power 19) }
{
    mant as i128 * cut_power(power, 19)
}

// The box of mant · 10^power. Past 10^19 only 0 is small enough, so the power may be cut there.
fn whole_box<const K: u32>(mant: i64, power: u32) -> Iv<K>
    requires scale { K ≤ 60 }
    requires small { IsAtMostInSize (of_scale K (pos (2 ^ 62)))
        (of_whole (mant *ℤ pos (10 ^ power))) }
    ensures least { IsLeastBox result (of_whole (mant *ℤ pos (10 ^ power))) }
    ensures narrow { width_of result ≤ℤ pos 1 }
{
    Iv::ratio(whole_number(mant, power), 1).unwrap()
}

// The box of mant / 10^places. Past 10^38 all that counts is the sign, so the power may be cut there.
fn part_box<const K: u32>(mant: i64, places: u32) -> Iv<K>
    requires scale { K ≤ 60 }
    requires small { IsAtMostInSize (of_scale K (pos (2 ^ 62))) (decimal mant places) }
    ensures least { IsLeastBox result (decimal mant places) }
    ensures narrow { width_of result ≤ℤ pos 1 }
{
    Iv::ratio(mant as i128, cut_power(places, 38)).unwrap()
}

fn size_of_exponent(exp: i64) -> u32
    requires { Within (pos (2 ^ 31 + 8)) exp }
    ensures { result ≡ unsigned_abs exp }
{
    exp.unsigned_abs() as u32
}

// The box of mant · 10^exp
fn exponent_box<const K: u32>(mant: i64, exp: i64) -> Iv<K>
    requires scale { K ≤ 60 }
    requires exponent { Within (pos (2 ^ 31 + 8)) exp }
    requires small { IsAtMostInSize (of_scale K (pos (2 ^ 62))) (with_exponent mant exp) }
    ensures least { IsLeastBox result (with_exponent mant exp) }
    ensures narrow { width_of result ≤ℤ pos 1 }
{
    if exp >= 0 {
        whole_box(mant, size_of_exponent(exp))
    } else {
        part_box(mant, size_of_exponent(exp))
    }
}

fn raised(exp: i32, up: u32) -> i64
    requires { up ≤ 8 }
    ensures sum { result ≡ exp +ℤ pos up }
    ensures range { Within (pos (2 ^ 31 + 8)) result }
{
    exp as i64 + up as i64
}

/// The least box of d · 10^UP, for a number that is at most BOUND / 10^PLACES in size.
pub fn decimal_box<
    const K: u32,
    const BOUND: u64,
    const PLACES: u32,
    const UP: u32,
    const SIZE: u64,
>(d: Dec) -> SizedBox<K, SIZE, 1>
    requires scale { K ≤ 60 }
    requires shift { UP ≤ 8 }
    requires within { IsWithin BOUND PLACES d }
    requires size { BOUND * 10 ^ UP * 2 ^ K ≤ SIZE * 10 ^ PLACES }
    requires limit { SIZE ≤ 2 ^ 62 }
    ensures { IsLeastBox result.held (times (10 ^ UP) (value_of d)) }
{
    let held = exponent_box(d.mant, raised(d.exp, UP));
    SizedBox::new(held)
}
