//! The Earth's turn while a signal travels.
ghost use Rattle.std.specs.Prelude.{◌≡◌, ◌+◌, ◌*◌, ◌/◌, ◌^◌, ◌<◌, ◌≤◌, pos, ◌+ℤ◌, ◌-ℤ◌, ◌*ℤ◌, ◌≤ℤ◌, ℤ};
ghost use Rattle.whole_math.specs.Rounding.{floor_div};
ghost use Rattle.whole_math.specs.Rational.{Rational, ◌*ʳ◌};
ghost use Rattle.whole_math.specs.Boxes.{of_scale};
ghost use Rattle.iv_core.specs.Intervals.{Holds, width_of, IsWithin};
ghost use Rattle.trig_box.specs.AnglePairs.{Pair, IsAnglePair};
ghost use Rattle.trig_box.specs.PairBoxes.{HoldsPair, AreAtMostWide};
ghost use Rattle.orbit_model.specs.Elements.{earth_rate};
ghost use Rattle.orbit_model.specs.SeenPlaces.{Position, turned_back};
ghost use Rattle.orbit_model.specs.declared.rotation.TheConstants.{EARTH_ROTATION};
ghost use Rattle.signal_travel.specs.VectorBoxes.{HoldsVector, IsVectorWithin, IsVectorAtMostWide, IsTravel};
ghost use Rattle.signal_travel.specs.declared.passes.TheConstants.{LATEST};

use crate::places::VectorBox;
use crate::sent::SentBox;
use iv_core::Iv;
use orbit_model::EARTH_ROTATION;
use trig_box::{PairBox, PointPair};

// The middle of the box, rounded down
fn middle_of(travel: &Iv<60>) -> i64
    requires { IsTravel travel.now }
    ensures low { travel.now.lo ≤ℤ result }
    ensures high { result ≤ℤ travel.now.hi }
    ensures below { (result -ℤ travel.now.lo) ≤ℤ (travel.now.hi -ℤ result) }
    ensures above { ((travel.now.hi -ℤ result) +ℤ (travel.now.hi -ℤ result))
        ≤ℤ ((travel.now.hi -ℤ travel.now.lo) +ℤ pos 1) }
{
    (travel.lo + travel.hi) >> 1
}

// ⌊(high · 2^28 + low) / 5^15⌋, in two digits. The divisor is known when the program is built, which then multiplies in place of
// dividing 128 bits.
fn over_power(high: u64, low: u64) -> u64
    requires high { high ≤ 2 ^ 47 }
    requires low { low < 2 ^ 28 }
    ensures { result ≡ (high * 2 ^ 28 + low) / 30517578125 }
{
    let rest = high % 30_517_578_125 * 268_435_456 + low;
    high / 30_517_578_125 * 268_435_456 + rest / 30_517_578_125
}

// ⌊turn / (16 · 10^15)⌋, which is over 2^19 and then over 5^15
fn over_scale(turn: u128) -> u64
    requires { turn < 2 ^ 94 }
    ensures { result ≡ turn / 16000000000000000 }
{
    over_power(
        (turn / 140_737_488_355_328) as u64,
        (turn / 524_288 % 268_435_456) as u64,
    )
}

// The angle by which the Earth turns in the time, from units of 2^-60 s to units of 2^-56 rad, rounded down
fn earth_turn_in(time: i64) -> i64
    requires low { pos 0 ≤ℤ time }
    requires high { time ≤ℤ LATEST }
    ensures value { result ≡ floor_div (pos EARTH_ROTATION *ℤ time) 16000000000000000 }
    ensures low { pos 0 ≤ℤ result }
    ensures high { result ≤ℤ pos 875753788197 }
{
    over_scale(EARTH_ROTATION as u128 * time as u128) as i64
}

// Boxes of every pair of the angle, in units of 2^-56 rad
fn pairs_of(angle: i64) -> PairBox
    requires low { pos 0 ≤ℤ angle }
    requires high { angle ≤ℤ pos 875753788197 }
    ensures holds { (c s : Rational) → IsAnglePair 5 (of_scale 56 angle) c s →
        HoldsPair result c s }
    ensures narrow { AreAtMostWide (pos 512) result }
    ensures cos_size { IsWithin 1152939096792891904 result.cos }
    ensures sin_size { IsWithin 28024121222816 result.sin }
{
    PointPair::of_small(angle).within(0)
}

// How far the pairs reach beyond those of the middle, for times within `radius` of it: a little over twice the angle
fn pad_for(radius: i64) -> i64
    requires low { pos 0 ≤ℤ radius }
    requires high { radius ≤ℤ pos (2 ^ 57) }
    ensures least { (radius +ℤ pos (33 * 2 ^ 12)) ≤ℤ (pos (2 ^ 12) *ℤ result) }
    ensures most { (pos (2 ^ 12) *ℤ result) ≤ℤ (radius +ℤ pos (34 * 2 ^ 12)) }
{
    ((radius + 4095) >> 12) + 33
}

// The box that reaches `pad` further on both sides
fn padded(x: &Iv<60>, pad: i64) -> Iv<60>
    requires size { IsWithin (9 * 2 ^ 57) x.now }
    requires low { pos 0 ≤ℤ pad }
    requires high { pad ≤ℤ pos (2 ^ 46) }
    ensures lo { result.lo ≡ x.now.lo -ℤ pad }
    ensures hi { result.hi ≡ x.now.hi +ℤ pad }
{
    Iv::from_ends(x.lo - pad, x.hi + pad)
}

/// Boxes of every pair of every angle by which the Earth turns in a time of the box.
pub fn turn_in(travel: &Iv<60>) -> PairBox
    requires { IsTravel travel.now }
    ensures holds { (t c s : Rational) → Holds travel.now t → IsAnglePair 5 (earth_rate *ʳ t) c s →
        HoldsPair result c s }
    ensures cos_size { IsWithin (2 ^ 60 + 2 ^ 46) result.cos }
    ensures sin_size { IsWithin (2 ^ 46) result.sin }
    ensures width { (w : ℤ) → (width_of travel.now +ℤ pos (580 * 2 ^ 12 + 1))
        ≤ℤ (pos (2 ^ 12) *ℤ w) → AreAtMostWide w result }
{
    let middle = middle_of(travel);
    let angle = earth_turn_in(middle);
    let pair = pairs_of(angle);
    let pad = pad_for(travel.hi - middle);
    PairBox {
        cos: padded(&pair.cos, pad),
        sin: padded(&pair.sin, pad),
    }
}

// C · x
fn cosine_times(cos: &Iv<60>, x: &Iv<36>) -> Iv<36>
    requires cos_size { IsWithin (2 ^ 60 + 2 ^ 46) cos.now }
    requires size { IsWithin (38000000 * 2 ^ 36) x.now }
    requires narrow { width_of x.now ≤ℤ pos (2 ^ 18) }
    ensures holds { (c q : Rational) → Holds cos.now c → Holds x.now q → Holds result (c *ʳ q) }
    ensures size { IsWithin (38002400 * 2 ^ 36) result }
    ensures width { (pos (2 ^ 24) *ℤ width_of result)
        ≤ℤ ((pos 38000000 *ℤ width_of cos.now) +ℤ pos (262162 * 2 ^ 24)) }
{
    cos.product_of::<36, 36>(x)
}

// S · x
fn sine_times(sin: &Iv<60>, x: &Iv<36>) -> Iv<36>
    requires sin_size { IsWithin (2 ^ 46) sin.now }
    requires size { IsWithin (38000000 * 2 ^ 36) x.now }
    requires narrow { width_of x.now ≤ℤ pos (2 ^ 18) }
    ensures holds { (s q : Rational) → Holds sin.now s → Holds x.now q → Holds result (s *ʳ q) }
    ensures size { IsWithin (2400 * 2 ^ 36) result }
    ensures width { (pos (2 ^ 24) *ℤ width_of result)
        ≤ℤ ((pos 38000000 *ℤ width_of sin.now) +ℤ pos (18 * 2 ^ 24)) }
{
    sin.product_of::<36, 36>(x)
}

/// The places that the Earth turns away from the sent ones: (C x + S y, C y − S x, z).
pub fn turned_box(turn: &PairBox, sent: &SentBox) -> VectorBox
    requires cos_size { IsWithin (2 ^ 60 + 2 ^ 46) turn.now.cos }
    requires sin_size { IsWithin (2 ^ 46) turn.now.sin }
    ensures holds { (p : Position) (pair : Pair) → HoldsVector sent.now.place p →
        HoldsPair turn.now pair.cos pair.sin → HoldsVector result (turned_back pair p) }
    ensures size { IsVectorWithin (38100000 * 2 ^ 36) result }
    ensures width { (w v : ℤ) → AreAtMostWide w turn.now →
        ((pos 76000000 *ℤ w) +ℤ pos (262180 * 2 ^ 24)) ≤ℤ (pos (2 ^ 24) *ℤ v) →
        IsVectorAtMostWide v result }
{
    let VectorBox { x, y, z } = sent.place;
    VectorBox {
        x: cosine_times(&turn.cos, &x).sum_of(&sine_times(&turn.sin, &y)),
        y: cosine_times(&turn.cos, &y).difference_of(&sine_times(&turn.sin, &x)),
        z,
    }
}
