//! Boxes of quotients of whole numbers.
ghost use Rattle.std.specs.Prelude.{◌*◌, ◌^◌, ◌<◌, ◌≤◌, pos, ◌*ℤ◌, ◌<ℤ◌};
ghost use Rattle.whole_math.specs.Bounds.{Within};
ghost use Rattle.whole_math.specs.Rational.{Rational};
ghost use Rattle.whole_math.specs.Boxes.{IsRatio};
ghost use Rattle.iv_core.specs.Intervals.{Holds};

use iv_core::Iv;
use sized_box::SizedBox;

/// num / den, which is at most SIZE units in size.
pub fn quotient<const K: u32, const SIZE: u64>(num: i128, den: i128) -> SizedBox<K, SIZE, 1>
    requires scale { K ≤ 60 }
    requires positive { pos 0 <ℤ den }
    requires small { den <ℤ pos (2 ^ 64) }
    requires size { Within (pos SIZE *ℤ den) (num *ℤ pos (2 ^ K)) }
    requires limit { SIZE ≤ 2 ^ 62 }
    ensures { (x : Rational) → IsRatio x num den → Holds result.held x }
{
    SizedBox::new(Iv::ratio(num, den).unwrap())
}
