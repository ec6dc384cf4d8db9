//! The y boxes of rows, and the group of a pair.
ghost use Rattle.std.specs.Prelude.{◌≡◌, ◌+◌, ◌^◌, ◌<◌, ◌≤◌, pos, ◌+ℤ◌, ◌-ℤ◌, ◌*ℤ◌, ◌≤ℤ◌, unsigned_abs, IfSome, None};
ghost use Rattle.whole_math.specs.Rational.{Rational, Near, of_whole, ◌-ʳ◌, InBox};
ghost use Rattle.obs_rows.specs.Ranges.{IsScale};
ghost use Rattle.row_boxes.specs.Terms.{y_width, iota_exponent};
ghost use Rattle.row_boxes.specs.Sightings.{in_row_unit};
ghost use Rattle.row_boxes.specs.YBoxes.{most_radius};

use crate::prefits::Prefit;
use whole_math::{ceil_shift, floor, floor_shift};

/// A box in a row's unit, 2^(scale - 13) ι.
#[derive(Clone, Copy, Debug)]
pub struct YBox {
    pub centre: i128,
    pub radius: i64,
    pub ghost least: { pos 0 ≤ℤ radius },
    pub ghost most: { radius ≤ℤ most_radius 0 },
}

/// A whole number of ι less.
pub fn less_whole(end: i128, whole: i64) -> i128
    requires end { unsigned_abs end ≤ 2 ^ 68 }
    requires whole { unsigned_abs whole ≤ 2 ^ 51 }
    ensures value { result ≡ end -ℤ (whole *ℤ pos (2 ^ iota_exponent)) }
    ensures size { unsigned_abs result ≤ 2 ^ 71 }
{
    end - whole as i128 * IOTA
}

/// What is computed is in units of 2^-15 ι.
pub const IOTA_EXPONENT: u32 = 15;

/// One ι in these units.
pub const IOTA: i128 = 1 << IOTA_EXPONENT;

// By how many bits a row's unit is coarser than 2^-15 ι.
fn coarser_by(scale: u32) -> u32
    requires { IsScale scale }
    ensures value { result ≡ scale + 2 }
    ensures most { result ≤ 16 }
{
    scale + 2
}

// The middle, rounded down.
fn middle(lo: i128, hi: i128) -> i128
    requires ordered { lo ≤ℤ hi }
    requires narrow { (hi -ℤ lo) ≤ℤ y_width }
    requires size { unsigned_abs lo ≤ 2 ^ 71 }
    ensures low { lo ≤ℤ result }
    ensures most { (pos 2 *ℤ result) ≤ℤ (lo +ℤ hi) }
    ensures least { (lo +ℤ hi) ≤ℤ ((pos 2 *ℤ result) +ℤ pos 1) }
{
    lo + floor(hi - lo, 2)
}

// The box around the middle.
fn around(lo: i128, hi: i128) -> YBox
    requires ordered { lo ≤ℤ hi }
    requires narrow { (hi -ℤ lo) ≤ℤ y_width }
    requires size { unsigned_abs lo ≤ 2 ^ 71 }
    ensures top { result.centre +ℤ result.radius ≡ hi }
    ensures bottom { (result.centre -ℤ result.radius) ≤ℤ lo }
    ensures half { (pos 2 *ℤ result.radius) ≤ℤ ((hi -ℤ lo) +ℤ pos 1) }
{
    let centre = middle(lo, hi);
    YBox {
        centre,
        radius: (hi - centre) as i64,
    }
}

/// The observation less a whole number of ι.
pub fn y_box(prefit: &Prefit, whole: i64, scale: u32) -> YBox
    requires whole { unsigned_abs whole ≤ 2 ^ 51 }
    requires scale { IsScale scale }
    ensures holds { (q : Rational) → InBox iota_exponent prefit.now.lo prefit.now.hi q →
        Near result.centre result.radius (in_row_unit scale (q -ʳ of_whole whole)) }
    ensures radius { result.radius ≤ℤ most_radius scale }
{
    let bits = coarser_by(scale);
    let lo = floor_shift(less_whole(prefit.lo, whole), bits);
    let hi = ceil_shift(less_whole(prefit.hi, whole), bits);
    around(lo, hi)
}

impl YBox {
    /// The centre, if it is at most 2^34 in size.
    pub fn near_centre(&self) -> Option<i64>
        ensures value { IfSome result (λ c. c ≡ self.now.centre) }
        ensures size { IfSome result (λ c. unsigned_abs c ≤ 2 ^ 34) }
        ensures far { result ≡ None → 2 ^ 34 < unsigned_abs self.now.centre }
    {
        if self.centre < -MOST_CENTRE || self.centre > MOST_CENTRE {
            return None;
        }
        Some(self.centre as i64)
    }
}

// The greatest size of a centre.
const MOST_CENTRE: i128 = 1 << 34;
