//! Quotients of entries by pivots. A product with a quotient's ratio says most roundings at once, in 64 bits; where it doesn't, an
//! exact division does (`entries`).
ghost use Rattle.std.specs.Prelude.{◌≡◌, ◌+◌, ◌^◌, ◌<◌, ◌≤◌, IsTrue, IfSome, pos, ◌+ℤ◌, ◌-ℤ◌, ◌*ℤ◌, ◌<ℤ◌, unsigned_abs};
ghost use Rattle.elimination.specs.StepEntries.{nearest_quotient, square_over, IsWithinUnit};

use whole_math::{floor_shift, product};

/// About 2^30 / a in units of 2^-exponent, for a pivot a. Nothing is said of it: what is made by it is tested.
#[derive(Clone, Copy, Debug)]
pub(crate) struct Reciprocal {
    pub(crate) ratio: i64,
    pub(crate) exponent: u32,
    pub ghost exponent_to: { exponent < 128 },
}

/// An entry p in the row of a pivot a, over it.
#[derive(Clone, Copy, Debug)]
pub(crate) struct Quotient {
    pub(crate) p: i64,
    pub(crate) a: i64,
    /// About p / a in units of 2^-61.
    pub(crate) ratio: i64,
    /// A product says a rounding where what it leaves of its units is below this: 0 where the ratio wasn't seen to be near.
    pub(crate) rest_to: u64,
    pub ghost p_in: { unsigned_abs p ≤ 2 ^ 52 },
    pub ghost a_in: { unsigned_abs a ≤ 2 ^ 52 },
    pub ghost positive: { pos 0 <ℤ a },
    pub ghost ratio_in: { unsigned_abs ratio ≤ 2 ^ 62 },
    pub ghost rest_in: { rest_to + 2 ^ 56 ≤ 2 ^ 64 },
    pub ghost near: { 0 < rest_to → IsWithinUnit ratio p a },
}

/// The quotients of a row's entries by the pivots of the baseline's columns.
#[derive(Clone, Copy, Debug)]
pub(crate) struct RowQuotients {
    pub(crate) first: Quotient,
    pub(crate) second: Quotient,
    pub(crate) third: Quotient,
}

/// A reciprocal is about 2^30 over its pivot.
const RECIPROCAL_EXPONENT: u32 = 30;

/// A ratio is at most this in size.
const MOST_RATIO: i64 = 1 << 62;

/// A number, or the nearest that is at most 2^62 in size.
fn within_62(x: i128) -> i64
    ensures { unsigned_abs result ≤ 2 ^ 62 }
{
    x.clamp(-(1 << 62), 1 << 62) as i64
}

/// The lowest 64 bits of a number. Nothing is said of them: what is made of them is tested.
fn low_half(number: i128) -> i64 {
    let bits = number.cast_unsigned() & u64::MAX as u128;
    (bits as u64).cast_signed()
}

/// A ratio, or the nearest that is at most 2^62 in size.
fn within_ratio(ratio: i64) -> i64
    ensures { unsigned_abs result ≤ 2 ^ 62 }
{
    ratio.clamp(-MOST_RATIO, MOST_RATIO)
}

/// Half of a number, to the nearest. Nothing is said of it: what is made of it is tested.
fn half_of(twice: i64) -> i64 {
    twice.wrapping_add(1) >> 1
}

/// ratio · a - p · 2^61
fn unit_missed(ratio: i64, p: i64, a: i64) -> i128
    requires ratio_size { unsigned_abs ratio ≤ 2 ^ 62 }
    requires p_size { unsigned_abs p ≤ 2 ^ 52 }
    requires a_size { unsigned_abs a ≤ 2 ^ 52 }
    ensures value { result ≡ (ratio *ℤ a) -ℤ (pos (2 ^ 61) *ℤ p) }
    ensures size { unsigned_abs result ≤ 2 ^ 115 }
{
    product::<62, 52>(ratio, a) - product::<62, 52>(1 << 61, p)
}

/// Whether the ratio is within a unit of 2^-61 of p / a.
fn is_within_unit(ratio: i64, p: i64, a: i64) -> bool
    requires ratio_size { unsigned_abs ratio ≤ 2 ^ 62 }
    requires p_size { unsigned_abs p ≤ 2 ^ 52 }
    requires a_size { unsigned_abs a ≤ 2 ^ 52 }
    requires positive { pos 0 <ℤ a }
    ensures { IsTrue result → IsWithinUnit ratio p a }
{
    let left = unit_missed(ratio, p, a);
    let most = a as i128;
    -most <= left && left <= most
}

/// 2^64 - 2^56: what is left of the units is below it where a ratio misses too little to change the quotient.
const REST_TO: u64 = 0xff00_0000_0000_0000;

/// Below what the rest of a product's units has to be, by whether the ratio is near p / a.
fn rest_limit(ratio: i64, p: i64, a: i64) -> u64
    requires ratio_size { unsigned_abs ratio ≤ 2 ^ 62 }
    requires p_size { unsigned_abs p ≤ 2 ^ 52 }
    requires a_size { unsigned_abs a ≤ 2 ^ 52 }
    requires positive { pos 0 <ℤ a }
    ensures most { result + 2 ^ 56 ≤ 2 ^ 64 }
    ensures near { 0 < result → IsWithinUnit ratio p a }
{
    if is_within_unit(ratio, p, a) {
        REST_TO
    } else {
        0
    }
}

/// 8 · q
fn eight_times(q: i64) -> i64
    requires { unsigned_abs q ≤ 2 ^ 52 }
    ensures value { result ≡ pos 8 *ℤ q }
    ensures size { unsigned_abs result ≤ 2 ^ 55 }
{
    8 * q
}

/// A ratio misses at most 2^55 of a unit of 2^64, and half a unit is added for the nearest: this less that.
const HALF_LESS_MISSED: i128 = (1 << 63) - (1 << 55);

/// product + 2^63 - 2^55
fn raised_product(product: i128) -> i128
    requires { unsigned_abs product ≤ 2 ^ 117 }
    ensures value { result ≡ (product +ℤ pos (2 ^ 63)) -ℤ pos (2 ^ 55) }
    ensures size { unsigned_abs result ≤ 2 ^ 118 }
{
    product + HALF_LESS_MISSED
}

/// A product misses at most 2^55 of a unit of 2^64, and this is taken off, so that what is left lies above whole units.
const MORE_THAN_MISSED: i128 = (1 << 55) + 1;

/// product - 2^55 - 1
fn lowered_product(product: i128) -> i128
    requires { unsigned_abs product ≤ 2 ^ 117 }
    ensures value { result ≡ (product -ℤ pos (2 ^ 55)) -ℤ pos 1 }
    ensures size { unsigned_abs result ≤ 2 ^ 118 }
{
    product - MORE_THAN_MISSED
}

/// The whole units of 2^64 in a number, and what they leave of it.
#[inline(always)]
fn units_and_rest(number: i128) -> (i64, u64)
    requires { unsigned_abs number ≤ 2 ^ 118 }
    ensures value { number ≡ (pos (2 ^ 64) *ℤ result.0) +ℤ pos result.1 }
    ensures size { unsigned_abs result.0 ≤ 2 ^ 55 }
{
    let whole = floor_shift(number, 64);
    let rest = number - whole * (1 << 64);
    (whole as i64, rest as u64)
}

impl Reciprocal {
    /// That of the pivot a, to some 62 bits. It takes the one division of a step.
    pub(crate) fn of(a: i128) -> Reciprocal
        requires { pos 0 <ℤ a }
    {
        // 31 more than the bits of a
        let exponent = 159_u32.saturating_sub(a.leading_zeros()).min(90);
        let whole = 1_i128 << (RECIPROCAL_EXPONENT + exponent);
        Reciprocal {
            ratio: within_62(whole / a),
            exponent,
        }
    }
}

impl Quotient {
    /// 0 / 1
    pub(crate) fn zero() -> Quotient {
        Quotient {
            p: 0,
            a: 1,
            ratio: 0,
            rest_to: 0,
        }
    }

    /// p / a, by the reciprocal of a.
    pub(crate) fn of(p: i64, a: i64, reciprocal: &Reciprocal) -> Quotient
        requires p_size { unsigned_abs p ≤ 2 ^ 52 }
        requires a_size { unsigned_abs a ≤ 2 ^ 52 }
        requires positive { pos 0 <ℤ a }
        ensures p { result.p ≡ p }
        ensures a { result.a ≡ a }
    {
        let product = (reciprocal.ratio as i128).wrapping_mul(p as i128);
        // twice the ratio: 2^30 of the pivot's units, less the 2^62 of these. Below 64, since a is below 2^53
        let unit = reciprocal.exponent.saturating_sub(32) & 63;
        let ratio = within_ratio(half_of(low_half(product >> unit)));
        Quotient {
            p,
            a,
            ratio,
            rest_to: rest_limit(ratio, p, a),
        }
    }

    /// p · q / a to the nearest, where a product says it.
    #[inline(always)]
    pub(crate) fn times(&self, q: i64) -> Option<i64>
        requires { unsigned_abs q ≤ 2 ^ 52 }
        ensures value { IfSome result (λ n. n ≡ nearest_quotient self.now.p q self.now.a) }
        ensures size { IfSome result (λ n. unsigned_abs n ≤ 2 ^ 60 + 1) }
    {
        let product = product::<62, 55>(self.ratio, eight_times(q));
        let (whole, rest) = units_and_rest(raised_product(product));
        if rest < self.rest_to {
            Some(whole)
        } else {
            None
        }
    }

    /// p² / a upward, where a product says it.
    pub(crate) fn near_square(&self) -> Option<i64>
        ensures value { IfSome result (λ n. n ≡ square_over self.now.p self.now.a) }
        ensures size { IfSome result (λ n. unsigned_abs n ≤ 2 ^ 62) }
    {
        let product = product::<62, 55>(self.ratio, eight_times(self.p));
        let (whole, rest) = units_and_rest(lowered_product(product));
        if rest < self.rest_to {
            Some(whole + 1)
        } else {
            None
        }
    }
}
