//! The least whole number that is far enough.
ghost use Rattle.std.specs.Prelude.{◌≡◌, ◌*◌, ◌^◌, ◌≤◌, ℕ, ℤ, pos, ◌+ℤ◌, ◌-ℤ◌, ◌*ℤ◌, ◌<ℤ◌, ◌≤ℤ◌, unsigned_abs, FitsSigned, IfSome, IsNone};
ghost use Rattle.std.specs.Int.{w128};
ghost use Rattle.vector_bound.specs.Reaches.{AreInSize, IsFarEnough, IsRange, IsLeastReach};

use whole_math::{product, wide_product};

/// Nothing farther is looked at.
const FARTHEST: i64 = 1 << 30;

/// `high` is far enough, and `low` is not, or 0.
#[derive(Clone, Copy, Debug, PartialEq, Eq)]
pub(crate) struct Range {
    pub(crate) low: i64,
    pub(crate) high: i64,
}

/// x · x
fn square(x: i64) -> i64
    requires size { unsigned_abs x ≤ 2 ^ 30 }
    ensures value { result ≡ x *ℤ x }
    ensures size { unsigned_abs result ≤ 2 ^ 60 }
{
    product::<30, 30>(x, x) as i64
}

/// curved - (k + steep)
fn less_both(curved: i128, k: i128, steep: i128) -> i128
    requires curved { unsigned_abs curved ≤ 2 ^ 100 }
    requires k_from { pos 0 ≤ℤ k }
    requires k_to { k ≤ℤ pos (2 ^ 126) }
    requires steep { unsigned_abs steep ≤ 2 ^ 120 }
    ensures value { result ≡ curved -ℤ (k +ℤ steep) }
    ensures fits { FitsSigned w128 result }
{
    curved - (k + steep)
}

/// mu · x² - (k + l · x)
fn margin(mu: i128, l: i128, k: i128, x: i64) -> i128
    requires sizes { AreInSize mu l k }
    requires x_from { pos 1 ≤ℤ x }
    requires x_to { x ≤ℤ pos (2 ^ 30) }
    ensures value { result ≡ (mu *ℤ (x *ℤ x)) -ℤ (k +ℤ (l *ℤ x)) }
    ensures fits { FitsSigned w128 result }
{
    let curved = wide_product::<60, 40>(square(x), mu);
    let steep = wide_product::<30, 90>(x, l);
    less_both(curved, k, steep)
}

/// The number between the two, nearest to the half.
fn middle_of(low: i64, high: i64) -> i64
    requires from { pos 0 ≤ℤ low }
    requires apart { (low +ℤ pos 1) <ℤ high }
    requires to { high ≤ℤ pos (2 ^ 30) }
    ensures after { low <ℤ result }
    ensures before { result <ℤ high }
    ensures half_low { (w : ℕ) → high ≤ℤ (low +ℤ pos (2 * w)) → result ≤ℤ (low +ℤ pos w) }
    ensures half_high { (w : ℕ) → high ≤ℤ (low +ℤ pos (2 * w)) → high ≤ℤ (result +ℤ pos w) }
{
    low + (high - low) / 2
}

/// Half of a range that holds the least.
fn narrower(mu: i128, l: i128, k: i128, range: Range) -> Range
    requires sizes { AreInSize mu l k }
    requires range { IsRange mu l k range }
    ensures range { IsRange mu l k result }
    ensures half { (w : ℕ) → 1 ≤ w → range.high ≤ℤ (range.low +ℤ pos (2 * w)) →
        result.high ≤ℤ (result.low +ℤ pos w) }
{
    if range.high - range.low <= 1 {
        return range;
    }
    let middle = middle_of(range.low, range.high);
    let over = margin(mu, l, k, middle);
    if over >= 0 {
        Range {
            low: range.low,
            high: middle,
        }
    } else {
        Range {
            low: middle,
            high: range.high,
        }
    }
}

/// The range to begin with, of all that is looked at. `None` where its end isn't far enough.
fn whole_range(mu: i128, l: i128, k: i128) -> Option<Range>
    requires sizes { AreInSize mu l k }
    ensures range { IfSome result (λ r. IsRange mu l k r) }
    ensures width { IfSome result (λ r. r.high ≤ℤ (r.low +ℤ pos (2 ^ 30))) }
    ensures none { IsNone result → IsFarEnough mu l k (pos (2 ^ 30)) → ⊥ }
{
    let over = margin(mu, l, k, FARTHEST);
    if over < 0 {
        return None;
    }
    Some(Range {
        low: 0,
        high: FARTHEST,
    })
}

/// The least x from 1 to 2^30 with l · x + k at most mu · x². `None` where there is none.
pub(crate) fn least_reach(mu: i128, l: i128, k: i128) -> Option<i64>
    requires sizes { AreInSize mu l k }
    ensures least { IfSome result (λ x. IsLeastReach mu l k x) }
    ensures none { IsNone result → (x : ℤ) → IsLeastReach mu l k x → ⊥ }
{
    let mut range = whole_range(mu, l, k)?;
    for turn in 0..30u32 {
        range = narrower(mu, l, k, range);
    }
    Some(range.high)
}
