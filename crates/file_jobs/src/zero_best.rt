//! Which whole number fits the differences best.
ghost use Rattle.std.specs.Prelude.{◌≡◌, ◌+◌, ◌-◌, ◌*◌, ◌^◌, ◌<◌, ◌≤◌, pos, neg_ℤ, ◌-ℤ◌, ◌*ℤ◌, ◌≤ℤ◌, length};
ghost use Rattle.whole_math.specs.Rounding.{IsCeil};
ghost use Rattle.file_jobs.specs.ZeroSums.{square, sum_at, total, IsLowest, AreSmall};
ghost use Rattle.file_jobs.specs.ZeroVerdicts.{IsVerdict};

use crate::zero_rows::ZeroRows;
use whole_math::ceil;

/// That the claimed number is strictly best, with its sum; or the other number of least sum, the lesser of two equals,
/// with both sums.
#[derive(Clone, Copy, Debug, PartialEq, Eq)]
pub enum Verdict {
    Optimal { sum: i128 },
    Beaten { sum: i128, by: i64, least: i128 },
}

fn misfit(diff: i64, w: i64) -> i128
    requires diff_low { neg_ℤ (pos (2 ^ 30)) ≤ℤ diff }
    requires diff_high { diff ≤ℤ pos (2 ^ 30) }
    requires low { neg_ℤ (pos (2 ^ 42)) ≤ℤ w }
    requires high { w ≤ℤ pos (2 ^ 42) }
    ensures value { result ≡ diff -ℤ pos 60 *ℤ w }
    ensures low { neg_ℤ (pos (2 ^ 49)) ≤ℤ result }
    ensures high { result ≤ℤ pos (2 ^ 49) }
{
    (diff - 60 * w) as i128
}

fn square_of(x: i128) -> i128
    requires low { neg_ℤ (pos (2 ^ 49)) ≤ℤ x }
    requires high { x ≤ℤ pos (2 ^ 49) }
    ensures value { result ≡ square x }
    ensures low { pos 0 ≤ℤ result }
    ensures high { result ≤ℤ pos (2 ^ 98) }
{
    x * x
}

// The sum of the squares of the differences less 60 for each unit of w.
fn sum_of(diffs: &[i64], w: i64) -> i128
    requires diffs { AreSmall diffs.now }
    requires count { length diffs.now ≤ 1000 }
    requires low { neg_ℤ (pos (2 ^ 42)) ≤ℤ w }
    requires high { w ≤ℤ pos (2 ^ 42) }
    ensures { result ≡ sum_at diffs.now w }
{
    let mut sum: i128 = 0;
    let mut rest = diffs;
    'diffs: while let [diff, after @ ..] = rest {
        let left = misfit(*diff, w);
        let square = square_of(left);
        sum += square;
        rest = after;
    }
    sum
}

fn total_of(diffs: &[i64]) -> i64
    requires diffs { AreSmall diffs.now }
    requires count { length diffs.now ≤ 1000 }
    ensures value { result ≡ total diffs.now }
    ensures low { neg_ℤ (pos (2 ^ 31 * length diffs.now)) ≤ℤ result }
    ensures high { result ≤ℤ pos (2 ^ 31 * length diffs.now) }
{
    let mut total: i64 = 0;
    let mut rest = diffs;
    'diffs: while let [diff, after @ ..] = rest {
        total += *diff;
        rest = after;
    }
    total
}

// (total - 30 · count) / (60 · count), rounded up.
fn lowest_place(total: i64, count: u64) -> i64
    requires count { count ≤ 1000 }
    requires some { 0 < count }
    requires low { neg_ℤ (pos (2 ^ 31 * count)) ≤ℤ total }
    requires high { total ≤ℤ pos (2 ^ 31 * count) }
    ensures place { IsCeil (total -ℤ pos (30 * count)) (60 * count) result }
    ensures low { neg_ℤ (pos (2 ^ 42)) ≤ℤ result }
    ensures high { result ≤ℤ pos (2 ^ 42) }
{
    let count = count as i128;
    ceil(total as i128 - 30 * count, 60 * count) as i64
}

// The least of the numbers whose sum is least.
fn lowest(diffs: &[i64]) -> i64
    requires diffs { AreSmall diffs.now }
    requires some { 0 < length diffs.now }
    requires count { length diffs.now ≤ 1000 }
    ensures lowest { IsLowest diffs.now result }
    ensures low { neg_ℤ (pos (2 ^ 42)) ≤ℤ result }
    ensures high { result ≤ℤ pos (2 ^ 42) }
{
    lowest_place(total_of(diffs), diffs.len() as u64)
}

/// Whether the claimed number is strictly best: whether the sum of the squares of what 60 times it leaves of the
/// differences is below that of every other whole number.
pub fn decide(rows: &ZeroRows) -> Verdict
    ensures { IsVerdict rows.now.diffs rows.now.claim result }
{
    verdict_on(rows.diffs(), rows.claim())
}

fn verdict_on(diffs: &[i64], z: i64) -> Verdict
    requires diffs { AreSmall diffs.now }
    requires some { 0 < length diffs.now }
    requires count { length diffs.now ≤ 1000 }
    requires low { neg_ℤ (pos (2 ^ 29)) ≤ℤ z }
    requires high { z ≤ℤ pos (2 ^ 29) }
    ensures { IsVerdict diffs.now z result }
{
    let sum = sum_of(diffs, z);
    let best = lowest(diffs);
    if best != z {
        let least = sum_of(diffs, best);
        return Verdict::Beaten {
            sum,
            by: best,
            least,
        };
    }
    let next = z + 1;
    let least = sum_of(diffs, next);
    if sum < least {
        Verdict::Optimal { sum }
    } else {
        Verdict::Beaten {
            sum,
            by: next,
            least,
        }
    }
}
