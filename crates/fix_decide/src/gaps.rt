//! How far the residuals of each two rows may lie apart.
ghost use Rattle.std.specs.Prelude.{◌≡◌, ◌+◌, ◌*◌, ◌^◌, ◌≤◌, length, All, pos, ◌*ℤ◌, ◌≤ℤ◌};
ghost use Rattle.fix_decide.specs.Reaches.{IsNarrow, gap, gaps_from, gaps};

use crate::reaches::{ResidualBox, size};
use normal_sum::MOST_ROWS;

/// How far two residuals may lie apart.
fn gap(p: ResidualBox, q: ResidualBox) -> i64
    requires p { IsNarrow p }
    requires q { IsNarrow q }
    ensures value { result ≡ gap p q }
    ensures from { pos 0 ≤ℤ result }
    ensures to { result ≤ℤ pos (2 ^ 34) }
{
    let apart = size(p.centre - q.centre);
    let within = p.rad + q.rad;
    apart + within
}

/// gap²
fn square(gap: i64) -> i128
    requires from { pos 0 ≤ℤ gap }
    requires to { gap ≤ℤ pos (2 ^ 34) }
    ensures value { result ≡ gap *ℤ gap }
    ensures from { pos 0 ≤ℤ result }
    ensures to { result ≤ℤ pos (2 ^ 68) }
{
    gap as i128 * gap as i128
}

/// The sum of the squares of the gaps of one and each of the others.
fn gaps_from(p: ResidualBox, others: &[ResidualBox]) -> i128
    requires p { IsNarrow p }
    requires others { All IsNarrow others.now }
    requires few { length others.now ≤ MOST_ROWS }
    ensures value { result ≡ gaps_from p others.now }
    ensures from { pos 0 ≤ℤ result }
    ensures to { result ≤ℤ pos (length others.now * 2 ^ 68) }
{
    let mut sum = 0;
    for q in others {
        sum += square(gap(p, *q));
    }
    sum
}

/// The sum of the squares of the gaps of each two.
pub(crate) fn gaps(reaches: &[ResidualBox]) -> i128
    requires narrow { All IsNarrow reaches.now }
    requires few { length reaches.now ≤ MOST_ROWS }
    ensures value { result ≡ gaps reaches.now }
    ensures from { pos 0 ≤ℤ result }
    ensures to { result ≤ℤ pos (length reaches.now * 2 ^ 72) }
{
    let mut sum = 0;
    for (i, p) in reaches.iter().enumerate() {
        sum += gaps_from(*p, &reaches[i + 1..]);
    }
    sum
}
