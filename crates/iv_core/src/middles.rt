//! The middle between two ends.
ghost use Rattle.std.specs.Prelude.{◌^◌, pos, ◌+ℤ◌, ◌-ℤ◌, ◌≤ℤ◌};

fn half_of(width: i64) -> i64
    requires low { pos 0 ≤ℤ width }
    requires high { width ≤ℤ pos (2 ^ 62) }
    ensures below { (result +ℤ result) ≤ℤ width }
    ensures near { width ≤ℤ ((result +ℤ result) +ℤ pos 1) }
{
    width >> 1
}

/// The middle of a box's ends, rounded down.
#[inline]
pub fn middle_between(lo: i64, hi: i64) -> i64
    requires ordered { lo ≤ℤ hi }
    requires narrow { (hi -ℤ lo) ≤ℤ pos (2 ^ 62) }
    ensures low { lo ≤ℤ result }
    ensures high { result ≤ℤ hi }
    ensures nearer { (result -ℤ lo) ≤ℤ (hi -ℤ result) }
    ensures half { ((hi -ℤ result) +ℤ (hi -ℤ result)) ≤ℤ ((hi -ℤ lo) +ℤ pos 1) }
{
    lo + half_of(hi - lo)
}
