//! Whether a float point is settled.
ghost use Rattle.std.specs.Prelude.{◌≡◌, ℕ, ◌^◌, ◌<◌, unsigned_abs, MatchOption};
ghost use Rattle.integer_form.specs.FloatPoint.{item};
ghost use Rattle.round_steps.specs.Limits.{limit, IsSettled, IsFirstOver};

use obs_rows::{LIGHT_SPEED, MOVE_EXPONENT, UNIT_FREQUENCY};
use quadratic_form::{BASELINE_COLUMNS, MOST_FACTORS};

/// 1 m in 2^-5 ι is this over the speed of light.
const METRE: i64 = UNIT_FREQUENCY * (1 << MOVE_EXPONENT);

/// 1 mm in 2^-5 ι, rounded.
pub const FINE_BASELINE: u64 = ((METRE + 500 * LIGHT_SPEED) / (1000 * LIGHT_SPEED)) as u64;

/// Three quarters of a cycle in 2^-16 of it.
pub const THREE_QUARTERS: u64 = 49_152;

/// Some 3 m in 2^9 ι.
pub const COARSE_BASELINE: u64 = 46;

/// The greatest size that a settled number of this column has.
fn limit(scale: u32, column: usize) -> u64
    ensures { result ≡ limit scale column }
{
    if scale != 0 {
        COARSE_BASELINE
    } else if column < BASELINE_COLUMNS {
        FINE_BASELINE
    } else {
        THREE_QUARTERS
    }
}

/// The first number that is over its limit. Where there is none, the float point is settled.
pub(crate) fn first_over(scale: u32, numbers: &[i64; MOST_FACTORS]) -> Option<i64>
    requires { (j : ℕ) → unsigned_abs (item numbers.now j) < 2 ^ 46 }
    ensures { MatchOption result (IsSettled scale numbers.now) (IsFirstOver scale numbers.now) }
{
    for column in 0..MOST_FACTORS {
        if numbers[column].unsigned_abs() > limit(scale, column) {
            return Some(numbers[column]);
        }
    }
    None
}
