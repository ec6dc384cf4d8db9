//! Points, and how they move by a baseline.
ghost use Rattle.std.specs.Prelude.{◌≡◌, ℕ, ◌*◌, ◌^◌, ◌<◌, ◌≤◌, pos, ◌*ℤ◌, unsigned_abs};
ghost use Rattle.whole_math.specs.Rounding.{nearest_div};
ghost use Rattle.obs_rows.specs.Ranges.{IsScale, IsPoint, IsBelow, IsWithin};
ghost use Rattle.obs_rows.specs.declared.units.TheConstants.{LIGHT_SPEED, COARSE_SCALE};
ghost use Rattle.obs_rows.specs.declared.limits.TheConstants.{MOST_COORDINATE};
ghost use Rattle.integer_form.specs.FloatPoint.{item};
ghost use Rattle.cert_data.specs.Moves.{parts};
ghost use Rattle.round_steps.specs.Points.{moved_coordinate, moved_point};

use cert_data::MOVE_DIVISOR;
use obs_rows::{COARSE_SCALE, LIGHT_SPEED};
use quadratic_form::MOST_FACTORS;
use whole_math::nearest;

/// 2^scale times the speed of light.
fn unit(scale: u32) -> i64
    requires { IsScale scale }
    ensures value { result ≡ pos (2 ^ scale * unsigned_abs LIGHT_SPEED) }
    ensures size { 2 ^ scale * unsigned_abs LIGHT_SPEED
        ≤ 2 ^ COARSE_SCALE * unsigned_abs LIGHT_SPEED }
{
    if scale == 0 {
        LIGHT_SPEED
    } else {
        LIGHT_SPEED * (1 << COARSE_SCALE)
    }
}

/// A number times 2^scale and the speed of light.
fn scaled(scale: u32, number: i64) -> i128
    requires scale { IsScale scale }
    requires number { IsBelow (2 ^ 46) number }
    ensures value { result ≡ number *ℤ pos (2 ^ scale * unsigned_abs LIGHT_SPEED) }
    ensures size { unsigned_abs result ≤ 2 ^ 46 * (2 ^ COARSE_SCALE * unsigned_abs LIGHT_SPEED) }
{
    number as i128 * unit(scale) as i128
}

/// A number of a baseline in 0.1 mm.
fn in_point_units(scale: u32, number: i64) -> i64
    requires scale { IsScale scale }
    requires number { IsBelow (2 ^ 46) number }
    ensures value { result
        ≡ nearest_div (number *ℤ pos (2 ^ scale * unsigned_abs LIGHT_SPEED)) parts }
    ensures size { unsigned_abs result < 2 ^ 58 }
{
    nearest(scaled(scale, number), MOVE_DIVISOR) as i64
}

/// A coordinate in 0.1 mm, moved by a number of a baseline.
fn moved_coordinate(scale: u32, coordinate: i64, number: i64) -> i64
    requires scale { IsScale scale }
    requires coordinate { IsWithin MOST_COORDINATE coordinate }
    requires number { IsBelow (2 ^ 46) number }
    ensures value { result ≡ moved_coordinate scale coordinate number }
    ensures size { unsigned_abs result < 2 ^ 60 }
{
    coordinate + in_point_units(scale, number)
}

/// The point moved by the baseline of a float point.
pub(crate) fn moved_point(scale: u32, point: &[i64; 3], numbers: &[i64; MOST_FACTORS]) -> [i64; 3]
    requires scale { IsScale scale }
    requires point { IsPoint point.now }
    requires numbers { (j : ℕ) → unsigned_abs (item numbers.now j) < 2 ^ 46 }
    ensures { result ≡ moved_point scale point.now numbers.now }
{
    let x = moved_coordinate(scale, point[0], numbers[0]);
    let y = moved_coordinate(scale, point[1], numbers[1]);
    let z = moved_coordinate(scale, point[2], numbers[2]);
    [x, y, z]
}
