//! Where a receiver may be.
ghost use Rattle.std.specs.Prelude.{◌≡◌, ◌↔◌, ◌*◌, ◌^◌, ◌≤◌, pos, ◌*ℤ◌, ◌≤ℤ◌, unsigned_abs, IsTrue};
ghost use Rattle.whole_math.specs.Vectors.{squared_norm};
ghost use Rattle.obs_rows.specs.Ranges.{IsPoint};
ghost use Rattle.obs_rows.specs.ReceiverPoints.{IsReceiverPoint};
ghost use Rattle.obs_rows.specs.declared.limits.TheConstants.{MOST_COORDINATE};

use crate::{LEAST_DISTANCE, MOST_DISTANCE, is_point};

// The square of a receiver's greatest distance from the Earth's centre.
const FARTHEST_SQUARED: i128 = MOST_DISTANCE as i128 * MOST_DISTANCE as i128;

// The square of the least distance.
const NEAREST_SQUARED: i128 = LEAST_DISTANCE as i128 * LEAST_DISTANCE as i128;

fn square(n: i64) -> i128
    requires { unsigned_abs n ≤ MOST_COORDINATE }
    ensures value { result ≡ n *ℤ n }
    ensures from { pos 0 ≤ℤ result }
    ensures to { result ≤ℤ pos (2 ^ 80) }
{
    n as i128 * n as i128
}

// The square of a point's distance from the Earth's centre.
fn squared(point: &[i64; 3]) -> i128
    requires { IsPoint point.now }
    ensures { result ≡ squared_norm point.now }
{
    square(point[0]) + (square(point[1]) + square(point[2]))
}

fn is_at_distance(squared: i128) -> bool
    ensures { IsTrue result ↔ ((pos (LEAST_DISTANCE * LEAST_DISTANCE) ≤ℤ squared)
        × (squared ≤ℤ pos (MOST_DISTANCE * MOST_DISTANCE))) }
{
    NEAREST_SQUARED <= squared && squared <= FARTHEST_SQUARED
}

/// Whether a receiver may be at a point, in 0.1 mm: from 6,000 km to 7,000 km from the Earth's centre.
pub fn is_receiver_point(point: &[i64; 3]) -> bool
    ensures { IsTrue result ↔ IsReceiverPoint point.now }
{
    if !is_point(point) {
        return false;
    }
    is_at_distance(squared(point))
}
