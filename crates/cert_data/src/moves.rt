//! The unit of a move in 0.1 mm.

use obs_rows::{MOVE_EXPONENT, UNIT_FREQUENCY};

/// A number of a move is 2^-5 ι, and ι is the speed of light over the unit's frequency; in 0.1 mm it is the speed of light
/// over this.
pub const MOVE_DIVISOR: i128 = (UNIT_FREQUENCY / 10_000 * (1 << MOVE_EXPONENT)) as i128;
