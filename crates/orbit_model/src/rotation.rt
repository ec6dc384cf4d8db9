//! The Earth's rotation.

/// The Earth's rate of turn in 10^-15 rad/s (IS-GPS-200, table 20-IV).
pub const EARTH_ROTATION: u64 = 72_921_151_467;
