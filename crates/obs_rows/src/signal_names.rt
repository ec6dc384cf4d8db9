//! The numbers of the signals that are spoken of one by one.

/// The phase on L1.
pub const L1_PHASE: usize = 0;

/// The phase on L2.
pub const L2_PHASE: usize = 1;

/// The code on L1: a receiver's clock and the group of a pair are known by it, and it alone counts at the coarse scale.
pub const L1_CODE: usize = 2;

/// The phase on L5.
pub const L5_PHASE: usize = 4;
