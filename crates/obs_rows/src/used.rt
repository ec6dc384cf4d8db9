//! What a taken pair says of its satellites.
use crate::PHASES;

/// A satellite that a pair uses.
#[derive(Clone, Copy, Debug)]
pub struct UsedSat {
    /// The satellite's number.
    pub sat: u8,
    /// The rover's phase minus the base's on L1, on L2 and on L5, in thousandths of a cycle, and 0 on a band that is not used.
    pub phase: [i64; PHASES],
    /// Whether a receiver lost lock on one of its phases in one of the pair's epochs, or in one since the pair before.
    pub lost: bool,
}

/// A pair of epochs: the satellites that it uses, in rising number.
#[derive(Debug, Drop)]
pub struct UsedPair {
    /// Whether one of the pair's epochs, or one since the pair before, says that power failed.
    pub power: bool,
    pub sats: Vec<UsedSat>,
}
