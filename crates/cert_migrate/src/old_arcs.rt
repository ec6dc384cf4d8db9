//! Arcs as the first version has them.

/// A run of pairs in which a satellite was used without a cycle slip.
#[derive(Clone, Copy, Debug, PartialEq, Eq)]
pub struct OldArc {
    /// The satellite's number.
    pub sat: u8,
    /// The number of the first pair.
    pub first: u32,
    /// The number of the last pair.
    pub last: u32,
    /// Whether the arc is a datum, whose integers are 0. Any other arc is free.
    pub datum: bool,
    /// The whole cycles that are taken off the phases on L1 and on L2.
    pub shift: [i64; 2],
}
