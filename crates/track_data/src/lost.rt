//! Which pairs of a run are tracked, and which are lost.
ghost use Rattle.std.specs.Prelude.{◌<◌};
ghost use Rattle.obs_rows.specs.declared.limits.TheConstants.{MOST_PAIRS};

use crate::{Items, Track};

/// A pair that isn't tracked, and why.
#[derive(Clone, Copy, Debug, PartialEq, Eq)]
pub struct Lost {
    /// The number of the pair among those that were taken.
    pub pair: u32,
    pub cause: LostCause,
    pub ghost pair_in: { pair < MOST_PAIRS },
}

/// Why a pair isn't tracked: the first cause that holds, in this order.
#[derive(Clone, Copy, Debug, PartialEq, Eq)]
pub enum LostCause {
    /// It has fewer than four rows.
    Rows,
    /// A round by the codes on L1 alone was declined.
    Coarse,
    /// The last of these rounds hasn't settled.
    Unsettled,
    /// An observation at the fine scale is too large.
    Y,
    /// A pivot of its own form is too small.
    Weak,
    /// A number of its own form is too large.
    Wide,
}

/// A track, and the pairs that it hasn't got.
#[derive(Debug, Drop)]
pub struct Tracked {
    pub track: Track,
    pub lost: Items<Lost>,
}
