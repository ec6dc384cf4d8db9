//! Pairs as the first version has them.
ghost use Rattle.std.specs.Prelude.{◌^◌, ◌<◌, ◌≤◌, length, unsigned_abs, AllPairs};
ghost use Rattle.obs_rows.specs.declared.limits.TheConstants.{MOST_PAIRS, MOST_SATELLITES};

use crate::OldRow;
use gps_time::Tick;
use obs_rows::Items;

/// A pair of epochs that has a row.
#[derive(Debug, Drop)]
pub struct OldPair {
    /// The number of the pair among those that were taken.
    pub number: u32,
    /// The base's tag.
    pub tag: Tick,
    /// The whole number of κ that is taken off every observation of the pair.
    pub group: i64,
    /// At most one row for each arc, in the arcs' order.
    pub rows: Items<OldRow>,
    pub ghost number_in: { number < MOST_PAIRS },
    pub ghost tag_in: { tag.0 < 2 ^ 63 },
    pub ghost group_in: { unsigned_abs group < 2 ^ 50 },
    pub ghost some_rows: { 1 ≤ length rows },
    pub ghost few_rows: { length rows ≤ MOST_SATELLITES },
    pub ghost arcs_rise: { AllPairs (λ r s. r.arc < s.arc) rows },
}
