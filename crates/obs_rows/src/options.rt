//! The options of a run.
ghost use Rattle.std.specs.Prelude.{◌≤◌};
ghost use Rattle.obs_rows.specs.BandSets.{IsBandsNumber};
ghost use Rattle.obs_rows.specs.Ranges.{IsSystem};
ghost use Rattle.obs_rows.specs.declared.limits.TheConstants.{MOST_PAIRS, MOST_RATIO, MOST_BUDGET};

/// The letter of GPS.
pub const GPS: u8 = b'G';

/// The letter of Galileo.
pub const GALILEO: u8 = b'E';

/// The options of a run, each in its range.
#[derive(Clone, Copy, Debug, PartialEq, Eq)]
pub struct Options {
    /// The bands that are used, by the number of their set: 12, 15 or 125.
    pub bands: u16,
    /// The satellite system, by its letter.
    pub system: u8,
    /// The least ratio of the second best value to the best, in thousandths.
    pub ratio: u32,
    /// The most suffixes that a search visits.
    pub budget: u64,
    /// The least sine of an elevation, in thousandths.
    pub mask: u32,
    /// The largest difference of paired tags, in ticks.
    pub gap: u64,
    /// The largest jump of the phases against each other without a cut, in κ.
    pub jump: u32,
    /// The least number of pairs of a kept arc.
    pub arc: u32,
    /// Every Nth pair is taken.
    pub step: u32,
    /// The number of the first pair that is taken.
    pub first: u32,
    /// At most this many pairs are taken.
    pub count: u32,
    pub ghost on_bands: { IsBandsNumber bands },
    pub ghost of_system: { IsSystem system },
    pub ghost ratio_from: { 1000 ≤ ratio },
    pub ghost ratio_to: { ratio ≤ MOST_RATIO },
    pub ghost budget_from: { 1 ≤ budget },
    pub ghost budget_to: { budget ≤ MOST_BUDGET },
    pub ghost mask_to: { mask ≤ 900 },
    pub ghost gap_to: { gap ≤ 5_000_000 },
    pub ghost jump_from: { 1 ≤ jump },
    pub ghost jump_to: { jump ≤ 1000 },
    pub ghost arc_from: { 2 ≤ arc },
    pub ghost arc_to: { arc ≤ MOST_PAIRS },
    pub ghost step_from: { 1 ≤ step },
    pub ghost step_to: { step ≤ 1000 },
    pub ghost first_to: { first ≤ 19_999 },
    pub ghost count_from: { 1 ≤ count },
    pub ghost count_to: { count ≤ MOST_PAIRS },
}
