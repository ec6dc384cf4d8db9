//! What a run uses that is asked for nothing in particular.
ghost use Rattle.std.specs.Prelude.{◌≡◌};
ghost use Rattle.obs_rows.specs.Defaults.{default_bands};

use crate::{BANDS_L1_L2, BANDS_L1_L5, GALILEO, GPS, MOST_PAIRS};

/// The satellite system, by its letter.
pub const DEFAULT_SYSTEM: u8 = GPS;

/// The bands of a system: L1 and L5 of Galileo, L1 and L2 of GPS.
pub const fn default_bands(system: u8) -> u16
    ensures { result ≡ default_bands system }
{
    if system == GALILEO {
        BANDS_L1_L5
    } else {
        BANDS_L1_L2
    }
}

/// The least ratio of the second best value to the best, in thousandths.
pub const DEFAULT_RATIO: u32 = 2_000;

/// The most suffixes that a search visits.
pub const DEFAULT_BUDGET: u64 = 1_000_000;

/// The least sine of an elevation, in thousandths.
pub const DEFAULT_MASK: u32 = 200;

/// The largest difference of paired tags, in ticks.
pub const DEFAULT_GAP: u64 = 100_000;

/// The largest jump of the phases against each other without a cut, in κ.
pub const DEFAULT_JUMP: u32 = 12;

/// The least number of pairs of a kept arc.
pub const DEFAULT_ARC: u32 = 5;

/// Each pair is taken.
pub const DEFAULT_STEP: u32 = 1;

/// Pairs are taken from the first one on.
pub const DEFAULT_FIRST: u32 = 0;

/// The largest number of pairs to use.
pub const DEFAULT_COUNT: u32 = MOST_PAIRS;
