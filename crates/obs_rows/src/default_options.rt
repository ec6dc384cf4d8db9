//! The options of a run whose words name none.
ghost use Rattle.obs_rows.specs.Defaults.{AreDefaults};

use crate::defaults::{
    DEFAULT_ARC, DEFAULT_BUDGET, DEFAULT_COUNT, DEFAULT_FIRST, DEFAULT_GAP, DEFAULT_JUMP,
    DEFAULT_MASK, DEFAULT_RATIO, DEFAULT_STEP, DEFAULT_SYSTEM, default_bands,
};
use crate::options::Options;

impl Options {
    /// The options of a run whose words name none.
    pub const fn defaults() -> Options
        ensures { AreDefaults result }
    {
        Options {
            bands: default_bands(DEFAULT_SYSTEM),
            system: DEFAULT_SYSTEM,
            ratio: DEFAULT_RATIO,
            budget: DEFAULT_BUDGET,
            mask: DEFAULT_MASK,
            gap: DEFAULT_GAP,
            jump: DEFAULT_JUMP,
            arc: DEFAULT_ARC,
            step: DEFAULT_STEP,
            first: DEFAULT_FIRST,
            count: DEFAULT_COUNT,
        }
    }
}
