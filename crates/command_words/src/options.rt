//! The options of a run by what is given.
ghost use Rattle.std.specs.Prelude.{MatchOption};
ghost use Rattle.obs_rows.specs.declared.options.Options.{Options};
ghost use Rattle.command_words.specs.Settings.{AreOptions, ArePairOptions};

use crate::choices::signal_choice_of;
use crate::settings::{Given, Limits, Setting, is_left_out, number_for};
use obs_rows::{
    DEFAULT_ARC, DEFAULT_BUDGET, DEFAULT_COUNT, DEFAULT_FIRST, DEFAULT_GAP, DEFAULT_JUMP,
    DEFAULT_MASK, DEFAULT_RATIO, DEFAULT_STEP, MOST_BUDGET, MOST_PAIRS, MOST_RATIO, Options,
};

const RATIO: Limits = Limits {
    least: 1_000,
    most: MOST_RATIO as u64,
    plain: DEFAULT_RATIO as u64,
};

const BUDGET: Limits = Limits {
    least: 1,
    most: MOST_BUDGET,
    plain: DEFAULT_BUDGET,
};

const MASK: Limits = Limits {
    least: 0,
    most: 900,
    plain: DEFAULT_MASK as u64,
};

const GAP: Limits = Limits {
    least: 0,
    most: 5_000_000,
    plain: DEFAULT_GAP,
};

const JUMP: Limits = Limits {
    least: 1,
    most: 1_000,
    plain: DEFAULT_JUMP as u64,
};

const ARC: Limits = Limits {
    least: 2,
    most: MOST_PAIRS as u64,
    plain: DEFAULT_ARC as u64,
};

const STEP: Limits = Limits {
    least: 1,
    most: 1_000,
    plain: DEFAULT_STEP as u64,
};

const FIRST: Limits = Limits {
    least: 0,
    most: 19_999,
    plain: DEFAULT_FIRST as u64,
};

const COUNT: Limits = Limits {
    least: 1,
    most: MOST_PAIRS as u64,
    plain: DEFAULT_COUNT as u64,
};

/// The options with the numbers that are given, and the defaults of the others.
pub fn options_of(given: &[Given]) -> Option<Options>
    ensures { MatchOption result ((o : Options) → AreOptions given.now o →
        ⊥) (λ o. AreOptions given.now o) }
{
    let ratio = number_for(given, Setting::Ratio, &RATIO)?;
    let budget = number_for(given, Setting::Budget, &BUDGET)?;
    let mask = number_for(given, Setting::Mask, &MASK)?;
    let gap = number_for(given, Setting::Gap, &GAP)?;
    let jump = number_for(given, Setting::Jump, &JUMP)?;
    let arc = number_for(given, Setting::Arc, &ARC)?;
    let step = number_for(given, Setting::Step, &STEP)?;
    let first = number_for(given, Setting::First, &FIRST)?;
    let count = number_for(given, Setting::Count, &COUNT)?;
    let choice = signal_choice_of(given)?;
    Some(Options {
        bands: choice.bands,
        system: choice.system,
        ratio: ratio as u32,
        budget,
        mask: mask as u32,
        gap,
        jump: jump as u32,
        arc: arc as u32,
        step: step as u32,
        first: first as u32,
        count: count as u32,
    })
}

/// The options of a command that searches nothing: None where a ratio or a budget is given.
pub fn pair_options_of(given: &[Given]) -> Option<Options>
    ensures { MatchOption result ((o : Options) → ArePairOptions given.now o →
        ⊥) (λ o. ArePairOptions given.now o) }
{
    if !is_left_out(given, Setting::Ratio) || !is_left_out(given, Setting::Budget) {
        return None;
    }
    options_of(given)
}
