//! What the constants are: a definition that cites one by name means these numbers.
ghost use Rattle.std.specs.Prelude.{◌≡◌};
ghost use Rattle.obs_rows.specs.declared.band_sets.TheConstants.{BANDS_L1_L2, BANDS_L1_L5};
ghost use Rattle.obs_rows.specs.declared.limits.TheConstants.{MOST_PAIRS};
ghost use Rattle.obs_rows.specs.Defaults.{default_bands};
ghost use Rattle.obs_rows.specs.declared.options.TheConstants.{GPS, GALILEO};
ghost use Rattle.obs_rows.specs.declared.defaults.TheConstants.{DEFAULT_SYSTEM, DEFAULT_RATIO, DEFAULT_BUDGET, DEFAULT_MASK, DEFAULT_GAP, DEFAULT_JUMP, DEFAULT_ARC, DEFAULT_STEP, DEFAULT_FIRST, DEFAULT_COUNT};

/// The numbers of a run that is asked for nothing in particular.
pub fn defaults_law()
    // the letters G and E
    ensures gps { GPS ≡ 71 }
    ensures galileo { GALILEO ≡ 69 }
    ensures system { DEFAULT_SYSTEM ≡ GPS }
    ensures bands { default_bands GPS ≡ BANDS_L1_L2 }
    ensures bands_of_galileo { default_bands GALILEO ≡ BANDS_L1_L5 }
    ensures ratio { DEFAULT_RATIO ≡ 2000 }
    ensures budget { DEFAULT_BUDGET ≡ 1_000_000 }
    ensures mask { DEFAULT_MASK ≡ 200 }
    ensures gap { DEFAULT_GAP ≡ 100_000 }
    ensures jump { DEFAULT_JUMP ≡ 12 }
    ensures arc { DEFAULT_ARC ≡ 5 }
    ensures step { DEFAULT_STEP ≡ 1 }
    ensures first { DEFAULT_FIRST ≡ 0 }
    ensures count { DEFAULT_COUNT ≡ MOST_PAIRS }
{}
