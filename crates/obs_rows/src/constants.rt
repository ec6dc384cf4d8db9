//! What the constants are. Definitions cite them by their names, so a slip in one would change a body and its meaning
//! together, and no other contract would see it.
ghost use Rattle.std.specs.Prelude.{◌≡◌, [], ◌∷◌, pos, ◌*◌, ◌*ℤ◌, ◌+◌, codes};
ghost use Rattle.quadratic_form.specs.declared.sizes.TheConstants.{MOST_INTEGERS};
ghost use Rattle.obs_rows.specs.Signals.{wavelength};
ghost use Rattle.obs_rows.specs.declared.band_sets.TheConstants.{PHASE_SIGNALS};
ghost use Rattle.obs_rows.specs.declared.signal_names.TheConstants.{L1_PHASE, L2_PHASE, L1_CODE, L5_PHASE};
ghost use Rattle.obs_rows.specs.declared.bands.TheConstants.{L1_LETTERS, L2_LETTERS, L5_LETTERS};
ghost use Rattle.obs_rows.specs.declared.limits.TheConstants.{MOST_PAIRS, LAST_PAIR, MOST_SATELLITES, MOST_ARCS, MOST_KEPT_ARCS, MOST_RATIO, MOST_BUDGET, MOST_COORDINATE, LEAST_DISTANCE, MOST_DISTANCE};
ghost use Rattle.obs_rows.specs.declared.units.TheConstants.{SIGNALS, PHASES, BANDS, WAVELENGTHS, WEIGHTS};
ghost use Rattle.obs_rows.specs.declared.units.TheConstants.{SIGNALS_12, SIGNALS_15, SIGNALS_125, BANDS_12, BANDS_15, BANDS_125, COARSE_SIGNALS, COARSE_SCALE};
ghost use Rattle.obs_rows.specs.declared.units.TheConstants.{UNIT_FREQUENCY, LIGHT_SPEED, ROW_EXPONENT, DIRECTION_EXPONENT, MOVE_EXPONENT, MOST_FREE_ARCS};

/// The unit ι, and the signals by their numbers: phase on L1, phase on L2, code on L1, code on L2, phase on L5, code on L5.
pub fn signals_law()
    // the carriers are 154, 120 and 115 times 10.23 MHz (IS-GPS-200, 3.3.1.1, and IS-GPS-705, 3.3.1.1), so 1380 ι, 1771 ι
    // and 1848 ι are their wavelengths
    ensures l1 { (wavelength 0 *ℤ pos 154) *ℤ pos 10_230_000 ≡ UNIT_FREQUENCY }
    ensures l2 { (wavelength 1 *ℤ pos 120) *ℤ pos 10_230_000 ≡ UNIT_FREQUENCY }
    ensures l5 { (wavelength 4 *ℤ pos 115) *ℤ pos 10_230_000 ≡ UNIT_FREQUENCY }
    ensures unit { UNIT_FREQUENCY ≡ pos 2_174_079_600_000 }
    // in m/s (IS-GPS-200, 20.3.4.3)
    ensures light_speed { LIGHT_SPEED ≡ pos 299_792_458 }
    ensures signals { SIGNALS ≡ 6 }
    ensures phases { PHASES ≡ 3 }
    ensures bands { BANDS ≡ 0 ∷ 1 ∷ 0 ∷ 1 ∷ 2 ∷ 2 ∷ [] }
    ensures wavelengths { WAVELENGTHS
        ≡ pos 1380 ∷ pos 1771 ∷ pos 0 ∷ pos 0 ∷ pos 1848 ∷ pos 0 ∷ [] }
    // this project's choice, as is all that follows
    ensures weights { WEIGHTS ≡ pos 10_000 ∷ pos 10_000 ∷ pos 1 ∷ pos 1 ∷ pos 10_000 ∷ pos 1 ∷ [] }
    ensures of_l1_l2 { SIGNALS_12 ≡ 0 ∷ 1 ∷ 2 ∷ 3 ∷ [] }
    ensures of_l1_l5 { SIGNALS_15 ≡ 0 ∷ 2 ∷ 4 ∷ 5 ∷ [] }
    ensures of_all { SIGNALS_125 ≡ 0 ∷ 1 ∷ 2 ∷ 3 ∷ 4 ∷ 5 ∷ [] }
    ensures bands_of_l1_l2 { BANDS_12 ≡ 0 ∷ 1 ∷ [] }
    ensures bands_of_l1_l5 { BANDS_15 ≡ 0 ∷ 2 ∷ [] }
    ensures bands_of_all { BANDS_125 ≡ 0 ∷ 1 ∷ 2 ∷ [] }
    ensures coarse { COARSE_SIGNALS ≡ 2 ∷ [] }
    ensures phases_by_name { PHASE_SIGNALS ≡ L1_PHASE ∷ L2_PHASE ∷ L5_PHASE ∷ [] }
    ensures coarse_by_name { COARSE_SIGNALS ≡ L1_CODE ∷ [] }
{}

/// The letters of the codes on each band in the order in which they are tried, the one that most receivers have first
/// (RINEX 3, table of GPS observation codes; the order is this project's choice).
pub fn letters_law()
    ensures l1 { L1_LETTERS ≡ codes "CWXSL" }
    ensures l2 { L2_LETTERS ≡ codes "WXLSC" }
    ensures l5 { L5_LETTERS ≡ codes "QXI" }
{}

/// The units of this project's rows, and that its forms have room for the integers of all free arcs.
pub fn sizes_law()
    ensures coarse_scale { COARSE_SCALE ≡ 14 }
    ensures rows { ROW_EXPONENT ≡ 13 }
    ensures directions { DIRECTION_EXPONENT ≡ 24 }
    ensures moves { MOVE_EXPONENT ≡ 5 }
    ensures free_arcs { MOST_FREE_ARCS ≡ 20 }
    // one for each free arc and phase
    ensures integers { MOST_INTEGERS ≡ PHASES * MOST_FREE_ARCS }
{}

/// The greatest numbers that a session, a run and a certificate may have.
pub fn limits_law()
    ensures pairs { MOST_PAIRS ≡ 3600 }
    // the first has the number 0
    ensures last_pair { MOST_PAIRS ≡ LAST_PAIR + 1 }
    ensures satellites { MOST_SATELLITES ≡ 15 }
    ensures arcs { MOST_ARCS ≡ 200 }
    // one for each satellite of each pair
    ensures kept_arcs { MOST_KEPT_ARCS ≡ MOST_SATELLITES * MOST_PAIRS }
    // 100, in thousandths
    ensures ratio { MOST_RATIO ≡ 100_000 }
    ensures budget { MOST_BUDGET ≡ 100_000_000 }
    // 7,000 km in 0.1 mm
    ensures coordinate { MOST_COORDINATE ≡ 70_000_000_000 }
    // 6,000 km and 7,000 km
    ensures nearest { LEAST_DISTANCE ≡ 60_000_000_000 }
    ensures farthest { MOST_DISTANCE ≡ 70_000_000_000 }
{}
