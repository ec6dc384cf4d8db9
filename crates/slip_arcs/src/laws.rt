//! The unit of a jump, and which jump is the first that cuts.
ghost use Rattle.std.specs.Prelude.{ℕ, ◌≡◌, true, false, [], ◌∷◌, pos, ◌*ℤ◌};
ghost use Rattle.obs_rows.specs.declared.units.TheConstants.{UNIT_FREQUENCY};
ghost use Rattle.obs_rows.specs.declared.used.UsedSat.{UsedSat};
ghost use Rattle.slip_arcs.specs.Used.{kappa, jump_of, does_jump};

/// A jump is measured in κ = c / (9240 · 10.23 MHz), 23 ι, so that L1 is 60 κ and L2 77. At the usual 12 κ a jump of
/// 276 ι cuts nothing, and a longer one cuts, whatever band it is on.
pub fn jump_law()
    // ι is c / UNIT_FREQUENCY, and a phase is in thousandths of a cycle
    ensures kappa { (pos kappa *ℤ pos 9240) *ℤ pos 10_230_000 ≡ pos 1000 *ℤ UNIT_FREQUENCY }
    ensures stays { (before now : UsedSat) (band : ℕ) → jump_of 0 band before now ≡ 276_000 →
        does_jump 12 (band ∷ []) before now ≡ false }
    ensures cuts { (before now : UsedSat) (band : ℕ) → jump_of 0 band before now ≡ 276_001 →
        does_jump 12 (band ∷ []) before now ≡ true }
{}
