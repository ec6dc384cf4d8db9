ghost use Rattle.std.specs.Prelude.{ℕ, ◌≡◌, ◌≤◌, List};
ghost use Rattle.obs_rows.specs.Ranges.{IsSystem};
ghost use Rattle.obs_rows.specs.declared.limits.TheConstants.{MOST_PAIRS};
ghost use Rattle.sim_session.specs.Texts.{tracking_of, IsBaseText, IsRoverText, IsNavigationText};
ghost use Rattle.sim_jobs.specs.Reads.{ReadsAsBase, ReadsAsRover, ReadsAsRecords};
ghost use Rattle.sim_jobs.specs.SameWords.{DifferInSignals};

/// The texts of a session are files by the readers' own definitions, with the values that they were made of. There is
/// nothing to run: the contract is the law, and its premises are clauses of `make`.
pub fn reading_law()
    ensures base { (seed epochs sats bands system : ℕ) (text : List ℕ) → epochs ≤ MOST_PAIRS →
        sats ≤ 15 → IsBaseText seed epochs sats bands system text →
        ReadsAsBase seed epochs sats bands system text }
    ensures rover { (seed epochs sats bands system : ℕ) (text : List ℕ) → epochs ≤ MOST_PAIRS →
        sats ≤ 15 → IsRoverText seed epochs sats bands system text →
        ReadsAsRover seed epochs sats bands system text }
    ensures nav { (sats system : ℕ) (text : List ℕ) → sats ≤ 15 → IsSystem system →
        IsNavigationText sats system text → ReadsAsRecords sats system text }
{}

/// Of sessions of the same words the navigation files are one, byte for byte, and the observation files of a receiver
/// differ in codes and phases alone.
pub fn same_words_law()
    ensures nav { (sats system : ℕ) (one other : List ℕ) → IsNavigationText sats system one →
        IsNavigationText sats system other → one ≡ other }
    ensures base { (seed epochs sats bands system : ℕ) (one other : List ℕ) →
        IsBaseText seed epochs sats bands system one →
        IsBaseText seed epochs sats bands system other →
        DifferInSignals epochs sats (tracking_of bands system) one other }
    ensures rover { (seed epochs sats bands system : ℕ) (one other : List ℕ) →
        IsRoverText seed epochs sats bands system one →
        IsRoverText seed epochs sats bands system other →
        DifferInSignals epochs sats (tracking_of bands system) one other }
{}
