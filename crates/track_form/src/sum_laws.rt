//! What the pairs of a track say together: the laws behind its form, its upper sum and its decision. The bodies are empty.
ghost use Rattle.std.specs.Prelude.{◌≡◌, ◌≢◌, ℕ, ◌^◌, ◌<◌, ◌≤◌, List, [], ◌∷◌, ◌++◌, length, All, ℤ, pos, ◌+ℤ◌, ◌*ℤ◌, ◌≤ℤ◌, unsigned_abs};
ghost use Rattle.std.specs.List.{AllZip};
ghost use Rattle.whole_math.specs.Rational.{Rational, of_whole, ◌*ʳ◌, ◌≤ʳ◌, ◌<ʳ◌};
ghost use Rattle.whole_math.specs.Vectors.{len};
ghost use Rattle.quadratic_form.specs.Rows.{value};
ghost use Rattle.whole_math.specs.Spread.{sum_of_rationals};
ghost use Rattle.quadratic_form.specs.TwoLeast.{TwoLeast};
ghost use Rattle.fix_decide.specs.Decisions.{IsSeparated};
ghost use Rattle.obs_rows.specs.declared.arcs.Arc.{Arc};
ghost use Rattle.obs_rows.specs.declared.pair_rows.PairRows.{PairRows};
ghost use Rattle.obs_rows.specs.declared.limits.TheConstants.{MOST_PAIRS};
ghost use Rattle.track_form.specs.Fronts.{Front, track_entry, track_form, track_top, AreExponents, IsSmallFront, BoundsPair, IsAtMost};
ghost use Rattle.track_form.specs.SumDecided.{IsStrictlyBest, IsBestByRatio};

/// Where 64 times each pair's sum is at least 2^h_k times the value of its form at the integers z, 64 times the sum of all is at
/// least 2^h times the value of the track's form there. The pairs' sums may be of any data and baselines.
pub fn track_bound_law()
    ensures { (n h : ℕ) (z : List ℤ) (fs : List Front) (gs : List Rational) →
        All (λ f. f.h ≤ h) fs → len (z ++ (pos 1 ∷ [])) ≡ pos n → AllZip (BoundsPair n z) fs gs →
        of_whole (pos (2 ^ h) *ℤ value (track_form n h fs) z)
        ≤ʳ of_whole (pos 64) *ʳ sum_of_rationals gs }
{}

/// Each entry of the track's form is below 2^52 in size, and its exponent is at most 90.
pub fn track_size_law()
    ensures entries { (n e h : ℕ) (fs : List Front) → 1 ≤ length fs → length fs ≤ MOST_PAIRS →
        n ≤ 61 → AreExponents fs e h → All IsSmallFront fs → (i j : ℕ) →
        unsigned_abs (track_entry n h fs i j) < 2 ^ 52 }
    ensures exponent { (e h : ℕ) (fs : List Front) → length fs ≤ MOST_PAIRS →
        All (λ f. f.h ≤ 77) fs → AreExponents fs e h → h ≤ 90 }
{}

/// The sum of the pairs' sums is at most 2^h times the track's upper sum.
pub fn track_upper_law()
    ensures { (h : ℕ) (gs : List Rational) (us : List ℤ) → AllZip IsAtMost gs us →
        sum_of_rationals gs ≤ʳ of_whole (pos (2 ^ h) *ℤ track_top h us) }
{}

/// Where the second value is far enough above the upper sum, the sum at the least integers is less than at any others: `ours` are
/// the pairs' sums at z1 with the moves, `theirs` those of the rival w with a baseline of its own for each pair.
pub fn track_decision_law()
    ensures { (n h : ℕ) (fs : List Front) (ratio : ℤ) (us : List ℤ) (z1 z2 w : List ℤ)
        (ours theirs : List Rational) → All (λ f. f.h ≤ h) fs → (pos 1 +ℤ len z1) ≡ pos n →
        TwoLeast (track_form n h fs) (len z1) z1 z2 → pos 1000 ≤ℤ ratio → pos 0 ≤ℤ track_top h us →
        IsSeparated ratio (track_top h us) (value (track_form n h fs) z2) → len w ≡ len z1 →
        w ≢ z1 → AllZip IsAtMost ours us → AllZip (BoundsPair n w) fs theirs →
        sum_of_rationals ours <ʳ sum_of_rationals theirs }
{}

/// What is best by a ratio of 1000 or more is strictly best.
pub fn track_ratio_law()
    ensures { (ratio : ℕ) (arcs : List Arc) (ss : List ℕ) (pairs : List PairRows) (z : List ℤ)
        (moves : List (List ℤ)) → 1000 ≤ ratio → IsBestByRatio ratio arcs ss pairs z moves →
        IsStrictlyBest arcs ss pairs z moves }
{}
