//! Laws of the decision: what the fronts of the pairs say of a refusal, and what a greater budget changes. The bodies are empty.
ghost use Rattle.std.specs.Prelude.{ℕ, ◌≤◌, List, All};
ghost use Rattle.obs_rows.specs.declared.arcs.Arc.{Arc};
ghost use Rattle.obs_rows.specs.declared.pair_rows.PairRows.{PairRows};
ghost use Rattle.integer_form.specs.declared.faults.LowerFault.{LowerFault};
ghost use Rattle.cert_data.specs.declared.verdicts.Verdict.TheVariants.{Certified};
ghost use Rattle.track_data.specs.declared.tails.TrackTail.{TrackTail};
ghost use Rattle.track_form.specs.PairFronts.{HasFront};
ghost use Rattle.track_form.specs.SumDecided.{IsFinishRefused};
ghost use Rattle.track_form.specs.Decided.{IsFormRefused, IsTrackDecision, IsFinal};
ghost use Rattle.track_form.specs.Verdicts.{IsTrackVerdict};

/// Where each pair has a front, the form is refused at the finish of their sum alone.
pub fn finish_refused_law()
    ensures { (arcs : List Arc) (ss : List ℕ) (pairs : List PairRows) (why : LowerFault) →
        All (HasFront arcs ss) pairs → IsFormRefused arcs ss pairs why →
        IsFinishRefused arcs ss pairs why }
{}

/// A greater budget loses no answer: what the rows of a track are decided to say, they say with each greater one, unless the
/// search ended without an answer; and what is certified stays so.
pub fn more_track_budget_law()
    ensures decision { (arcs : List Arc) (ss : List ℕ) (pairs : List PairRows) (ratio n m : ℕ)
        (tail : TrackTail) → n ≤ m → IsFinal tail → IsTrackDecision arcs ss pairs ratio n tail →
        IsTrackDecision arcs ss pairs ratio m tail }
    ensures certified { (arcs : List Arc) (ss : List ℕ) (pairs : List PairRows) (ratio n m : ℕ)
        (tail : TrackTail) → n ≤ m → IsTrackVerdict arcs ss pairs ratio n tail Certified →
        IsTrackVerdict arcs ss pairs ratio m tail Certified }
{}
