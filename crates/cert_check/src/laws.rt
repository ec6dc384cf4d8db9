//! A law of the decision. There is nothing to run.
ghost use Rattle.std.specs.Prelude.{ℕ, ◌≤◌};
ghost use Rattle.obs_rows.specs.declared.sessions.Session.{Session};
ghost use Rattle.cert_data.specs.declared.tails.Tail.{Tail};
ghost use Rattle.cert_data.specs.declared.verdicts.Verdict.TheVariants.{Certified};
ghost use Rattle.cert_check.specs.RowDecisions.{IsRowDecision, IsFinal};
ghost use Rattle.cert_check.specs.Verdicts.{IsVerdictOf};

/// A greater budget loses no answer: what rows are decided to say, they say with each greater one, unless the search ended
/// without an answer; and what is certified stays so.
pub fn more_budget_law()
    ensures decision { (s : Session) (ratio n m : ℕ) (tail : Tail) → n ≤ m → IsFinal tail →
        IsRowDecision s ratio n tail → IsRowDecision s ratio m tail }
    ensures certified { (s : Session) (ratio n m : ℕ) (tail : Tail) → n ≤ m →
        IsVerdictOf s ratio n tail Certified → IsVerdictOf s ratio m tail Certified }
{}
