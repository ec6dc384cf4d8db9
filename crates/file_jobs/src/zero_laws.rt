//! What the text of a `zero` file determines. There is nothing to run: the contracts are the laws.
ghost use Rattle.std.specs.Prelude.{◌≡◌, ℕ, ℤ, List, Err};
ghost use Rattle.rinex_head.specs.declared.place.At.{At};
ghost use Rattle.rinex_head.specs.OwnFlaws.{IsOwnFlaw};
ghost use Rattle.file_jobs.specs.ZeroRows.{AreRows};
ghost use Rattle.file_jobs.specs.ZeroRules.{rows_rules, rows_of};

/// Lines stand for at most one claimed number, and for one list of differences.
pub fn one_rows_law()
    ensures { (lines : List (List ℕ)) (z other : ℤ) (ds others : List ℤ) → AreRows lines z ds →
        AreRows lines other others → (z ≡ other) × (ds ≡ others) }
{}

/// The column and the reason of a refusal are those of the check of its own line.
pub fn rows_flaw_law()
    ensures { (lines : List (List ℕ)) (at : At) → rows_of lines ≡ Err at →
        IsOwnFlaw rows_rules lines at }
{}
