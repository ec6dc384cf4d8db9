//! From where the column and the reason of a refusal come.
ghost use Rattle.std.specs.Prelude.{◌≡◌, ℕ, List, Err};
ghost use Rattle.rinex_head.specs.declared.place.At.{At};
ghost use Rattle.rinex_head.specs.OwnFlaws.{IsOwnFlaw};
ghost use Rattle.rinex2_obs.specs.Obs2Rules.{obs2_rules, obs2_of};

/// The column and the reason of a refusal are those of the check of its own line. There is nothing to run: the contract
/// is the law.
pub fn obs2_flaw_law()
    ensures { (lines : List (List ℕ)) (at : At) → obs2_of lines ≡ Err at →
        IsOwnFlaw obs2_rules lines at }
{}
