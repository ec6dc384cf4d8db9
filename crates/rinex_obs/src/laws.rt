//! From where the column and the reason of a refusal come.
ghost use Rattle.std.specs.Prelude.{◌≡◌, ℕ, List, Err};
ghost use Rattle.rinex_head.specs.declared.place.At.{At};
ghost use Rattle.rinex_head.specs.declared.system.System.{System};
ghost use Rattle.rinex_head.specs.OwnFlaws.{IsOwnFlaw};
ghost use Rattle.rinex_obs.specs.ObsRules.{obs_rules, obs_of};

/// The column and the reason of a refusal are those of the check of its own line. There is nothing to run: the contract
/// is the law.
pub fn obs_flaw_law()
    ensures { (system : System) (lines : List (List ℕ)) (at : At) → obs_of system lines ≡ Err at →
        IsOwnFlaw (obs_rules system) lines at }
{}
