//! What the text of an observation file determines.
ghost use Rattle.std.specs.Prelude.{◌≡◌, ℕ, List};
ghost use Rattle.obs_store.specs.declared.file.ObsFile.{ObsFile};
ghost use Rattle.rinex_head.specs.declared.system.System.{System};
ghost use Rattle.job_answers.specs.Formats.{IsObservation};

/// Lines stand for at most one observation file of a system, whichever of the formats it is in. There is nothing to run:
/// the contract is the law.
pub fn one_observation_law()
    ensures { (system : System) (lines : List (List ℕ)) (file other : ObsFile) →
        IsObservation system lines file → IsObservation system lines other → file ≡ other }
{}
