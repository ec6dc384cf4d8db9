//! What the known texts of a session's files determine. There is nothing to run: the contracts are the laws.
ghost use Rattle.std.specs.Prelude.{◌≡◌, ℕ, List, Some};
ghost use Rattle.std.specs.declared.option.Option.{Option};
ghost use Rattle.obs_store.specs.declared.file.ObsFile.{ObsFile};
ghost use Rattle.eph_store.specs.File.{Records};
ghost use Rattle.rinex_head.specs.declared.system.System.{System};
ghost use Rattle.job_answers.specs.SessionFiles.{IsObsOf, IsNavOf};

/// A file whose text is known stands for at most one observation file of a system.
pub fn one_obs_law()
    ensures { (system : System) (text_of : List ℕ →
        Option (List ℕ)) (name text : List ℕ) (file other : ObsFile) → text_of name ≡ Some text →
        IsObsOf system text_of name file → IsObsOf system text_of name other → file ≡ other }
{}

/// A file whose text is known stands for at most one list of the records of a system.
pub fn one_nav_law()
    ensures { (system : System) (text_of : List ℕ →
        Option (List ℕ)) (name text : List ℕ) (records others : Records) →
        text_of name ≡ Some text → IsNavOf system text_of name records →
        IsNavOf system text_of name others → records.all ≡ others.all }
{}
