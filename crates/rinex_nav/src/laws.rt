//! What the text of a navigation file determines. There is nothing to run: the contracts are the laws.
ghost use Rattle.std.specs.Prelude.{◌≡◌, ℕ, List, Err};
ghost use Rattle.eph_store.specs.Records.{AreFit};
ghost use Rattle.eph_store.specs.declared.ephemeris.Eph.{Eph};
ghost use Rattle.eph_store.specs.declared.record.Raw.{Raw};
ghost use Rattle.rinex_head.specs.declared.place.At.{At};
ghost use Rattle.rinex_head.specs.declared.system.System.{System};
ghost use Rattle.rinex_head.specs.OwnFlaws.{IsOwnFlaw};
ghost use Rattle.rinex_nav.specs.NavForm.{IsNavFile};
ghost use Rattle.rinex_nav.specs.NavRules.{nav_rules, nav_of};

/// Lines stand for at most one list of the records of a system.
pub fn one_nav_law()
    ensures { (system : System) (lines : List (List ℕ)) (records other : List Raw) →
        IsNavFile system lines records → IsNavFile system lines other → records ≡ other }
{}

/// The records of a list determine the usable ones.
pub fn one_fit_law()
    ensures { (records : List Raw) (fit other : List Eph) → AreFit records fit →
        AreFit records other → fit ≡ other }
{}

/// The column and the reason of a refusal are those of the check of its own line.
pub fn nav_flaw_law()
    ensures { (system : System) (lines : List (List ℕ)) (at : At) → nav_of system lines ≡ Err at →
        IsOwnFlaw (nav_rules system) lines at }
{}
