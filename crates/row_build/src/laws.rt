//! What the calls say together.
ghost use Rattle.std.specs.Prelude.{◌≡◌, ℕ, ℤ, List, length, map, All};
ghost use Rattle.obs_rows.specs.declared.arcs.Arc.{Arc};
ghost use Rattle.obs_rows.specs.declared.bands.Signals.{Signals};
ghost use Rattle.obs_rows.specs.declared.pair_rows.PairRows.{PairRows};
ghost use Rattle.obs_rows.specs.declared.sessions.Session.{Session};
ghost use Rattle.obs_rows.specs.declared.used.UsedPair.{UsedPair};
ghost use Rattle.slip_arcs.specs.Runs.{AreKept};
ghost use Rattle.slip_arcs.specs.Linked.{HaveDatums};
ghost use Rattle.screening.specs.declared.sv_pair.SvPair.{SvPair};
ghost use Rattle.screening.specs.Screening.{AreUsedPairs, IsSvPair};
ghost use Rattle.row_build.specs.HeldArcs.{AgreeAt};
ghost use Rattle.row_build.specs.Rows.{setting};
ghost use Rattle.row_build.specs.PairRows.{ArePairRows};
ghost use Rattle.row_build.specs.SessionRows.{AreSessionRows};
ghost use Rattle.row_build.specs.Stands.{Origin, StandsForFiles};

/// The session that `rows_at` makes of what `screen_in` screened and of the arcs that `cut` kept, with whatever shifts, stands for the
/// files. There is nothing to run: the contract is the law.
pub fn stands_law()
    ensures { (from : Origin) (short : ℕ) (used : List UsedPair) (boxes : List SvPair)
        (s : Session) → AreUsedPairs from.setting from.base from.rover from.taken used →
        All (IsSvPair from.setting from.base from.rover from.taken) boxes →
        AreKept from.bands from.jump from.least used s.arcs short → HaveDatums s.arcs →
        s.system ≡ from.system → s.base ≡ from.position → s.signals ≡ from.signals →
        AreSessionRows (setting boxes s.arcs s.base s.point s.signals s.scale)
        (length used) s.pairs →
        StandsForFiles from s.point (map (λ a. a.shift) s.arcs) s.scale s }
{}

/// The rows of a pair stay what they are where shifts of arcs that don't hold it change: they are the rows of all arcs that agree at
/// the pair.
pub fn carried_law()
    ensures { (boxes : List SvPair) (arcs others : List Arc) (base point : List ℤ)
        (signals : Signals) (scale pair : ℕ) (p : PairRows) → AgreeAt pair arcs others →
        ArePairRows (setting boxes arcs base point signals scale) pair p →
        ArePairRows (setting boxes others base point signals scale) pair p }
{}
