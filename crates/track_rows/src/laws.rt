//! What the calls say together.
ghost use Rattle.std.specs.Prelude.{ℕ, List, All};
ghost use Rattle.obs_rows.specs.declared.arcs.Arc.{Arc};
ghost use Rattle.slip_arcs.specs.Runs.{AreKept};
ghost use Rattle.slip_arcs.specs.Linked.{HaveDatums};
ghost use Rattle.screening.specs.declared.screened.Screened.{Screened};
ghost use Rattle.screening.specs.Screening.{AreUsedPairs, IsSvPair};
ghost use Rattle.row_build.specs.Stands.{Origin};
ghost use Rattle.track_data.specs.declared.lost.Tracked.{Tracked};
ghost use Rattle.track_rows.specs.Tracks.{IsTrackOf};
ghost use Rattle.track_rows.specs.Stands.{TrackStands};

/// The track that `track_at` makes of what `screen_in` screened and of the arcs that `cut` kept stands for the files. There is nothing
/// to run: the contract is the law.
pub fn track_stands_law()
    ensures { (from : Origin) (short : ℕ) (screened : Screened) (kept : List Arc) (t : Tracked) →
        AreUsedPairs from.setting from.base from.rover from.taken screened.used →
        All (IsSvPair from.setting from.base from.rover from.taken) screened.boxes →
        AreKept from.bands from.jump from.least screened.used kept short → HaveDatums kept →
        IsTrackOf screened kept from.position from.signals from.system t →
        TrackStands from t.track }
{}
