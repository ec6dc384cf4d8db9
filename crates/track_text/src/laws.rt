//! What the text of a track's certificate determines. There is nothing to run: the contracts are the laws.
ghost use Rattle.std.specs.Prelude.{◌≡◌, ℕ, List, Err};
ghost use Rattle.rinex_head.specs.declared.place.At.{At};
ghost use Rattle.rinex_head.specs.OwnFlaws.{IsOwnFlaw};
ghost use Rattle.line_source.specs.EndedLines.{ended_lines};
ghost use Rattle.track_data.specs.declared.certs.TrackCert.{TrackCert};
ghost use Rattle.track_text.specs.Spelling.{track_spelling};
ghost use Rattle.track_text.specs.Lengths.{IsWholeTrackCert};
ghost use Rattle.track_text.specs.Rules.{track_rules, track_reading};

/// No two certificates of tracks have the same spelling: what is written of one determines it.
pub fn one_track_spelling_law()
    ensures { (cert other : TrackCert) → IsWholeTrackCert cert → IsWholeTrackCert other →
        track_spelling cert ≡ track_spelling other → cert ≡ other }
{}

/// The column and the reason of a refusal are those of the check of its own line.
pub fn track_flaw_law()
    ensures { (text : List ℕ) (at : At) → track_reading text ≡ Err at →
        IsOwnFlaw track_rules (ended_lines text) at }
{}
