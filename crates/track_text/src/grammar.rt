//! The form of the certificate of a track.
ghost use Rattle.track_text.specs.Rules.{Expected, track_rules};

use cert_text::Grammar;

/// Certificates of tracks.
pub struct TrackText {}

impl Grammar for TrackText {
    ghost State = { Expected };

    ghost rules = { track_rules };
}
