//! Certificates of tracks.
ghost use Rattle.std.specs.Prelude.{◌≤◌, length};
ghost use Rattle.obs_rows.specs.Signals.{fine_signals};
ghost use Rattle.obs_rows.specs.declared.limits.TheConstants.{MOST_RATIO, MOST_BUDGET};
ghost use Rattle.track_data.specs.TrackTails.{IsTrackTailOf, IsTrackTailOf-prop};

use crate::{Track, TrackTail};

/// The rows of a track, with what they were decided to say.
#[derive(Debug, Drop)]
pub struct TrackCert {
    /// How many times greater the rivals' sums of squares have to be, in thousandths.
    pub ratio: u32,
    /// The most visits of the search.
    pub budget: u64,
    pub track: Track,
    pub tail: TrackTail,
    pub ghost ratio_from: { 1000 ≤ ratio },
    pub ghost ratio_to: { ratio ≤ MOST_RATIO },
    pub ghost budget_from: { 1 ≤ budget },
    pub ghost budget_to: { budget ≤ MOST_BUDGET },
    pub ghost some_pairs: { 1 ≤ length track.pairs },
    pub ghost tail_fits: { IsTrackTailOf (fine_signals track.signals) track.arcs track.pairs budget tail } by { IsTrackTailOf-prop (fine_signals track.signals) track.arcs track.pairs budget tail },
}
