//! What a run over the files of a base and a moving rover ends with.
use track_data::{Items, Lost, TrackCert};

/// The end of a run over the files of a base and a moving rover.
#[derive(Debug, Drop)]
pub struct TrackOutcome {
    /// How many pairs of epochs were taken.
    pub taken: u32,
    /// How many pairs there are.
    pub all: u32,
    /// How many arcs were kept.
    pub kept: u32,
    /// Whether either header has a delta of the antenna that isn't 0.
    pub delta: bool,
    /// The pairs that aren't tracked, in order. There are none where no pair was tried.
    pub lost: Items<Lost>,
    pub answer: TrackAnswer,
}

/// What was found.
#[derive(Debug, Drop)]
pub enum TrackAnswer {
    /// `pairs` pairs were taken, and none has four satellites in kept arcs.
    Few { pairs: u32 },
    /// There are `free` free arcs.
    Arcs { free: u32 },
    /// `pairs` pairs were taken, and none is tracked.
    Lost { pairs: u32 },
    /// Decided on the rows of the tracked pairs.
    Full(TrackCert),
}
