//! What pairs are tried by, and the coarse rounds of one pair.
ghost use Rattle.std.specs.Prelude.{◌<◌, ◌≤◌, length};
ghost use Rattle.round_steps.specs.Counts.{held};
ghost use Rattle.track_rows.specs.PairRules.{rules_of_pair, setting_of, AreReady};

use crate::rows::session_of;
use obs_rows::{Arc, Session, Signals};
use round_steps::Rounds;
use row_build::{Pseudorange, RowFault, Screened};
use std::alloc::{AllocError, Global};

/// What was screened of two files, with the arcs that were kept.
#[derive(Clone, Copy)]
pub struct TrackFiles<'a> {
    pub screened: &'a Screened,
    /// The kept arcs, whose shifts are 0.
    pub kept: &'a [Arc],
    /// The base's position, in units of 0.1 mm.
    pub position: [i64; 3],
    pub signals: Signals,
    /// The satellites' system, by its letter.
    pub system: u8,
    /// The base's pseudorange of each entry, which no pair changes.
    pub base_pseudoranges: &'a [Pseudorange],
}

/// The coarse rounds of one pair.
#[derive(Clone, Copy)]
pub(crate) struct PairRounds<'a> {
    pub files: &'a TrackFiles<'a>,
    /// The number of the pair among those that were taken.
    pub pair: u32,
    /// How many sessions were made.
    pub made: u32,
}

impl<'a> Rounds for PairRounds<'a> {
    ghost rules = { λ p. rules_of_pair (setting_of p.files.now) p.pair };

    ghost ready = { λ p. AreReady p.files.now × ((p.pair < length p.files.now.screened.now.used)
        × (4 ≤ held p.files.now.kept.now p.pair)) };

    ghost made = { λ p. p.made };

    fn session(
        &mut self,
        alloc: Global,
        arcs: &[Arc],
        point: &[i64; 3],
        scale: u32,
    ) -> Result<Option<Session>, AllocError> {
        self.made += 1;
        match session_of(alloc, self.files, arcs, self.pair, point, scale) {
            Ok(session) => Ok(Some(session)),
            Err(RowFault::Overwidth) => Ok(None),
            Err(RowFault::NoMemory) => Err(AllocError),
        }
    }

    fn first_shifts(&self, alloc: Global, _point: &[i64; 3]) -> Result<Vec<Arc>, AllocError> {
        let arcs = Vec::from_slice(alloc, self.files.kept)?;
        Ok(arcs)
    }
}
