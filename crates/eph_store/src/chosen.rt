//! The chosen record of a satellite at a time.
ghost use Rattle.std.specs.Prelude.{MatchOption};
ghost use Rattle.eph_store.specs.Chosen.{IsChosenRecord, HasNoCandidate};

use crate::fields::TWO_HOURS;
use crate::{Eph, NavFile};
use gps_time::Tick;

impl NavFile {
    /// The usable record of the satellite that is nearest to the tag, as `nearest` gives it of all usable ones.
    pub fn choose(&self, sat: u8, tag: Tick) -> Option<&Eph>
        ensures { MatchOption result (HasNoCandidate self.now.fit sat tag.0) (λ e.
            IsChosenRecord self.now.fit sat tag.0 e.now) }
    {
        nearest(self.fit(), sat, tag)
    }
}

/// Of the records of the satellite whose ephemeris' time is at most 7,200 s from the tag the nearest, and of equally near
/// ones the last; none where there is no such record. It takes no memory.
pub fn nearest(fit: &[Eph], sat: u8, tag: Tick) -> Option<&Eph>
    ensures { MatchOption result (HasNoCandidate fit.now sat tag.0) (λ e.
        IsChosenRecord fit.now sat tag.0 e.now) }
{
    let mut best: Option<&Eph> = None;
    let mut limit = TWO_HOURS;
    for eph in fit {
        if eph.sat == sat && tag.0.abs_diff(eph.toe.0) <= limit {
            limit = tag.0.abs_diff(eph.toe.0);
            best = Some(eph);
        }
    }
    best
}
