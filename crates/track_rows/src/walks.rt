//! The walk over the pairs, one after another.
ghost use Rattle.std.specs.Prelude.{◌≡◌, ◌+◌, ◌<◌, ◌||◌, length, IfOk, OnOk};
ghost use Rattle.obs_rows.specs.Arcs.{AreArcs};
ghost use Rattle.obs_rows.specs.declared.limits.TheConstants.{MOST_PAIRS};
ghost use Rattle.obs_rows.specs.Signals.{fine_signals};
ghost use Rattle.obs_rows.specs.Integers.{integer_count};
ghost use Rattle.row_build.specs.HeldArcs.{holds_pair};
ghost use Rattle.track_rows.specs.PairRules.{TrackSetting, setting_of, AreUnshifted, AreReady};
ghost use Rattle.track_rows.specs.Trials.{IsTrialOf, Fits, flagged};
ghost use Rattle.track_rows.specs.Walks.{AreMarked, IsWalk};

use crate::files::TrackFiles;
use crate::trials::{Trial, try_pair};
use obs_rows::{Arc, PairRows};
use std::alloc::{AllocError, Global};
use track_data::{Lost, LostCause};
use track_form::PairRoom;

/// The track of the pairs so far, and those of them that it hasn't got.
#[derive(Debug, Drop)]
pub(crate) struct TrackSoFar {
    /// The arcs with the shifts that they have taken.
    pub arcs: Vec<Arc>,
    /// Which arcs have a row in a tracked pair.
    pub begun: Vec<bool>,
    /// The point of each tracked pair.
    pub points: Vec<[i64; 3]>,
    pub pairs: Vec<PairRows>,
    pub lost: Vec<Lost>,
}

/// Whether an arc has begun up to this pair, which is tracked.
fn has_begun(before: bool, arc: &Arc, pair: u32) -> bool
    ensures { result ≡ (before || holds_pair arc.now pair) }
{
    before || (arc.first <= pair && pair <= arc.last)
}

/// The flags of the arcs that have begun, with those of the arcs that hold the pair.
fn marked(alloc: Global, begun: &[bool], arcs: &[Arc], pair: u32) -> Result<Vec<bool>, AllocError>
    requires { length begun.now ≡ length arcs.now }
    ensures { IfOk result (λ flags. AreMarked begun.now arcs.now pair flags.items) }
{
    let mut flags = Vec::new(alloc);
    for k in 0..arcs.len() {
        flags.push(has_begun(begun[k], &arcs[k], pair))?;
    }
    Ok(flags)
}

impl TrackSoFar {
    /// Before the first pair, over arcs without shifts.
    fn begin(alloc: Global, kept: &[Arc]) -> Result<TrackSoFar, AllocError>
        requires arcs { AreArcs kept.now }
        requires unshifted { AreUnshifted kept.now }
        ensures { IfOk result (λ w. (t : TrackSetting) → t.kept ≡ kept.now → IsWalk t 0 w) }
    {
        Ok(TrackSoFar {
            arcs: Vec::from_slice(alloc, kept)?,
            begun: vec![in alloc; false; kept.len()]?,
            points: Vec::new(alloc),
            pairs: Vec::new(alloc),
            lost: Vec::new(alloc),
        })
    }

    /// One more pair, which is lost.
    fn lose(&mut self, pair: u32, cause: LostCause) -> Result<(), AllocError>
        requires { pair < MOST_PAIRS }
        ensures { OnOk result ((t : TrackSetting) → IsWalk t pair self.old →
            IsTrialOf t self.old.arcs.items (flagged self.old.begun.items) pair (Trial.Lost cause) →
            IsWalk t (pair + 1) self.new) }
    {
        self.lost.push(Lost { pair, cause })?;
        Ok(())
    }

    /// One more pair, which is tracked, with the arcs as they are after it.
    fn track(
        &mut self,
        alloc: Global,
        pair: u32,
        point: [i64; 3],
        rows: PairRows,
        arcs: Vec<Arc>,
    ) -> Result<(), AllocError>
        requires { length self.old.begun.items ≡ length arcs.items }
        ensures { OnOk result ((t : TrackSetting) → IsWalk t pair self.old →
            IsTrialOf t self.old.arcs.items (flagged self.old.begun.items) pair
            (Trial.Tracked point rows arcs) → Fits t.signals (Trial.Tracked point rows arcs) →
            IsWalk t (pair + 1) self.new) }
    {
        let begun = marked(alloc, self.begun.as_slice(), arcs.as_slice(), pair)?;
        self.arcs = arcs;
        self.begun = begun;
        self.points.push(point)?;
        self.pairs.push(rows)?;
        Ok(())
    }

    /// One more pair, which is tried.
    fn step(
        &mut self,
        alloc: Global,
        room: &mut PairRoom,
        files: &TrackFiles<'_>,
        pair: u32,
    ) -> Result<(), AllocError>
        requires ready { AreReady files.now }
        requires room { room.old.front.columns
            ≡ 4 + integer_count files.now.kept.now (fine_signals files.now.signals) }
        requires pair { pair < length files.now.screened.now.used }
        requires walked { IsWalk (setting_of files.now) pair self.old }
        ensures walk { OnOk result (IsWalk (setting_of files.now) (pair + 1) self.new) }
        ensures room { room.new.front.columns ≡ room.old.front.columns }
    {
        let arcs = self.arcs.as_slice();
        match try_pair(alloc, room, files, arcs, self.begun.as_slice(), pair)? {
            Trial::Lost(cause) => self.lose(pair, cause),
            Trial::Tracked { point, rows, arcs } => self.track(alloc, pair, point, rows, arcs),
        }
    }
}

/// The track of all pairs.
pub(crate) fn walked(alloc: Global, files: &TrackFiles<'_>) -> Result<TrackSoFar, AllocError>
    requires { AreReady files.now }
    ensures { IfOk result (IsWalk (setting_of files.now) (length files.now.screened.now.used)) }
{
    let mut walk = TrackSoFar::begin(alloc, files.kept)?;
    let mut room = PairRoom::new(files.kept, files.signals);
    for pair in 0..files.screened.used.len() {
        walk.step(alloc, &mut room, files, pair as u32)?;
    }
    Ok(walk)
}
