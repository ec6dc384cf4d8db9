//! The rows of one pair, and the session of this pair alone.
ghost use Rattle.std.specs.Prelude.{◌≡◌, ◌<◌, ◌≤◌, Err, All, IfOk};
ghost use Rattle.obs_rows.specs.Ranges.{IsScale};
ghost use Rattle.obs_rows.specs.ReceiverPoints.{IsReceiverPoint};
ghost use Rattle.obs_rows.specs.Signals.{fine_signals};
ghost use Rattle.obs_rows.specs.Unused.{HasUsedShifts};
ghost use Rattle.row_build.specs.PairRows.{ArePairRows};
ghost use Rattle.row_build.specs.Far.{HasFarRow};
ghost use Rattle.round_steps.specs.Counts.{held};
ghost use Rattle.round_steps.specs.Runs.{IsSessionOf, round_at};
ghost use Rattle.track_rows.specs.PairRules.{rows_setting, rules_of_pair, setting_of, MayBeTried};

use crate::files::TrackFiles;
use obs_rows::{Arc, ArcList, PairRows, Session, SessionBuilder};
use row_build::{RowFault, RowSource, pair_rows_with};
use std::alloc::Global;

/// The rows of a pair that four arcs hold.
pub fn rows_of(
    alloc: Global,
    files: &TrackFiles<'_>,
    arcs: &[Arc],
    pair: u32,
    point: &[i64; 3],
    scale: u32,
) -> Result<PairRows, RowFault>
    requires may { MayBeTried files.now arcs.now pair }
    requires enough { 4 ≤ held files.now.kept.now pair }
    requires point { IsReceiverPoint point.now }
    requires scale { IsScale scale }
    ensures rows { IfOk result
        (ArePairRows (rows_setting (setting_of files.now) arcs.now point.now scale) pair) }
    ensures far { result ≡ Err RowFault.Overwidth →
        HasFarRow (rows_setting (setting_of files.now) arcs.now point.now scale) pair }
{
    let from = RowSource {
        screened: files.screened,
        base_pseudoranges: files.base_pseudoranges,
        arcs,
        base: &files.position,
        point,
        sights: &[],
        signals: files.signals,
    };
    let rows = pair_rows_with(alloc, &from, pair, scale)?;
    // Four arcs hold the pair, so it has rows.
    Ok(rows.unwrap())
}

/// The session of a pair that four arcs hold, and of no other.
pub fn session_of(
    alloc: Global,
    files: &TrackFiles<'_>,
    arcs: &[Arc],
    pair: u32,
    point: &[i64; 3],
    scale: u32,
) -> Result<Session, RowFault>
    requires may { MayBeTried files.now arcs.now pair }
    requires used { All (HasUsedShifts (fine_signals files.now.signals)) arcs.now }
    requires enough { 4 ≤ held files.now.kept.now pair }
    requires point { IsReceiverPoint point.now }
    requires scale { IsScale scale }
    ensures session { IfOk result (IsSessionOf (rules_of_pair (setting_of files.now) pair)
        (round_at scale point.now arcs.now)) }
    ensures far { result ≡ Err RowFault.Overwidth →
        HasFarRow (rows_setting (setting_of files.now) arcs.now point.now scale) pair }
{
    let rows = rows_of(alloc, files, arcs, pair, point, scale)?;
    let held = ArcList::new(Vec::from_slice(alloc, arcs)?);
    let mut session = SessionBuilder::new(
        alloc,
        scale,
        files.system,
        files.position,
        *point,
        files.signals,
        held,
    );
    session.push(rows)?;
    Ok(session.finish())
}
