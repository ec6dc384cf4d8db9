//! What becomes of a pair that is tried.
ghost use Rattle.std.specs.Prelude.{◌≡◌, ◌+◌, ◌<◌, ◌≤◌, All, length, IfOk};
ghost use Rattle.obs_rows.specs.Signals.{fine_signals};
ghost use Rattle.obs_rows.specs.Integers.{integer_count};
ghost use Rattle.obs_rows.specs.Unused.{HasUsedShifts};
ghost use Rattle.round_steps.specs.Counts.{held};
ghost use Rattle.track_rows.specs.PairRules.{setting_of, MayBeTried};
ghost use Rattle.track_rows.specs.Trials.{IsSettledAt, IsTrialOf, Fits, cause_of, flagged};

use crate::files::{PairRounds, TrackFiles};
use crate::rows::rows_of;
use crate::shifts::tried_arcs;
use cert_data::Tail;
use lower_form::LowerFault;
use obs_rows::{Arc, PairRows};
use round_steps::{CoarseEnd, LEAST_SATELLITES, coarse_rounds, held};
use row_build::RowFault;
use std::alloc::{AllocError, Global};
use track_data::LostCause;
use track_form::PairRoom;

/// What became of a pair that was tried.
#[derive(Debug, Drop)]
pub enum Trial {
    /// The first cause that holds.
    Lost(LostCause),
    Tracked {
        /// Where the coarse rounds settled, in units of 0.1 mm.
        point: [i64; 3],
        /// The pair's rows there, at the fine scale.
        rows: PairRows,
        /// All arcs, with the shifts of those of the pair as they are from now on.
        arcs: Vec<Arc>,
    },
}

/// By which cause a pair is lost whose coarse rounds end so.
fn cause_of(tail: &Tail) -> LostCause
    ensures { result ≡ cause_of tail.now }
{
    match tail {
        Tail::Unsettled { .. } => LostCause::Unsettled,
        Tail::Fixed { .. }
        | Tail::Unseparated { .. }
        | Tail::Weak { .. }
        | Tail::Overwidth { .. }
        | Tail::Spent { .. } => LostCause::Coarse,
    }
}

/// Tries a pair at the point where its coarse rounds settle.
fn try_at(
    alloc: Global,
    room: &mut PairRoom,
    files: &TrackFiles<'_>,
    arcs: &[Arc],
    begun: &[bool],
    pair: u32,
    point: &[i64; 3],
) -> Result<Trial, AllocError>
    requires may { MayBeTried files.now arcs.now pair }
    requires room { room.old.front.columns
        ≡ 4 + integer_count files.now.kept.now (fine_signals files.now.signals) }
    requires used { All (HasUsedShifts (fine_signals files.now.signals)) arcs.now }
    requires flags { length begun.now ≡ length arcs.now }
    requires enough { 4 ≤ held files.now.kept.now pair }
    requires settled { IsSettledAt (setting_of files.now) pair point.now }
    ensures trial { IfOk result
        (IsTrialOf (setting_of files.now) arcs.now (flagged begun.now) pair) }
    ensures fits { IfOk result (Fits files.now.signals) }
    ensures room { room.new.front.columns ≡ room.old.front.columns }
{
    let tried = tried_arcs(alloc, files, arcs, begun, pair, point)?;
    let rows = match rows_of(alloc, files, tried.as_slice(), pair, point, 0) {
        Ok(rows) => rows,
        Err(RowFault::Overwidth) => return Ok(Trial::Lost(LostCause::Y)),
        Err(RowFault::NoMemory) => return Err(AllocError),
    };
    match room.fill(files.kept, files.signals, &rows) {
        Ok(()) => Ok(Trial::Tracked {
            point: *point,
            rows,
            arcs: tried,
        }),
        Err(LowerFault::Weak { .. }) => Ok(Trial::Lost(LostCause::Weak)),
        Err(LowerFault::Overwidth { .. }) => Ok(Trial::Lost(LostCause::Wide)),
    }
}

/// Tries the pair of this number among those that were taken. The arcs are the kept ones with their shifts so far; flags
/// say which of them have a row in a tracked pair before. They keep their shifts, and other arcs of the pair take ones of
/// this pair. Its front is made in the room that is lent. It is refused only where memory runs out.
pub fn try_pair(
    alloc: Global,
    room: &mut PairRoom,
    files: &TrackFiles<'_>,
    arcs: &[Arc],
    begun: &[bool],
    pair: u32,
) -> Result<Trial, AllocError>
    requires may { MayBeTried files.now arcs.now pair }
    requires room { room.old.front.columns
        ≡ 4 + integer_count files.now.kept.now (fine_signals files.now.signals) }
    requires used { All (HasUsedShifts (fine_signals files.now.signals)) arcs.now }
    requires flags { length begun.now ≡ length arcs.now }
    ensures trial { IfOk result
        (IsTrialOf (setting_of files.now) arcs.now (flagged begun.now) pair) }
    ensures fits { IfOk result (Fits files.now.signals) }
    ensures room { room.new.front.columns ≡ room.old.front.columns }
{
    if held(files.kept, pair) < LEAST_SATELLITES {
        return Ok(Trial::Lost(LostCause::Rows));
    }
    let mut rounds = PairRounds {
        files,
        pair,
        made: 0,
    };
    match coarse_rounds(alloc, &mut rounds, files.kept, &files.position)? {
        CoarseEnd::Settled { point, .. } => {
            try_at(alloc, room, files, arcs, begun, pair, &point)
        },
        CoarseEnd::Declined { tail, .. } => Ok(Trial::Lost(cause_of(&tail))),
    }
}
