//! The track of the pairs that were screened.
ghost use Rattle.std.specs.Prelude.{◌≡◌, map, IfOk};
ghost use Rattle.obs_rows.specs.ReceiverPoints.{IsReceiverPoint};
ghost use Rattle.obs_rows.specs.Ranges.{IsSystem};
ghost use Rattle.obs_rows.specs.Arcs.{AreArcs};
ghost use Rattle.slip_arcs.specs.Linked.{IsCutOf};
ghost use Rattle.round_steps.specs.Shifts.{AreSameArcs};
ghost use Rattle.track_rows.specs.Tracks.{unshifted, IsTrackOf};

use crate::files::TrackFiles;
use crate::walks::walked;
use obs_rows::{Arc, ArcList, PHASES, PairList, Signals};
use row_build::{Screened, base_pseudoranges};
use std::alloc::{AllocError, Global};
use track_data::{Items, Track, Tracked};

/// The arc with no cycles taken off its phases.
fn unshifted(arc: &Arc) -> Arc
    ensures { result ≡ unshifted arc.now }
{
    Arc {
        sat: arc.sat,
        first: arc.first,
        last: arc.last,
        datum: arc.datum,
        shift: [0; PHASES],
    }
}

/// The arcs with no cycles taken off their phases.
fn unshifted_arcs(alloc: Global, arcs: &[Arc]) -> Result<Vec<Arc>, AllocError>
    ensures { IfOk result (λ kept. kept.items ≡ map unshifted arcs.now) }
{
    let mut kept = Vec::new(alloc);
    for arc in arcs {
        kept.push(unshifted(arc))?;
    }
    Ok(kept)
}

/// The track of the pairs that were screened, over the arcs that were kept of them, and the pairs that it hasn't got, each with its
/// cause. It is refused only where memory runs out.
///
/// Every pair has coarse rounds of its own from the base, which is at `base` in units of 0.1 mm; the signals are those that `screened`
/// was made of, and the system is G or E. The arcs may be handed in with any shifts: those of the track are taken anew.
pub fn track_at(
    alloc: Global,
    screened: &Screened,
    arcs: &[Arc],
    base: &[i64; 3],
    signals: Signals,
    system: u8,
) -> Result<Tracked, AllocError>
    requires cut { IsCutOf screened.now.used arcs.now }
    requires arcs { AreArcs arcs.now }
    requires base { IsReceiverPoint base.now }
    requires system { IsSystem system }
    ensures track { IfOk result (IsTrackOf screened.now arcs.now base.now signals system) }
    ensures arcs { IfOk result (λ t. AreSameArcs arcs.now t.track.arcs) }
{
    let kept = unshifted_arcs(alloc, arcs)?;
    let base_pseudoranges = base_pseudoranges(alloc, screened, base)?;
    let files = TrackFiles {
        screened,
        kept: kept.as_slice(),
        position: *base,
        signals,
        system,
        base_pseudoranges: base_pseudoranges.as_slice(),
    };
    let walk = walked(alloc, &files)?;
    let track = Track {
        system,
        base: *base,
        signals,
        arcs: ArcList::new(walk.arcs),
        points: Items::new(walk.points),
        pairs: PairList::new(walk.pairs),
    };
    Ok(Tracked {
        track,
        lost: Items::new(walk.lost),
    })
}
