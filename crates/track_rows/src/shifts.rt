//! The shifts with which a pair is tried.
ghost use Rattle.std.specs.Prelude.{◌≡◌, ◌<◌, ◌^◌, Some, All, length, slice_get, IfOk};
ghost use Rattle.obs_rows.specs.declared.arcs.Arc.{Arc};
ghost use Rattle.obs_rows.specs.Arcs.{AreArcs};
ghost use Rattle.obs_rows.specs.Ranges.{IsBelow};
ghost use Rattle.obs_rows.specs.ReceiverPoints.{IsReceiverPoint};
ghost use Rattle.obs_rows.specs.Signals.{fine_signals};
ghost use Rattle.obs_rows.specs.Unused.{HasUsedShifts};
ghost use Rattle.round_steps.specs.Shifts.{AreSameArcs, AreShiftsBelow};
ghost use Rattle.track_rows.specs.PairRules.{setting_of, AreReady, MayBeTried};
ghost use Rattle.track_rows.specs.Trials.{IsTriedArc, AreTried, KeepsOthers, flagged};

use crate::files::TrackFiles;
use obs_rows::Arc;
use row_build::{RowSource, shift_with};
use std::alloc::{AllocError, Global};

/// The arc of number k with which the pair is tried.
fn tried_arc(
    files: &TrackFiles<'_>,
    arcs: &[Arc],
    begun: &[bool],
    k: usize,
    pair: u32,
    point: &[i64; 3],
) -> Arc
    requires ready { AreReady files.now }
    requires same { AreSameArcs files.now.kept.now arcs.now }
    requires as_many { length arcs.now ≡ length files.now.kept.now }
    requires flags { length begun.now ≡ length arcs.now }
    requires inside { k < length arcs.now }
    requires small { AreShiftsBelow (2 ^ 40) arcs.now }
    requires used { All (HasUsedShifts (fine_signals files.now.signals)) arcs.now }
    requires pair { pair < length files.now.screened.now.used }
    requires point { IsReceiverPoint point.now }
    ensures tried { (a : Arc) → slice_get arcs.now k ≡ Some a →
        IsTriedArc (setting_of files.now) (flagged begun.now k) pair point.now a result }
    ensures small { All (IsBelow (2 ^ 40)) result.shift }
    ensures used { HasUsedShifts (fine_signals files.now.signals) result }
{
    let arc = arcs[k];
    if begun[k] {
        return arc;
    }
    let from = RowSource {
        screened: files.screened,
        base_pseudoranges: files.base_pseudoranges,
        arcs: files.kept,
        base: &files.position,
        point,
        sights: &[],
        signals: files.signals,
    };
    match shift_with(&from, k as u16, pair) {
        Some(shift) => Arc {
            sat: arc.sat,
            first: arc.first,
            last: arc.last,
            datum: arc.datum,
            shift,
        },
        None => arc,
    }
}

/// The arcs with which the pair is tried. Those that have begun are flagged.
pub fn tried_arcs(
    alloc: Global,
    files: &TrackFiles<'_>,
    arcs: &[Arc],
    begun: &[bool],
    pair: u32,
    point: &[i64; 3],
) -> Result<Vec<Arc>, AllocError>
    requires may { MayBeTried files.now arcs.now pair }
    requires used { All (HasUsedShifts (fine_signals files.now.signals)) arcs.now }
    requires flags { length begun.now ≡ length arcs.now }
    requires point { IsReceiverPoint point.now }
    ensures tried { IfOk result (λ v.
        AreTried (setting_of files.now) arcs.now (flagged begun.now) pair point.now v.items) }
    ensures others { IfOk result (λ v. KeepsOthers arcs.now pair v.items) }
    ensures arcs { IfOk result (λ v. AreArcs v.items) }
    ensures used { IfOk result (λ v. All (HasUsedShifts (fine_signals files.now.signals)) v.items) }
{
    let mut tried = Vec::new(alloc);
    for k in 0..arcs.len() {
        tried.push(tried_arc(files, arcs, begun, k, pair, point))?;
    }
    Ok(tried)
}
