//! The rows of a session, fine and coarse.
ghost use Rattle.std.specs.Prelude.{◌≡◌, All, IsTrue, IfSome};
ghost use Rattle.obs_rows.specs.Ranges.{IsScale};
ghost use Rattle.obs_rows.specs.Signals.{fine_signals};
ghost use Rattle.obs_rows.specs.Unused.{HasUsedShifts};
ghost use Rattle.row_build.specs.BasePseudoranges.{AreBasePseudoranges};
ghost use Rattle.obs_rows.specs.ReceiverPoints.{IsReceiverPoint};
ghost use Rattle.slip_arcs.specs.Linked.{IsCutOf};

use crate::files::{Files, with_shifts};
use obs_rows::{Arc, Session, Signals, are_arcs, has_used_shifts};
use row_build::rows_at;
use signal_travel::is_receiver_point;
use std::alloc::Global;

// Whether the shifts of bands that aren't used are 0.
fn are_used(signals: Signals, arcs: &[Arc]) -> bool
    ensures { IsTrue result → All (HasUsedShifts (fine_signals signals)) arcs.now }
{
    arcs.iter().all(|a| has_used_shifts(signals, a))
}

/// The rows at a point with these arcs.
pub fn rows_of(
    alloc: Global,
    files: &Files,
    arcs: &[Arc],
    point: &[i64; 3],
    scale: u32,
) -> Option<Session>
    requires cut { IsCutOf files.now.rounds.screened.used arcs.now }
    requires scale { IsScale scale }
    ensures scale { IfSome result (λ s. s.scale ≡ scale) }
    ensures cut { IfSome result (λ s. IsCutOf files.now.rounds.screened.used s.arcs) }
    ensures base { IfSome result (λ s. IsReceiverPoint s.base) }
    ensures point { IfSome result (λ s. IsReceiverPoint s.point) }
{
    if !is_receiver_point(point) || !are_arcs(arcs) || !are_used(files.rounds.signals, arcs) {
        return None;
    }
    rows_at(
        alloc,
        &files.rounds.screened,
        arcs,
        &files.rounds.position,
        point,
        files.rounds.signals,
        scale,
        files.rounds.system,
    )
    .ok()
}

/// The fine rows at a point, with the shifts of each arc's first pair.
pub fn fine_rows(alloc: Global, files: &Files, point: &[i64; 3]) -> Option<Session>
    requires cut { IsCutOf files.now.rounds.screened.used files.now.rounds.kept }
    requires base_pseudoranges { AreBasePseudoranges files.now.rounds.screened.boxes
        files.now.rounds.position files.now.rounds.base_pseudoranges.items }
    ensures fine { IfSome result (λ s. s.scale ≡ 0) }
    ensures cut { IfSome result (λ s. IsCutOf files.now.rounds.screened.used s.arcs) }
    ensures base { IfSome result (λ s. IsReceiverPoint s.base) }
    ensures point { IfSome result (λ s. IsReceiverPoint s.point) }
{
    if !is_receiver_point(point) {
        return None;
    }
    let arcs = with_shifts(alloc, files, point).ok()?;
    rows_of(alloc, files, &arcs, point, 0)
}
