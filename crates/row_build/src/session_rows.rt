//! The rows of all pairs.
ghost use Rattle.std.specs.Prelude.{◌≡◌, ◌++◌, All, Err, length, IfOk, IfSome, OnOk};
ghost use Rattle.obs_rows.specs.ReceiverPoints.{IsReceiverPoint};
ghost use Rattle.obs_rows.specs.Ranges.{IsScale, IsSystem};
ghost use Rattle.obs_rows.specs.Arcs.{AreArcs};
ghost use Rattle.obs_rows.specs.Pairs.{IsAfter, HasItsArcs};
ghost use Rattle.obs_rows.specs.Heads.{KeepsHead};
ghost use Rattle.obs_rows.specs.Signals.{fine_signals};
ghost use Rattle.obs_rows.specs.Unused.{HasUsedRows, HasUsedShifts};
ghost use Rattle.slip_arcs.specs.Linked.{IsCutOf};
ghost use Rattle.row_build.specs.Rows.{setting, setting_from};
ghost use Rattle.row_build.specs.SessionRows.{AreSessionRows, HasFarPair, listed};

use crate::pairs::next_pair_rows;
use crate::{RowFault, RowSource};
use obs_rows::{Arc, ArcList, PairRows, Session, SessionBuilder, Signals};
use screening::Screened;
use std::alloc::{AllocError, Global};

// One more pair, if it has rows
fn add_pair(session: &mut SessionBuilder, rows: Option<PairRows>) -> Result<(), AllocError>
    requires order { IfSome rows (λ p. IsAfter session.old.pairs p.number) }
    requires arcs { IfSome rows (λ p. HasItsArcs session.old.arcs p) }
    requires rows { IfSome rows (HasUsedRows (fine_signals session.old.signals)) }
    ensures added { OnOk result (session.new.pairs ≡ session.old.pairs ++ listed rows) }
    ensures head { KeepsHead session.old session.new }
{
    match rows {
        Some(rows) => session.push(rows),
        None => Ok(()),
    }
}

/// The session of `rows_at`, with the base's pseudoranges that are kept. It is refused as that of `rows_at`.
pub fn rows_with(
    alloc: Global,
    from: &RowSource<'_>,
    scale: u32,
    system: u8,
) -> Result<Session, RowFault>
    requires arcs { AreArcs from.now.arcs.now }
    requires scale { IsScale scale }
    requires system { IsSystem system }
    requires shifts { All (HasUsedShifts (fine_signals from.now.signals)) from.now.arcs.now }
    ensures scale { IfOk result (λ s. s.scale ≡ scale) }
    ensures system { IfOk result (λ s. s.system ≡ system) }
    ensures base { IfOk result (λ s. s.base ≡ from.now.base.now) }
    ensures point { IfOk result (λ s. s.point ≡ from.now.point.now) }
    ensures signals { IfOk result (λ s. s.signals ≡ from.now.signals) }
    ensures arcs { IfOk result (λ s. s.arcs ≡ from.now.arcs.now) }
    ensures rows { IfOk result (λ s.
        AreSessionRows (setting_from from.now scale) (length from.now.screened.now.used) s.pairs) }
    ensures overwidth { result ≡ Err RowFault.Overwidth → HasFarPair (setting_from from.now scale) }
{
    let held = ArcList::new(Vec::from_slice(alloc, from.arcs)?);
    let (base, point) = (*from.base, *from.point);
    let mut session = SessionBuilder::new(alloc, scale, system, base, point, from.signals, held);
    let mut likely = 0;
    for pair in 0..from.screened.used.len() {
        let rows = next_pair_rows(alloc, from, pair as u32, scale, &mut likely)?;
        add_pair(&mut session, rows)?;
    }
    Ok(session.finish())
}

/// The session of these arcs at these points, in units of 0.1 mm, for a system, G or E: the rows of `pair_rows` of every pair. It is
/// refused where they are. The call serves tests alone: programs keep the base's pseudoranges and call `rows_with`.
pub fn rows_at(
    alloc: Global,
    screened: &Screened,
    arcs: &[Arc],
    base: &[i64; 3],
    point: &[i64; 3],
    signals: Signals,
    scale: u32,
    system: u8,
) -> Result<Session, RowFault>
    requires cut { IsCutOf screened.now.used arcs.now }
    requires arcs { AreArcs arcs.now }
    requires base { IsReceiverPoint base.now }
    requires point { IsReceiverPoint point.now }
    requires scale { IsScale scale }
    requires system { IsSystem system }
    requires shifts { All (HasUsedShifts (fine_signals signals)) arcs.now }
    ensures scale { IfOk result (λ s. s.scale ≡ scale) }
    ensures system { IfOk result (λ s. s.system ≡ system) }
    ensures base { IfOk result (λ s. s.base ≡ base.now) }
    ensures point { IfOk result (λ s. s.point ≡ point.now) }
    ensures signals { IfOk result (λ s. s.signals ≡ signals) }
    ensures arcs { IfOk result (λ s. s.arcs ≡ arcs.now) }
    ensures rows { IfOk result (λ s. AreSessionRows (setting screened.now.boxes arcs.now base.now
        point.now signals scale) (length screened.now.used) s.pairs) }
    ensures overwidth { result ≡ Err RowFault.Overwidth →
        HasFarPair (setting screened.now.boxes arcs.now base.now point.now signals scale) }
{
    let from = RowSource {
        screened,
        base_pseudoranges: &[],
        arcs,
        base,
        point,
        sights: &[],
        signals,
    };
    rows_with(alloc, &from, scale, system)
}
