//! The arcs of a track.
ghost use Rattle.std.specs.Prelude.{◌≡◌, ◌++◌, ℕ, All, IfOk};
ghost use Rattle.obs_rows.specs.Arcs.{AreArcs};
ghost use Rattle.obs_rows.specs.Signals.{fine_signals};
ghost use Rattle.obs_rows.specs.Unused.{HasUsedShifts};
ghost use Rattle.rinex_head.specs.LineRules.{Reads};
ghost use Rattle.cert_lines.specs.Lines.{counted_arcs};
ghost use Rattle.cert_lines.specs.Lengths.{IsWholeArc};
ghost use Rattle.track_text.specs.Rules.{track_rules, frame, ArcCount, PairCount};

use crate::grammar::TrackText;
use cert_lines::Version;
use line_source::Lines;
use obs_rows::{ArcList, Signals};
use rinex_head::TextFault;
use std::alloc::Global;

/// Reads the number of arcs, and the arcs.
pub(crate) fn read_arcs(
    alloc: Global,
    lines: &mut Lines<'_>,
    signals: Signals,
) -> Result<ArcList, TextFault>
    ensures reads { (budget : ℕ) →
        Reads track_rules lines.old lines.new (ArcCount (frame budget (fine_signals signals)))
        (λ arcs. PairCount (frame budget (fine_signals signals)) arcs) result }
    ensures took { IfOk result (λ arcs.
        lines.old.left ≡ counted_arcs (fine_signals signals) arcs ++ lines.new.left) }
    ensures are { IfOk result AreArcs }
    ensures used { IfOk result (All (HasUsedShifts (fine_signals signals))) }
    ensures whole { IfOk result (All IsWholeArc) }
{
    cert_text::read_arcs::<TrackText>(alloc, lines, Version::Two, signals)
}
