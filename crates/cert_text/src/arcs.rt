//! The arcs of a certificate.
ghost use Rattle.std.specs.Prelude.{◌≡◌, ◌≤◌, ◌++◌, ℕ, All, IfOk};
ghost use Rattle.obs_rows.specs.Arcs.{AreArcs};
ghost use Rattle.obs_rows.specs.Signals.{fine_signals};
ghost use Rattle.obs_rows.specs.Unused.{HasUsedShifts};
ghost use Rattle.cert_lines.specs.Versions.{most_sat};
ghost use Rattle.rinex_head.specs.LineRules.{Reads};
ghost use Rattle.cert_lines.specs.Lines.{counted_arcs};
ghost use Rattle.cert_lines.specs.Lengths.{IsWholeArc};
ghost use Rattle.cert_text.specs.Rules.{cert_rules, frame, ArcCount, PairCount};

use crate::grammar::CertText;
use cert_lines::Version;
use line_source::Lines;
use obs_rows::{ArcList, Signals};
use rinex_head::TextFault;
use std::alloc::Global;

/// Reads the number of arcs, and the arcs.
pub(crate) fn read_arcs(
    alloc: Global,
    lines: &mut Lines<'_>,
    version: Version,
    signals: Signals,
) -> Result<ArcList, TextFault>
    ensures reads { (budget : ℕ) → Reads cert_rules lines.old lines.new
        (ArcCount (frame version budget (fine_signals signals))) (λ arcs.
        PairCount (frame version budget (fine_signals signals)) arcs) result }
    ensures took { IfOk result (λ arcs.
        lines.old.left ≡ counted_arcs (fine_signals signals) arcs ++ lines.new.left) }
    ensures are { IfOk result AreArcs }
    ensures of_version { IfOk result (All (λ a. a.sat ≤ most_sat version)) }
    ensures used { IfOk result (All (HasUsedShifts (fine_signals signals))) }
    ensures whole { IfOk result (All IsWholeArc) }
{
    crate::read_arcs::<CertText>(alloc, lines, version, signals)
}
