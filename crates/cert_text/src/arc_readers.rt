//! The arcs of a certificate.
ghost use Rattle.std.specs.Prelude.{◌≡◌, ◌≤◌, ◌+◌, ◌++◌, ◌∷◌, [], ℕ, List, All, codes, length, IfOk, IsTrue};
ghost use Rattle.obs_rows.specs.declared.arcs.Arc.{Arc};
ghost use Rattle.obs_rows.specs.Arcs.{IsArcInRange, AreArcs};
ghost use Rattle.obs_rows.specs.declared.units.TheConstants.{MOST_FREE_ARCS};
ghost use Rattle.obs_rows.specs.Signals.{fine_signals};
ghost use Rattle.obs_rows.specs.Unused.{HasUsedShifts};
ghost use Rattle.cert_lines.specs.Versions.{most_sat};
ghost use Rattle.rinex_head.specs.LineRules.{Reads, ReadsFree};
ghost use Rattle.cert_lines.specs.Lines.{arc_line, arc_lines, counted_arcs};
ghost use Rattle.cert_lines.specs.Forms.{count_in, arc_in, may_stand};
ghost use Rattle.cert_text.specs.LineParts.{TakesLine};
ghost use Rattle.cert_lines.specs.Lengths.{IsWholeArc};
ghost use Rattle.cert_text.specs.Parts.{free_by, ArcsAreTaken};

use crate::Grammar;
use crate::lines::next_count;
use cert_lines::{Version, arc_in};
use line_source::Lines;
use obs_rows::{Arc, ArcList, MOST_ARCS, Signals};
use rinex_head::{At, TextFault, What, next_line};
use std::alloc::Global;

// The next arc, by the numbers of free ones before it and of arcs that are to come with it.
fn next_arc<G: Grammar>(
    lines: &mut Lines<'_>,
    version: Version,
    signals: Signals,
    free: usize,
    left: usize,
) -> Result<Arc, At>
    ensures reads { (s : G.State) (next : Arc → G.State) →
        TakesLine G.rules s (arc_in version (fine_signals signals) free left) next →
        ReadsFree G.rules lines.old lines.new s next result }
    ensures took { IfOk result (λ a.
        lines.old.left ≡ arc_line (fine_signals signals) a ∷ lines.new.left) }
    ensures in_range { IfOk result IsArcInRange }
    ensures of_version { IfOk result (λ a. a.sat ≤ most_sat version) }
    ensures used { IfOk result (HasUsedShifts (fine_signals signals)) }
    ensures stands { IfOk result (λ a. IsTrue (may_stand free left a.datum)) }
    ensures whole { IfOk result IsWholeArc }
{
    let line = next_line(lines, What::BadLine)?;
    match arc_in(version, signals, free, left, line.bytes) {
        Ok(arc) => Ok(arc),
        Err(flaw) => Err(flaw.at(line.number)),
    }
}

// How many free arcs there are with this one.
fn free_with(free: usize, datum: bool) -> usize
    requires { free ≤ MOST_FREE_ARCS }
    ensures { result ≡ free + free_by datum }
{
    if datum { free } else { free + 1 }
}

// A number of arcs, each on a line of its own.
fn read_arc_lines<G: Grammar>(
    alloc: Global,
    lines: &mut Lines<'_>,
    version: Version,
    signals: Signals,
    count: usize,
) -> Result<Vec<Arc>, TextFault>
    requires some { 2 ≤ count }
    requires few { count ≤ MOST_ARCS }
    ensures reads { (before : ℕ → List Arc → G.State) →
        ArcsAreTaken G.rules version (fine_signals signals) before →
        Reads G.rules lines.old lines.new (before count []) (λ arcs. before 0 arcs.items) result }
    ensures took { IfOk result (λ arcs.
        lines.old.left ≡ arc_lines (fine_signals signals) arcs.items ++ lines.new.left) }
    ensures count { IfOk result (λ arcs. length arcs.items ≡ count) }
    ensures are { IfOk result (λ arcs. AreArcs arcs.items) }
    ensures of_version { IfOk result (λ arcs. All (λ a. a.sat ≤ most_sat version) arcs.items) }
    ensures used { IfOk result (λ arcs. All (HasUsedShifts (fine_signals signals)) arcs.items) }
    ensures whole { IfOk result (λ arcs. All IsWholeArc arcs.items) }
{
    let mut arcs: Vec<Arc> = Vec::new(alloc);
    let mut free = 0;
    let mut left = count;
    'arcs: while left > 0 {
        let arc = next_arc::<G>(lines, version, signals, free, left)?;
        free = free_with(free, arc.datum);
        left -= 1;
        arcs.push(arc)?;
    }
    Ok(arcs)
}

/// Reads the number of arcs, and the arcs.
pub fn read_arcs<G: Grammar>(
    alloc: Global,
    lines: &mut Lines<'_>,
    version: Version,
    signals: Signals,
) -> Result<ArcList, TextFault>
    ensures reads { (s : G.State) (before : ℕ → List Arc → G.State) →
        TakesLine G.rules s (count_in (codes "arcs") 2 MOST_ARCS) (λ n. before n []) →
        ArcsAreTaken G.rules version (fine_signals signals) before →
        Reads G.rules lines.old lines.new s (λ arcs. before 0 arcs) result }
    ensures took { IfOk result (λ arcs.
        lines.old.left ≡ counted_arcs (fine_signals signals) arcs ++ lines.new.left) }
    ensures are { IfOk result AreArcs }
    ensures of_version { IfOk result (All (λ a. a.sat ≤ most_sat version)) }
    ensures used { IfOk result (All (HasUsedShifts (fine_signals signals))) }
    ensures whole { IfOk result (All IsWholeArc) }
{
    let count = next_count::<G>(lines, b"arcs", 2, MOST_ARCS as u64)?;
    let arcs = read_arc_lines::<G>(alloc, lines, version, signals, count as usize)?;
    Ok(ArcList::new(arcs))
}
