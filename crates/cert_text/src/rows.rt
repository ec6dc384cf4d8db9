//! The rows of a pair.
ghost use Rattle.std.specs.Prelude.{◌≡◌, ◌≤◌, ◌<◌, ◌+◌, ◌^◌, ◌++◌, ◌∷◌, ℕ, length, unsigned_abs, IfOk};
ghost use Rattle.obs_rows.specs.Arcs.{IsOfPair};
ghost use Rattle.obs_rows.specs.Pairs.{HasItsArcs};
ghost use Rattle.obs_rows.specs.Signals.{fine_signals};
ghost use Rattle.obs_rows.specs.Unused.{IsZeroOff, HasUsedRows};
ghost use Rattle.obs_rows.specs.declared.limits.TheConstants.{MOST_PAIRS, MOST_SATELLITES, MOST_ARCS};
ghost use Rattle.rinex_head.specs.LineRules.{Reads, ReadsFree};
ghost use Rattle.cert_lines.specs.Lines.{row_line, row_lines};
ghost use Rattle.cert_lines.specs.Forms.{row_in};
ghost use Rattle.cert_text.specs.LineParts.{TakesLine};
ghost use Rattle.cert_lines.specs.Lengths.{IsWholeRow, IsWholePair};
ghost use Rattle.cert_text.specs.Parts.{RowsAreTaken};

use crate::Grammar;
use cert_lines::{PairHead, row_in};
use line_source::Lines;
use obs_rows::{Arc, PairBuilder, PairRows, Row, Signals};
use rinex_head::{At, TextFault, What, next_line};
use std::alloc::Global;

// The next row of the pair of this number, whose arc is at least `least`.
fn next_row<G: Grammar>(
    lines: &mut Lines<'_>,
    signals: Signals,
    arcs: &[Arc],
    number: u32,
    least: u32,
) -> Result<Row, At>
    requires some { 1 ≤ length arcs.now }
    requires few { length arcs.now ≤ MOST_ARCS }
    ensures reads { (s : G.State) (next : ℕ → G.State) →
        TakesLine G.rules s (row_in (fine_signals signals) arcs.now number least) next →
        ReadsFree G.rules lines.old lines.new s (λ r. next r.arc) result }
    ensures took { IfOk result (λ r.
        lines.old.left ≡ row_line (fine_signals signals) r ∷ lines.new.left) }
    ensures least { IfOk result (λ r. least ≤ r.arc) }
    ensures of_pair { IfOk result (λ r. IsOfPair arcs.now number r) }
    ensures used { IfOk result (λ r. IsZeroOff (fine_signals signals) r.y) }
    ensures whole { IfOk result IsWholeRow }
{
    let line = next_line(lines, What::BadLine)?;
    match row_in(signals, arcs, number, least, line.bytes) {
        Ok(row) => Ok(row),
        Err(flaw) => Err(flaw.at(line.number)),
    }
}

/// Reads the rows of a pair.
pub fn read_rows<G: Grammar>(
    alloc: Global,
    lines: &mut Lines<'_>,
    signals: Signals,
    arcs: &[Arc],
    head: PairHead,
) -> Result<PairRows, TextFault>
    requires some { 1 ≤ length arcs.now }
    requires few { length arcs.now ≤ MOST_ARCS }
    requires number { head.number < MOST_PAIRS }
    requires tag { head.tag.0 < 2 ^ 63 }
    requires group { unsigned_abs head.group < 2 ^ 55 }
    requires count_from { 1 ≤ head.count }
    requires count_to { head.count ≤ MOST_SATELLITES }
    ensures reads { (before : ℕ → ℕ → G.State) (after : G.State) →
        RowsAreTaken G.rules (fine_signals signals) arcs.now head.number before after →
        Reads G.rules lines.old lines.new (before head.count 0) (λ p. after) result }
    ensures took { IfOk result (λ p.
        lines.old.left ≡ row_lines (fine_signals signals) p.rows ++ lines.new.left) }
    ensures number { IfOk result (λ p. p.number ≡ head.number) }
    ensures tag { IfOk result (λ p. p.tag ≡ head.tag) }
    ensures group { IfOk result (λ p. p.group ≡ head.group) }
    ensures count { IfOk result (λ p. length p.rows ≡ head.count) }
    ensures arcs { IfOk result (λ p. HasItsArcs arcs.now p) }
    ensures used { IfOk result (HasUsedRows (fine_signals signals)) }
    ensures whole { IfOk result IsWholePair }
{
    let mut pair = PairBuilder::new(alloc, head.number, head.tag, head.group);
    let mut least = 0;
    let mut left = head.count;
    'rows: while left > 0 {
        let row = next_row::<G>(lines, signals, arcs, head.number, least)?;
        least = row.arc as u32 + 1;
        left -= 1;
        pair.push(row)?;
    }
    Ok(pair.finish())
}
