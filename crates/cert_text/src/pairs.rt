//! The pairs of a certificate, with their rows.
ghost use Rattle.std.specs.Prelude.{◌≡◌, ◌≤◌, ◌<◌, ◌+◌, ◌-◌, ◌++◌, [], ℕ, All, length, unsigned_abs, IfOk};
ghost use Rattle.obs_rows.specs.Pairs.{HasItsArcs};
ghost use Rattle.obs_rows.specs.Heads.{KeepsHead, HasHeadOf};
ghost use Rattle.obs_rows.specs.Signals.{fine_signals};
ghost use Rattle.obs_rows.specs.Unused.{HasUsedRows};
ghost use Rattle.obs_rows.specs.declared.limits.TheConstants.{MOST_ARCS};
ghost use Rattle.cert_lines.specs.Versions.{group_limit};
ghost use Rattle.rinex_head.specs.LineRules.{Reads};
ghost use Rattle.cert_lines.specs.Lines.{pair_lines};
ghost use Rattle.cert_text.specs.Spelling.{all_pair_lines, counted_pairs};
ghost use Rattle.cert_lines.specs.Lengths.{IsWholePair};
ghost use Rattle.cert_text.specs.Rules.{cert_rules, frame, before_pairs, PairCount, Tail};

use crate::grammar::CertText;
use crate::{next_count, next_pair_head, read_rows};
use cert_lines::Version;
use line_source::Lines;
use obs_rows::{Arc, MOST_PAIRS, PairRows, Session, SessionBuilder, Signals};
use rinex_head::TextFault;
use std::alloc::Global;

// The next pair, whose number is at least `least`, by how many pairs are to come with it.
fn next_pair(
    alloc: Global,
    lines: &mut Lines<'_>,
    version: Version,
    signals: Signals,
    arcs: &[Arc],
    least: u32,
    left: u32,
) -> Result<PairRows, TextFault>
    requires left { 1 ≤ left }
    requires some { 1 ≤ length arcs.now }
    requires few { length arcs.now ≤ MOST_ARCS }
    ensures reads { (budget : ℕ) → Reads cert_rules lines.old lines.new
        (before_pairs (frame version budget (fine_signals signals)) arcs.now left least) (λ p.
        before_pairs (frame version budget (fine_signals signals)) arcs.now (left - 1)
        (p.number + 1)) result }
    ensures took { IfOk result (λ p.
        lines.old.left ≡ pair_lines (fine_signals signals) p ++ lines.new.left) }
    ensures least { IfOk result (λ p. least ≤ p.number) }
    ensures arcs { IfOk result (λ p. HasItsArcs arcs.now p) }
    ensures of_version { IfOk result (λ p. unsigned_abs p.group < group_limit version) }
    ensures used { IfOk result (HasUsedRows (fine_signals signals)) }
    ensures whole { IfOk result IsWholePair }
{
    let head = next_pair_head::<CertText>(lines, version, least)?;
    read_rows::<CertText>(alloc, lines, signals, arcs, head)
}

// The pairs, by their number.
fn read_all_pairs(
    alloc: Global,
    lines: &mut Lines<'_>,
    version: Version,
    mut session: SessionBuilder,
    count: u32,
) -> Result<SessionBuilder, TextFault>
    requires none { session.pairs ≡ [] }
    requires few { count ≤ MOST_PAIRS }
    ensures reads { (budget : ℕ) → Reads cert_rules lines.old lines.new
        (before_pairs (frame version budget (fine_signals session.signals)) session.arcs count 0)
        (λ s. Tail (frame version budget (fine_signals session.signals)) session.arcs) result }
    ensures took { IfOk result (λ s.
        lines.old.left ≡ all_pair_lines (fine_signals session.signals) s.pairs ++ lines.new.left) }
    ensures count { IfOk result (λ s. length s.pairs ≡ count) }
    ensures of_version { IfOk result (λ s.
        All (λ p. unsigned_abs p.group < group_limit version) s.pairs) }
    ensures whole { IfOk result (λ s. All IsWholePair s.pairs) }
    ensures head { IfOk result (KeepsHead session) }
{
    let signals = session.signals;
    let mut least = 0;
    let mut left = count;
    'pairs: while left > 0 {
        let pair = next_pair(
            alloc,
            lines,
            version,
            signals,
            session.arcs.as_slice(),
            least,
            left,
        )?;
        least = pair.number + 1;
        left -= 1;
        session.push(pair)?;
    }
    Ok(session)
}

/// Reads the number of pairs, and the pairs of a session that has none yet.
pub(crate) fn read_pairs(
    alloc: Global,
    lines: &mut Lines<'_>,
    version: Version,
    session: SessionBuilder,
) -> Result<Session, TextFault>
    requires { session.pairs ≡ [] }
    ensures reads { (budget : ℕ) → Reads cert_rules lines.old lines.new
        (PairCount (frame version budget (fine_signals session.signals)) session.arcs) (λ s.
        Tail (frame version budget (fine_signals session.signals)) session.arcs) result }
    ensures took { IfOk result (λ s.
        lines.old.left ≡ counted_pairs (fine_signals session.signals) s.pairs ++ lines.new.left) }
    ensures of_version { IfOk result (λ s.
        All (λ p. unsigned_abs p.group < group_limit version) s.pairs) }
    ensures whole { IfOk result (λ s. All IsWholePair s.pairs) }
    ensures head { IfOk result (HasHeadOf session) }
{
    let count = next_count::<CertText>(lines, b"pairs", 1, MOST_PAIRS as u64)?;
    let whole = read_all_pairs(alloc, lines, version, session, count as u32)?;
    Ok(whole.finish())
}
