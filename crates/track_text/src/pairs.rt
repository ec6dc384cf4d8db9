//! The pairs of a track, with their points and rows.
ghost use Rattle.std.specs.Prelude.{◌≡◌, ◌≤◌, ◌<◌, ◌+◌, ◌-◌, ◌^◌, ◌++◌, ◌∷◌, [], ℕ, List, All, codes, length, unsigned_abs, IfOk};
ghost use Rattle.obs_rows.specs.declared.arcs.Arc.{Arc};
ghost use Rattle.obs_rows.specs.Pairs.{HasItsArcs, ArePairs};
ghost use Rattle.obs_rows.specs.Ranges.{IsPoint};
ghost use Rattle.obs_rows.specs.Signals.{fine_signals};
ghost use Rattle.obs_rows.specs.Unused.{HasUsedRows};
ghost use Rattle.obs_rows.specs.declared.limits.TheConstants.{MOST_SATELLITES, MOST_ARCS};
ghost use Rattle.rinex_head.specs.LineRules.{Reads, ReadsFree};
ghost use Rattle.cert_lines.specs.Lengths.{IsWholePair};
ghost use Rattle.cert_lines.specs.Lines.{pair_line, vector_line};
ghost use Rattle.track_text.specs.Lengths.{AreTriples};
ghost use Rattle.track_text.specs.Spelling.{placed_pair_lines, counted_placed_pairs};
ghost use Rattle.track_text.specs.Rules.{track_rules, frame, numbers_of, before_pairs, before_rows, PairCount, Tail};

use crate::grammar::TrackText;
use cert_lines::{COORDINATES, PairHead, Version};
use cert_text::{next_count, next_pair_head, next_triple, read_rows};
use line_source::Lines;
use obs_rows::{Arc, MOST_PAIRS, PairList, PairRows, Signals};
use rinex_head::{At, TextFault};
use std::alloc::Global;
use track_data::Items;

// What stands before the rows of a pair.
#[derive(Clone, Copy, Debug)]
struct PlacedHead {
    head: PairHead,
    point: [i64; 3],
}

// A pair with its point.
#[derive(Debug, Drop)]
struct PlacedPair {
    pair: PairRows,
    point: [i64; 3],
}

/// Pairs with their points.
#[derive(Debug, Drop)]
pub(crate) struct PlacedPairs {
    pub(crate) pairs: PairList,
    pub(crate) points: Items<[i64; 3]>,
}

// The lines before the rows of the next pair, whose number is at least `least`, where `left` pairs are to come with it.
fn next_placed_head(lines: &mut Lines<'_>, least: u32, left: u32) -> Result<PlacedHead, At>
    requires { 1 ≤ left }
    ensures reads { (budget : ℕ) (ss : List ℕ) (arcs : List Arc) (numbers : List ℕ) →
        ReadsFree track_rules lines.old lines.new
        (before_pairs (frame budget ss) arcs left least numbers) (λ p.
        before_rows (frame budget ss) arcs (left - 1) p.head.number p.head.count 0 numbers) result }
    ensures took { IfOk result (λ p. lines.old.left ≡ pair_line p.head.number p.head.tag.0
        p.head.group p.head.count ∷ vector_line (codes "at") p.point ∷ lines.new.left) }
    ensures number { IfOk result (λ p. (least ≤ p.head.number) × (p.head.number < MOST_PAIRS)) }
    ensures tag { IfOk result (λ p. p.head.tag.0 < 2 ^ 63) }
    ensures group { IfOk result (λ p. unsigned_abs p.head.group < 2 ^ 55) }
    ensures count { IfOk result (λ p. (1 ≤ p.head.count) × (p.head.count ≤ MOST_SATELLITES)) }
    ensures point { IfOk result (λ p. IsPoint p.point) }
    ensures whole { IfOk result (λ p. length p.point ≡ 3) }
{
    let head = next_pair_head::<TrackText>(lines, Version::Two, least)?;
    let point = next_triple::<TrackText>(lines, b"at", &COORDINATES)?;
    Ok(PlacedHead { head, point })
}

// The next pair, whose number is at least `least`, where `left` pairs are to come with it.
fn next_pair(
    alloc: Global,
    lines: &mut Lines<'_>,
    signals: Signals,
    arcs: &[Arc],
    least: u32,
    left: u32,
) -> Result<PlacedPair, TextFault>
    requires left { 1 ≤ left }
    requires some { 1 ≤ length arcs.now }
    requires few { length arcs.now ≤ MOST_ARCS }
    ensures reads { (budget : ℕ) (numbers : List ℕ) → Reads track_rules lines.old lines.new
        (before_pairs (frame budget (fine_signals signals)) arcs.now left least numbers) (λ p.
        before_pairs (frame budget (fine_signals signals)) arcs.now (left - 1)
        (p.pair.number + 1) (numbers ++ p.pair.number ∷ [])) result }
    ensures took { IfOk result (λ p. lines.old.left
        ≡ placed_pair_lines (fine_signals signals) p.pair p.point ++ lines.new.left) }
    ensures least { IfOk result (λ p. least ≤ p.pair.number) }
    ensures arcs { IfOk result (λ p. HasItsArcs arcs.now p.pair) }
    ensures used { IfOk result (λ p. HasUsedRows (fine_signals signals) p.pair) }
    ensures whole { IfOk result (λ p. IsWholePair p.pair) }
    ensures point { IfOk result (λ p. IsPoint p.point) }
    ensures triple { IfOk result (λ p. length p.point ≡ 3) }
{
    let placed = next_placed_head(lines, least, left)?;
    let pair = read_rows::<TrackText>(alloc, lines, signals, arcs, placed.head)?;
    let point = placed.point;
    Ok(PlacedPair { pair, point })
}

/// Reads the number of pairs, and the pairs with their points.
pub(crate) fn read_pairs(
    alloc: Global,
    lines: &mut Lines<'_>,
    signals: Signals,
    arcs: &[Arc],
) -> Result<PlacedPairs, TextFault>
    requires some { 1 ≤ length arcs.now }
    requires few { length arcs.now ≤ MOST_ARCS }
    ensures reads { (budget : ℕ) → Reads track_rules lines.old lines.new
        (PairCount (frame budget (fine_signals signals)) arcs.now) (λ p.
        Tail (frame budget (fine_signals signals)) arcs.now (numbers_of p.pairs)) result }
    ensures took { IfOk result (λ p. lines.old.left
        ≡ counted_placed_pairs (fine_signals signals) p.pairs p.points ++ lines.new.left) }
    ensures some { IfOk result (λ p. 1 ≤ length p.pairs) }
    ensures each { IfOk result (λ p. length p.points ≡ length p.pairs) }
    ensures are { IfOk result (λ p. ArePairs arcs.now p.pairs) }
    ensures used { IfOk result (λ p. All (HasUsedRows (fine_signals signals)) p.pairs) }
    ensures points { IfOk result (λ p. All IsPoint p.points) }
    ensures whole { IfOk result (λ p. All IsWholePair p.pairs) }
    ensures triples { IfOk result (λ p. AreTriples p.points) }
{
    let count = next_count::<TrackText>(lines, b"pairs", 1, MOST_PAIRS as u64)?;
    let mut pairs: Vec<PairRows> = Vec::new(alloc);
    let mut points: Vec<[i64; 3]> = Vec::new(alloc);
    let mut least = 0;
    let mut left = count as u32;
    'pairs: while left > 0 {
        let placed = next_pair(alloc, lines, signals, arcs, least, left)?;
        least = placed.pair.number + 1;
        left -= 1;
        points.push(placed.point)?;
        pairs.push(placed.pair)?;
    }
    Ok(PlacedPairs {
        pairs: PairList::new(pairs),
        points: Items::new(points),
    })
}
