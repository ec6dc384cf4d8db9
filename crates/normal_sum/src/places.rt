//! The places of the integers of a pair's rows.
ghost use Rattle.std.specs.Prelude.{◌≡◌, ℕ, ◌<◌, ◌≤◌, length, slice_index_or, Option, IfSome, None};
ghost use Rattle.obs_rows.specs.declared.arcs.Arc.{Arc};
ghost use Rattle.obs_rows.specs.declared.rows.Row.{Row};
ghost use Rattle.obs_rows.specs.Arcs.{free_before, free_count};
ghost use Rattle.obs_rows.specs.Signals.{phases};
ghost use Rattle.obs_rows.specs.CountedSignals.{AreCounted};
ghost use Rattle.normal_sum.specs.Pairs.{HaveArcs};
ghost use Rattle.normal_sum.specs.Places.{first_place, place_from};

use obs_rows::{Arc, MOST_FREE_ARCS, MOST_SATELLITES, PHASES, Row, free_arcs, phase_count};
use quadratic_form::MOST_INTEGERS;

/// The most rows of a pair.
pub const MOST_ROWS: usize = MOST_SATELLITES;

/// The free arcs before an arc, where those before another one were counted. The arcs of a pair's rows rise, so few are left
/// to count.
#[tactic(auto, using(crate::proofs::PlaceLaws::free_between))]
fn free_before(arcs: &[Arc], from: usize, counted: usize, arc: usize) -> usize
    requires from { from ≤ length arcs.now }
    requires counted { counted ≡ free_before arcs.now from }
    requires arc { arc ≤ length arcs.now }
    ensures value { result ≡ free_before arcs.now arc }
{
    if from <= arc {
        counted + free_arcs(&arcs[from..arc])
    } else {
        free_arcs(&arcs[..arc])
    }
}

/// The place of an arc's first integer, where each free arc has as many as there are phases and this many stand before it;
/// None for a datum.
fn first_place(arcs: &[Arc], phases: usize, arc: usize, before: usize) -> Option<usize>
    requires arc { arc < length arcs.now }
    requires free { free_count arcs.now ≤ MOST_FREE_ARCS }
    requires phases { phases ≤ PHASES }
    requires before { before ≡ free_before arcs.now arc }
    ensures value { result ≡ first_place arcs.now phases arc }
    ensures few { IfSome result (λ i. i ≤ MOST_INTEGERS) }
{
    if arcs[arc].datum {
        None
    } else {
        Some(phases * before)
    }
}

/// The place of the first integer of each row's arc.
pub fn first_places(arcs: &[Arc], signals: &[usize], rows: &[Row]) -> [Option<usize>; MOST_ROWS]
    requires have_arcs { HaveArcs arcs.now rows.now }
    requires few_rows { length rows.now ≤ MOST_ROWS }
    requires free { free_count arcs.now ≤ MOST_FREE_ARCS }
    requires counted { AreCounted signals.now }
    ensures value { (k : ℕ) (d : Row) → k < length rows.now → slice_index_or result k None
        ≡ first_place arcs.now (length (phases signals.now)) (slice_index_or rows.now k d).arc }
    ensures none { (k : ℕ) → length rows.now ≤ k → slice_index_or result k None ≡ None }
    ensures few { (k : ℕ) → IfSome (slice_index_or result k None) (λ i. i ≤ MOST_INTEGERS) }
{
    let phases = phase_count(signals);
    let mut places = [None; MOST_ROWS];
    let mut from = 0;
    let mut before = 0;
    for k in 0..rows.len() {
        let arc = rows[k].arc as usize;
        before = free_before(arcs, from, before, arc);
        from = arc;
        places[k] = first_place(arcs, phases, arc, before);
    }
    places
}

/// The place of an integer: that of its arc's first, and its phase's among the phases that count.
fn place_from(first: Option<usize>, phase: Option<usize>) -> Option<usize>
    requires first { IfSome first (λ i. i ≤ MOST_INTEGERS) }
    requires phase { IfSome phase (λ i. i < PHASES) }
    ensures { result ≡ place_from first phase }
{
    Some(first? + phase?)
}

/// The place of each row's integer as one phase sees it. A code has none.
pub fn places_of(
    firsts: &[Option<usize>; MOST_ROWS],
    phase: Option<usize>,
) -> [Option<usize>; MOST_ROWS]
    requires first { (k : ℕ) → IfSome (slice_index_or firsts.now k None) (λ i. i ≤ MOST_INTEGERS) }
    requires phase { IfSome phase (λ i. i < PHASES) }
    ensures { (k : ℕ) →
        slice_index_or result k None ≡ place_from (slice_index_or firsts.now k None) phase }
{
    let mut places = [None; MOST_ROWS];
    for k in 0..MOST_ROWS {
        places[k] = place_from(firsts[k], phase);
    }
    places
}
