//! Which signals count, and where the integers of an arc stand.
ghost use Rattle.std.specs.Prelude.{◌≡◌, ◌<◌, ◌≤◌, All, IsTrue, ◌↔◌, length, position, ◌==◌, IfSome};
ghost use Rattle.obs_rows.specs.Arcs.{IsOfPair, free_count};
ghost use Rattle.obs_rows.specs.Pairs.{HasItsArcs};
ghost use Rattle.obs_rows.specs.declared.units.TheConstants.{SIGNALS};
ghost use Rattle.obs_rows.specs.Signals.{fine_signals, counted, phases};
ghost use Rattle.obs_rows.specs.CountedSignals.{AreCounted};
ghost use Rattle.obs_rows.specs.Integers.{integer_count, integer_place};
ghost use Rattle.obs_rows.specs.declared.limits.TheConstants.{MOST_ARCS};

use crate::{
    Arc, COARSE_SIGNALS, PairRows, Row, SIGNALS_12, SIGNALS_15, SIGNALS_125, Signals, WAVELENGTHS,
};

/// The signals of the bands that are used.
pub fn fine_signals(signals: Signals) -> &'static [usize]
    ensures value { result.now ≡ fine_signals signals }
    ensures are { AreCounted result.now }
{
    if signals.l5 == 0 {
        &SIGNALS_12
    } else if signals.l2 == 0 {
        &SIGNALS_15
    } else {
        &SIGNALS_125
    }
}

/// The signals that count at a scale: all at scale 0, else the code on L1 alone.
#[tactic(auto, using(crate::proofs::IntegerPlaces::counted_are))]
pub fn counted_signals(signals: Signals, scale: u32) -> &'static [usize]
    ensures value { result.now ≡ counted signals scale }
    ensures are { AreCounted result.now }
{
    if scale == 0 {
        fine_signals(signals)
    } else {
        &COARSE_SIGNALS
    }
}

/// Whether the row's arc is one of these and holds the pair. No command asks: the call serves tests alone.
pub fn is_of_pair(arcs: &[Arc], number: u32, row: &Row) -> bool
    ensures { IsTrue result ↔ IsOfPair arcs.now number row.now }
{
    let Some(arc) = arcs.get(row.arc as usize) else {
        return false;
    };
    arc.first <= number && number <= arc.last
}

/// Whether this holds for each row of a pair. The call serves tests alone.
pub fn has_its_arcs(arcs: &[Arc], pair: &PairRows) -> bool
    ensures { IsTrue result ↔ HasItsArcs arcs.now pair.now }
{
    let number = pair.number;
    pair.rows
        .as_slice()
        .iter()
        .all(|r| is_of_pair(arcs, number, r))
}

/// The number of free arcs.
pub fn free_arcs(arcs: &[Arc]) -> usize
    ensures { result ≡ free_count arcs.now }
{
    arcs.iter().filter(|a| !a.datum).count()
}

/// The number of phases among these signals.
pub fn phase_count(signals: &[usize]) -> usize
    requires { All (λ s. s < SIGNALS) signals.now }
    ensures { result ≡ length (phases signals.now) }
{
    signals.iter().filter(|s| WAVELENGTHS[**s] > 0).count()
}

/// The number of integers: one for each free arc and each phase that counts.
pub fn integer_count(arcs: &[Arc], signals: &[usize]) -> usize
    requires few { free_count arcs.now ≤ MOST_ARCS }
    requires counted { AreCounted signals.now }
    ensures { result ≡ integer_count arcs.now signals.now }
{
    phase_count(signals) * free_arcs(arcs)
}

/// The place of a signal among the phases that count. A code has none.
pub fn phase_place(signals: &[usize], signal: usize) -> Option<usize>
    requires { All (λ s. s < SIGNALS) signals.now }
    ensures { result ≡ position (λ t. t == signal) (phases signals.now) }
{
    signals
        .iter()
        .filter(|s| WAVELENGTHS[**s] > 0)
        .position(|s| *s == signal)
}

/// The place of the integer of an arc and a signal among all: after those of the free arcs before it, in the order
/// of the phases. A datum and a code have none.
#[tactic(auto, using(crate::proofs::IntegerPlaces::free_before_le, crate::proofs::IntegerPlaces::place_below))]
pub fn integer_place(arcs: &[Arc], signals: &[usize], arc: usize, signal: usize) -> Option<usize>
    requires few { free_count arcs.now ≤ MOST_ARCS }
    requires counted { AreCounted signals.now }
    requires arc_in { arc < length arcs.now }
    ensures place { result ≡ integer_place arcs.now signals.now arc signal }
    ensures within { IfSome result (λ i. i < integer_count arcs.now signals.now) }
{
    if arcs[arc].datum {
        return None;
    }
    let phase = phase_place(signals, signal)?;
    Some(phase_count(signals) * free_arcs(&arcs[..arc]) + phase)
}
