//! Whether integers are those that a session was made with.
ghost use Rattle.std.specs.Prelude.{◌≡◌, ◌-◌, ◌^◌, ◌<◌, ◌≤◌, ◌↔◌, ◌+ℤ◌, ◌-ℤ◌, unsigned_abs, IsTrue, All, length, Some, slice_get};
ghost use Rattle.obs_rows.specs.declared.arcs.Arc.{Arc};
ghost use Rattle.obs_rows.specs.Arcs.{is_free, free_count};
ghost use Rattle.obs_rows.specs.Integers.{integer_count};
ghost use Rattle.obs_rows.specs.Signals.{is_phase};
ghost use Rattle.obs_rows.specs.CountedSignals.{AreCounted};
ghost use Rattle.obs_rows.specs.declared.units.TheConstants.{SIGNALS, MOST_FREE_ARCS};
ghost use Rattle.sim_jobs.specs.Matches.{found, wanted, AgreesWith, HasTruth, HaveTruth, IsMatched, AreMarked, HasMarkedArcs};

use crate::datums::datum_of;
use cert_data::{Answer, Cert, Tail};
use fix_decide::integer_of;
use obs_rows::{Arc, BANDS, PHASES, WAVELENGTHS, fine_signals};

// The whole cycles of a phase: its shift and its integer.
fn cycles_of(shift: i64, integer: i64) -> i128
    ensures value { result ≡ shift +ℤ integer }
    ensures size { unsigned_abs result ≤ 2 ^ 64 }
{
    i128::from(shift) + i128::from(integer)
}

fn minus_shift(cycles: i128, shift: i64) -> i128
    requires { unsigned_abs cycles ≤ 2 ^ 64 }
    ensures { result ≡ cycles -ℤ shift }
{
    cycles - i128::from(shift)
}

// The cycles of arc k, which this is, less those of its datum.
fn found(
    arcs: &[Arc],
    signals: &[usize],
    z: &[i64],
    k: usize,
    arc: &Arc,
    datum: &Arc,
    phase: usize,
) -> i128
    requires free { free_count arcs.now ≤ MOST_FREE_ARCS }
    requires counted { AreCounted signals.now }
    requires inside { k < length arcs.now }
    requires entries { length z.now ≡ integer_count arcs.now signals.now }
    requires phase { phase < SIGNALS }
    ensures { result ≡ found arcs.now signals.now z.now k arc.now datum.now phase }
{
    let integer = integer_of(arcs, signals, z, k, phase);
    let band = BANDS[phase];
    minus_shift(cycles_of(arc.shift[band], integer), datum.shift[band])
}

// The cycles that an arc and its datum were made with, by bands.
#[derive(Clone, Copy)]
struct Made {
    of_arc: [i64; PHASES],
    of_datum: [i64; PHASES],
}

// The cycles of the arc less those of the datum, on the band of a phase.
fn wanted(made: &Made, phase: usize) -> i128
    requires phase { phase < SIGNALS }
    ensures { result ≡ wanted made.now.of_arc made.now.of_datum phase }
{
    let band = BANDS[phase];
    i128::from(made.of_arc[band]) - i128::from(made.of_datum[band])
}

// Whether the signal is no phase, or these are the cycles that were made on its band.
fn is_as_made(made: &Made, signal: usize, cycles: i128) -> bool
    requires { signal < SIGNALS }
    ensures { IsTrue result
        ↔ (IsTrue (is_phase signal) → cycles ≡ wanted made.now.of_arc made.now.of_datum signal) }
{
    if WAVELENGTHS[signal] <= 0 {
        return true;
    }
    cycles == wanted(made, signal)
}

// The cycles that a satellite was made with.
fn truth_of(truth: &[[i64; PHASES]], sat: u8) -> Option<[i64; PHASES]>
    ensures { result ≡ slice_get truth.now (sat - 1) }
{
    truth.get(usize::from(sat.saturating_sub(1))).copied()
}

// Whether arc k, which this is, has against its datum the cycles that were made.
fn agrees_with(
    made: &Made,
    arcs: &[Arc],
    signals: &[usize],
    z: &[i64],
    k: usize,
    arc: &Arc,
    datum: &Arc,
) -> bool
    requires free { free_count arcs.now ≤ MOST_FREE_ARCS }
    requires counted { AreCounted signals.now }
    requires inside { k < length arcs.now }
    requires entries { length z.now ≡ integer_count arcs.now signals.now }
    ensures { IsTrue result ↔ All (λ s. IsTrue (is_phase s) → found arcs.now signals.now z.now k
        arc.now datum.now s ≡ wanted made.now.of_arc made.now.of_datum s) signals.now }
{
    for signal in signals {
        let cycles = found(arcs, signals, z, k, arc, datum, *signal);
        if !is_as_made(made, *signal, cycles) {
            return false;
        }
    }
    true
}

// Whether arc k, which this is, has against its datum the cycles that it was made with.
fn agrees(
    truth: &[[i64; PHASES]],
    arcs: &[Arc],
    signals: &[usize],
    z: &[i64],
    k: usize,
    arc: &Arc,
    datum: &Arc,
) -> bool
    requires free { free_count arcs.now ≤ MOST_FREE_ARCS }
    requires counted { AreCounted signals.now }
    requires inside { k < length arcs.now }
    requires entries { length z.now ≡ integer_count arcs.now signals.now }
    ensures { IsTrue result ↔ AgreesWith truth.now arcs.now signals.now z.now k arc.now datum.now }
{
    let Some(of_arc) = truth_of(truth, arc.sat) else {
        return false;
    };
    let Some(of_datum) = truth_of(truth, datum.sat) else {
        return false;
    };
    let made = Made { of_arc, of_datum };
    agrees_with(&made, arcs, signals, z, k, arc, datum)
}

// Whether arc k, where it is free, has the cycles that it was made with.
fn has_truth(truth: &[[i64; PHASES]], arcs: &[Arc], signals: &[usize], z: &[i64], k: usize) -> bool
    requires free { free_count arcs.now ≤ MOST_FREE_ARCS }
    requires counted { AreCounted signals.now }
    requires inside { k < length arcs.now }
    requires entries { length z.now ≡ integer_count arcs.now signals.now }
    requires marked { AreMarked arcs.now }
    ensures datum { (a : Arc) → slice_get arcs.now k ≡ Some a → IsTrue a.datum → IsTrue result }
    ensures free { (a : Arc) → slice_get arcs.now k ≡ Some a → IsTrue (is_free a) →
        IsTrue result ↔ HasTruth truth.now arcs.now signals.now z.now k a }
{
    let arc = arcs[k];
    if arc.datum {
        return true;
    }
    let datum = arcs[datum_of(arcs, k)];
    agrees(truth, arcs, signals, z, k, &arc, &datum)
}

// Whether all free arcs have the cycles that they were made with.
fn have_truth(truth: &[[i64; PHASES]], arcs: &[Arc], signals: &[usize], z: &[i64]) -> bool
    requires free { free_count arcs.now ≤ MOST_FREE_ARCS }
    requires counted { AreCounted signals.now }
    requires entries { length z.now ≡ integer_count arcs.now signals.now }
    requires marked { AreMarked arcs.now }
    ensures { IsTrue result ↔ HaveTruth truth.now arcs.now signals.now z.now }
{
    for k in 0..arcs.len() {
        if !has_truth(truth, arcs, signals, z, k) {
            return false;
        }
    }
    true
}

fn is_matched_cert(truth: &[[i64; PHASES]], cert: &Cert) -> bool
    requires { AreMarked cert.now.session.arcs }
    ensures { IsTrue result ↔ IsMatched truth.now (Answer.Full cert.now) }
{
    match &cert.tail {
        Tail::Fixed { best, .. } => have_truth(
            truth,
            cert.session.arcs.as_slice(),
            fine_signals(cert.session.signals),
            &best.first[..best.size],
        ),
        _ => false,
    }
}

/// Whether the answer is a fix with the integers of the truth, in which the cycles of satellite n on L1, L2 and L5 stand at
/// place n - 1.
pub fn is_matched(truth: &[[i64; PHASES]], answer: &Answer) -> bool
    requires { HasMarkedArcs answer.now }
    ensures { IsTrue result ↔ IsMatched truth.now answer.now }
{
    match answer {
        Answer::Full(cert) => is_matched_cert(truth, cert),
        _ => false,
    }
}
