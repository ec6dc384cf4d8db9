//! The shifts of the arcs.
ghost use Rattle.std.specs.Prelude.{◌≡◌, ℕ, ◌+◌, ◌^◌, ◌<◌, ◌≤◌, length, unsigned_abs, All, IfOk, IsTrue};
ghost use Rattle.obs_rows.specs.Ranges.{IsBelow};
ghost use Rattle.obs_rows.specs.Arcs.{free_count};
ghost use Rattle.obs_rows.specs.Signals.{is_phase};
ghost use Rattle.obs_rows.specs.CountedSignals.{AreCounted};
ghost use Rattle.obs_rows.specs.declared.units.TheConstants.{MOST_FREE_ARCS, SIGNALS};
ghost use Rattle.obs_rows.specs.declared.limits.TheConstants.{MOST_ARCS};
ghost use Rattle.integer_form.specs.FloatPoint.{item};
ghost use Rattle.round_steps.specs.Shifts.{growth, grown_shift, grown_arc, AreGrown, AreShiftsBelow};

use crate::limits::THREE_QUARTERS;
use fix_decide::integer_of;
use obs_rows::{Arc, BANDS, PHASES, phase_of};
use quadratic_form::{BASELINE_COLUMNS, MOST_FACTORS};
use std::alloc::{AllocError, Global};
use whole_math::nearest;

/// A cycle in the unit of the integers' numbers.
const CYCLE: i128 = 1 << 16;

/// By how many cycles a shift grows.
fn growth(number: i64) -> i64
    requires { unsigned_abs number < 2 ^ 46 }
    ensures value { result ≡ growth number }
    ensures size { unsigned_abs result ≤ 2 ^ 30 }
{
    if number.unsigned_abs() > THREE_QUARTERS {
        nearest(number as i128, CYCLE) as i64
    } else {
        0
    }
}

/// The shift of a phase of arc k, which this is, grown by the number of its integer.
fn grown_shift(
    arcs: &[Arc],
    signals: &[usize],
    k: usize,
    arc: &Arc,
    phase: usize,
    numbers: &[i64; MOST_FACTORS],
) -> i64
    requires few_free { free_count arcs.now ≤ MOST_FREE_ARCS }
    requires counted { AreCounted signals.now }
    requires arc { k < length arcs.now }
    requires phase { phase < SIGNALS }
    requires is_phase { IsTrue (is_phase phase) }
    requires numbers { (j : ℕ) → unsigned_abs (item numbers.now j) < 2 ^ 46 }
    requires shifts { All (IsBelow (2 ^ 40)) arc.now.shift }
    ensures value { result ≡ grown_shift arcs.now signals.now numbers.now k arc.now phase }
    ensures below { (m : ℕ) → All (IsBelow m) arc.now.shift → 0 < m → IsBelow (m + 2 ^ 30) result }
{
    let number = integer_of(arcs, signals, &numbers[BASELINE_COLUMNS..], k, phase);
    arc.shift[BANDS[phase]] + growth(number)
}

/// Arc k, which this is, with its shifts grown.
fn grown_arc(
    arcs: &[Arc],
    signals: &[usize],
    k: usize,
    arc: &Arc,
    numbers: &[i64; MOST_FACTORS],
) -> Arc
    requires few_free { free_count arcs.now ≤ MOST_FREE_ARCS }
    requires counted { AreCounted signals.now }
    requires arc { k < length arcs.now }
    requires numbers { (j : ℕ) → unsigned_abs (item numbers.now j) < 2 ^ 46 }
    requires shifts { All (IsBelow (2 ^ 40)) arc.now.shift }
    ensures grown { result ≡ grown_arc arcs.now signals.now numbers.now k arc.now }
    ensures below { (m : ℕ) → All (IsBelow m) arc.now.shift → 0 < m →
        All (IsBelow (m + 2 ^ 30)) result.shift }
{
    let mut shift = [0; PHASES];
    for band in 0..PHASES {
        let phase = phase_of(band);
        shift[band] = grown_shift(arcs, signals, k, arc, phase, numbers);
    }
    Arc {
        sat: arc.sat,
        first: arc.first,
        last: arc.last,
        datum: arc.datum,
        shift,
    }
}

/// The arcs with their shifts grown by a float point over these signals: that of each integer which is over three quarters of
/// a cycle, by the nearest whole number of cycles. `run_rounds` calls it; that it is public serves tests alone.
pub fn grown(
    alloc: Global,
    arcs: &[Arc],
    signals: &[usize],
    numbers: &[i64; MOST_FACTORS],
) -> Result<Vec<Arc>, AllocError>
    requires few { length arcs.now ≤ MOST_ARCS }
    requires few_free { free_count arcs.now ≤ MOST_FREE_ARCS }
    requires counted { AreCounted signals.now }
    requires numbers { (j : ℕ) → unsigned_abs (item numbers.now j) < 2 ^ 46 }
    requires shifts { AreShiftsBelow (2 ^ 40) arcs.now }
    ensures grown { IfOk result (λ v. AreGrown arcs.now signals.now numbers.now v.items) }
    ensures below { IfOk result (λ v. (m : ℕ) → AreShiftsBelow m arcs.now → 0 < m →
        AreShiftsBelow (m + 2 ^ 30) v.items) }
{
    let mut after = Vec::new(alloc);
    for k in 0..arcs.len() {
        after.push(grown_arc(arcs, signals, k, &arcs[k], numbers))?;
    }
    Ok(after)
}
