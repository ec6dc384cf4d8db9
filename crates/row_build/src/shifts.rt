//! First shifts.
ghost use Rattle.std.specs.Prelude.{IsTrue, ◌≡◌, ◌≢◌, ◌↔◌, ◌^◌, ◌<◌, ◌≤◌, ℕ, true, false, None, Some, [], All, List, ℤ, pos, unsigned_abs, IfSome, length, slice_get};
ghost use Rattle.obs_rows.specs.ReceiverPoints.{IsReceiverPoint};
ghost use Rattle.obs_rows.specs.declared.arcs.Arc.{Arc};
ghost use Rattle.obs_rows.specs.declared.units.TheConstants.{SIGNALS};
ghost use Rattle.obs_rows.specs.declared.signal_names.TheConstants.{L1_CODE};
ghost use Rattle.obs_rows.specs.Ranges.{IsScale, IsBelow};
ghost use Rattle.obs_rows.specs.Data.{number_at};
ghost use Rattle.obs_rows.specs.Signals.{wavelength, is_phase, band};
ghost use Rattle.obs_rows.specs.CountedSignals.{phase_bands};
ghost use Rattle.obs_rows.specs.Unused.{IsZeroOff};
ghost use Rattle.obs_rows.specs.declared.limits.TheConstants.{MOST_ARCS};
ghost use Rattle.slip_arcs.specs.Used.{is_used};
ghost use Rattle.slip_arcs.specs.Linked.{IsCutOf};
ghost use Rattle.row_boxes.specs.Sightings.{Sighting, y_of};
ghost use Rattle.row_boxes.specs.YBoxes.{AreSightings, IsWithinHalf, IsAllowedGroup};
ghost use Rattle.row_build.specs.HeldArcs.{holds_pair, arcs_at};
ghost use Rattle.row_build.specs.Sights.{IsSeen};
ghost use Rattle.row_build.specs.Rows.{setting, setting_from, seen_by};
ghost use Rattle.row_build.specs.Far.{IsFirstEntry};
ghost use Rattle.row_build.specs.Shifts.{counts, AreFirstShifts};

use crate::RowSource;
use crate::arcs::{first_held, holds};
use crate::entries::{SeenSat, seen_sat_of};
use obs_rows::{Arc, L1_CODE, L1_PHASE, L2_PHASE, L5_PHASE, PHASES, Signals, fine_signals};
use row_boxes::{first_group, first_shift};
use screening::Screened;

/// The entry of the satellite of a pair's first row, which is looked for from a likely place on first.
pub fn first_seen_sat<'a>(from: &RowSource<'a>, pair: u32, likely: usize) -> SeenSat<'a>
    requires held { arcs_at from.now.arcs.now pair ≢ [] }
    ensures entry { IsFirstEntry from.now.screened.now.boxes from.now.arcs.now pair result.sv.now }
    ensures seen { IsSeen result from.now.base.now from.now.point.now }
{
    let arcs = from.arcs;
    let first = first_held(arcs, pair).unwrap();
    seen_sat_of(from, pair, arcs[first].sat, likely)
}

/// The group of a pair, from the entry of its first row's satellite.
pub fn group_of(entry: &SeenSat<'_>) -> i64
    ensures near { (base point : List ℤ) → IsSeen entry.now base point → (b r : Sighting) →
        AreSightings (seen_by entry.now.sv.now base point) b r → IsWithinHalf (pos 1)
        (y_of L1_CODE (number_at entry.now.sv.now.observed L1_CODE) result (pos 0) b r) }
    ensures allowed { (base point : List ℤ) → IsSeen entry.now base point → (scale : ℕ) →
        IsScale scale → IsAllowedGroup (seen_by entry.now.sv.now base point) scale
        (number_at entry.now.sv.now.observed L1_CODE) result }
    ensures size { unsigned_abs result ≤ 2 ^ 43 }
{
    first_group(
        entry.sv.observed[L1_CODE],
        &entry.base_pseudorange,
        &entry.rover.pseudorange,
    )
}

// Whether the signal is one of these
fn does_count(ss: &[usize], signal: usize) -> bool
    ensures { result ≡ counts ss.now signal }
{
    ss.iter().any(|s| *s == signal)
}

// The shift with which, under this group, the observation of a phase is least, and 0 if the phase doesn't count
fn shift_of(ss: &[usize], signal: usize, entry: &SeenSat<'_>, group: i64) -> i64
    requires signal { signal < SIGNALS }
    requires phase { IsTrue (is_phase signal) }
    requires group { unsigned_abs group ≤ 2 ^ 43 }
    ensures near { IsTrue (counts ss.now signal) → (base point : List ℤ) →
        IsSeen entry.now base point → (b r : Sighting) →
        AreSightings (seen_by entry.now.sv.now base point) b r → IsWithinHalf (wavelength signal)
        (y_of signal (number_at entry.now.sv.now.observed signal) group result b r) }
    ensures unused { counts ss.now signal ≡ false → result ≡ pos 0 }
    ensures size { unsigned_abs result < 2 ^ 39 }
{
    if !does_count(ss, signal) {
        return 0;
    }
    first_shift(
        signal,
        entry.sv.observed[signal],
        group,
        &entry.base_pseudorange,
        &entry.rover.pseudorange,
    )
}

// The shifts with which, under this group, the observations of the phases that count are least
fn shifts_of(ss: &[usize], entry: &SeenSat<'_>, group: i64) -> [i64; PHASES]
    requires group { unsigned_abs group ≤ 2 ^ 43 }
    ensures near { (base point : List ℤ) → IsSeen entry.now base point → (s : ℕ) → s < SIGNALS →
        IsTrue (is_phase s) → IsTrue (counts ss.now s) → (b r : Sighting) →
        AreSightings (seen_by entry.now.sv.now base point) b r → IsWithinHalf (wavelength s)
        (y_of s (number_at entry.now.sv.now.observed s) group (number_at result (band s)) b r) }
    ensures unused { IsZeroOff (phase_bands ss.now) result }
    ensures size { All (IsBelow (2 ^ 39)) result }
{
    let l1 = shift_of(ss, L1_PHASE, entry, group);
    let l2 = shift_of(ss, L2_PHASE, entry, group);
    let l5 = shift_of(ss, L5_PHASE, entry, group);
    [l1, l2, l5]
}

// Of a satellite that the pair uses
fn first_shifts(from: &RowSource<'_>, sat: u8, pair: u32) -> [i64; PHASES]
    requires held { arcs_at from.now.arcs.now pair ≢ [] }
    requires used { is_used from.now.screened.now.used sat pair ≡ true }
    ensures near { AreFirstShifts (setting_from from.now 0) pair sat result }
    ensures size { All (IsBelow (2 ^ 39)) result }
{
    let first = first_seen_sat(from, pair, 0);
    let entry = seen_sat_of(from, pair, sat, first.place);
    let group = group_of(&first);
    shifts_of(fine_signals(from.signals), &entry, group)
}

/// The shifts of `shift_at`, with the base's pseudoranges that are kept.
pub fn shift_with(from: &RowSource<'_>, arc: u16, pair: u32) -> Option<[i64; PHASES]>
    requires arc { arc < length from.now.arcs.now }
    requires pair { pair < length from.now.screened.now.used }
    ensures none { (a : Arc) → slice_get from.now.arcs.now arc ≡ Some a →
        (result ≡ None) ↔ (holds_pair a pair ≡ false) }
    ensures near { (a : Arc) → slice_get from.now.arcs.now arc ≡ Some a → IfSome result (λ shift.
        AreFirstShifts (setting_from from.now 0) pair a.sat shift) }
    ensures size { IfSome result (λ shift. All (IsBelow (2 ^ 39)) shift) }
{
    let held = from.arcs[arc as usize];
    if holds(&held, pair) {
        Some(first_shifts(from, held.sat, pair))
    } else {
        None
    }
}

/// Shifts of an arc, in cycles, with which the observations of its phases that count in the pair lie from -λ to λ, in a fine session
/// and for every group that any box of the pair's first row allows, up to the greatest radius that a row may have. The shift of a band
/// that isn't used is 0. There are none exactly where the arc doesn't hold the pair. The points are in units of 0.1 mm; the signals are those that `screened` was made of.
/// It serves tests alone: programs keep the base's pseudoranges and call `shift_with`.
pub fn shift_at(
    screened: &Screened,
    arcs: &[Arc],
    arc: u16,
    pair: u32,
    base: &[i64; 3],
    point: &[i64; 3],
    signals: Signals,
) -> Option<[i64; PHASES]>
    requires cut { IsCutOf screened.now.used arcs.now }
    requires few { length arcs.now ≤ MOST_ARCS }
    requires arc { arc < length arcs.now }
    requires pair { pair < length screened.now.used }
    requires base { IsReceiverPoint base.now }
    requires point { IsReceiverPoint point.now }
    ensures none { (a : Arc) → slice_get arcs.now arc ≡ Some a →
        (result ≡ None) ↔ (holds_pair a pair ≡ false) }
    ensures near { (a : Arc) → slice_get arcs.now arc ≡ Some a →
        IfSome result (λ shift. AreFirstShifts
        (setting screened.now.boxes arcs.now base.now point.now signals 0) pair a.sat shift) }
    ensures size { IfSome result (λ shift. All (IsBelow (2 ^ 39)) shift) }
{
    let from = RowSource {
        screened,
        base_pseudoranges: &[],
        arcs,
        base,
        point,
        sights: &[],
        signals,
    };
    shift_with(&from, arc, pair)
}
