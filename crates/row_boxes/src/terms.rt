//! The row of one satellite in one pair.
ghost use Rattle.std.specs.Prelude.{◌≡◌, ◌⊎◌, ◌-◌, ◌^◌, ◌<◌, ◌≤◌, None, All, pos, ◌+ℤ◌, ◌*ℤ◌, ◌≤ℤ◌, unsigned_abs, IfSome};
ghost use Rattle.row_boxes.specs.Directions.{HasDirection};
ghost use Rattle.obs_rows.specs.declared.units.TheConstants.{SIGNALS};
ghost use Rattle.obs_rows.specs.Ranges.{IsScale, IsWithin, IsBelow};
ghost use Rattle.obs_rows.specs.Data.{number_at};
ghost use Rattle.obs_rows.specs.Signals.{wavelength, band};
ghost use Rattle.obs_rows.specs.Unused.{IsZeroOff};
ghost use Rattle.row_boxes.specs.YBoxes.{Pairing, HoldsBoth, HasSightings, HoldsY, HoldsYs, HasFarSignal, most_radius};

use crate::prefits::prefit_of;
use crate::y_boxes::{YBox, y_box};
use crate::{Pseudorange, Sight};
use obs_rows::{BANDS, PHASES, Row, SIGNALS, WAVELENGTHS};
use signal_travel::Spread;

// The shift of the signal's band
fn shift_on(signal: usize, shift: &[i64; PHASES]) -> i64
    requires signal { signal < SIGNALS }
    requires shift { All (IsBelow (2 ^ 40)) shift.now }
    ensures value { result ≡ number_at shift.now (band signal) }
    ensures size { unsigned_abs result < 2 ^ 40 }
{
    shift[BANDS[signal]]
}

// λ times a number of cycles. A code has none: its λ is 0
fn cycles_of(signal: usize, cycles: i64) -> i64
    requires signal { signal < SIGNALS }
    requires cycles { unsigned_abs cycles < 2 ^ 40 }
    ensures value { result ≡ wavelength signal *ℤ cycles }
    ensures size { unsigned_abs result ≤ 2 ^ 51 - 2 ^ 43 }
{
    WAVELENGTHS[signal] * cycles
}

// group + λ · shift of the band
fn whole_of(signal: usize, group: i64, shift: &[i64; PHASES]) -> i64
    requires signal { signal < SIGNALS }
    requires group { unsigned_abs group ≤ 2 ^ 43 }
    requires shift { All (IsBelow (2 ^ 40)) shift.now }
    ensures value { result ≡ group +ℤ (wavelength signal *ℤ number_at shift.now (band signal)) }
    ensures size { unsigned_abs result ≤ 2 ^ 51 }
{
    group + cycles_of(signal, shift_on(signal, shift))
}

// The y box of one signal
fn y_of_signal(
    signal: usize,
    amounts: &[i64; SIGNALS],
    group: i64,
    shift: &[i64; PHASES],
    base: &Pseudorange,
    rover: &Pseudorange,
    scale: u32,
) -> YBox
    requires signal { signal < SIGNALS }
    requires amounts { All (IsBelow (2 ^ 48)) amounts.now }
    requires group { unsigned_abs group ≤ 2 ^ 43 }
    requires shift { All (IsBelow (2 ^ 40)) shift.now }
    requires scale { IsScale scale }
    ensures holds { (p : Pairing) → HoldsBoth p base.now rover.now →
        HoldsY p scale signal (number_at amounts.now signal) group
        (number_at shift.now (band signal)) result.centre result.radius }
    ensures radius { result.radius ≤ℤ most_radius scale }
{
    let prefit = prefit_of(signal, amounts[signal], base, rover);
    y_box(&prefit, whole_of(signal, group, shift), scale)
}

// The greater of two radii
fn wider(a: i64, b: i64) -> i64
    ensures first { a ≤ℤ result }
    ensures second { b ≤ℤ result }
    ensures one { (result ≡ a) ⊎ (result ≡ b) }
{
    if a < b { b } else { a }
}

// The row of an arc with these y boxes and the direction to its satellite
fn row_over(arc: u16, y: [i64; SIGNALS], ry: i64, direction: &[Spread; 3]) -> Row
    requires y_in { All (IsWithin (2 ^ 34)) y }
    requires ry_least { pos 0 ≤ℤ ry }
    requires ry_most { ry ≤ℤ most_radius 0 }
    ensures arc { result.arc ≡ arc }
    ensures y { result.y ≡ y }
    ensures ry { result.ry ≡ ry }
    ensures direction { HasDirection direction.now result.u result.ru }
    ensures narrow { All (λ n. n ≤ℤ pos 32) result.ru }
{
    let [first, second, third] = *direction;
    Row {
        arc,
        y,
        ry,
        u: [first.centre, second.centre, third.centre],
        ru: [first.radius, second.radius, third.radius],
    }
}

/// The row of an arc in a pair, from the rover's amounts of its satellite less the base's, from what the two receivers would observe if
/// their clocks were right, and from the rover's direction to it. Its observations are those of the signals that count, and 0 for the
/// others.
///
/// It is refused only where one of them is too far.
pub fn observed_row(
    ss: &[usize],
    arc: u16,
    amounts: &[i64; SIGNALS],
    group: i64,
    shift: &[i64; PHASES],
    base: &Pseudorange,
    rover: &Sight,
    scale: u32,
) -> Option<Row>
    requires small { All (λ s. s < SIGNALS) ss.now }
    requires amounts { All (IsBelow (2 ^ 48)) amounts.now }
    requires group { unsigned_abs group ≤ 2 ^ 43 }
    requires shift { All (IsBelow (2 ^ 40)) shift.now }
    requires scale { IsScale scale }
    ensures arc { IfSome result (λ r. r.arc ≡ arc) }
    ensures holds { IfSome result (λ r. (p : Pairing) →
        HoldsBoth p base.now rover.now.pseudorange →
        HoldsYs p ss.now scale amounts.now group shift.now r.y r.ry) }
    ensures radius { IfSome result (λ r. r.ry ≤ℤ most_radius scale) }
    ensures others { IfSome result (λ r. IsZeroOff ss.now r.y) }
    ensures direction { IfSome result (λ r. HasDirection rover.now.direction r.u r.ru) }
    ensures narrow { IfSome result (λ r. All (λ n. n ≤ℤ pos 32) r.ru) }
    ensures far { result ≡ None → (p : Pairing) → HoldsBoth p base.now rover.now.pseudorange →
        HasSightings p → HasFarSignal p ss.now scale amounts.now group shift.now }
{
    let mut y = [0; SIGNALS];
    let mut ry = 0;
    for signal in ss {
        let more = y_of_signal(
            *signal,
            amounts,
            group,
            shift,
            base,
            &rover.pseudorange,
            scale,
        );
        let centre = more.near_centre()?;
        y[*signal] = centre;
        ry = wider(ry, more.radius);
    }
    Some(row_over(arc, y, ry, &rover.direction))
}
