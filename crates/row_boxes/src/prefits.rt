//! Observed less computed.
ghost use Rattle.std.specs.Prelude.{IsTrue, not, ◌≡◌, ◌+◌, ◌*◌, ◌^◌, ◌<◌, ◌≤◌, pos, ◌+ℤ◌, ◌-ℤ◌, ◌*ℤ◌, ◌≤ℤ◌, unsigned_abs};
ghost use Rattle.whole_math.specs.Rounding.{IsFloor, IsCeil};
ghost use Rattle.whole_math.specs.Rational.{Rational, ◌-ʳ◌, InBox};
ghost use Rattle.obs_rows.specs.declared.units.TheConstants.{SIGNALS};
ghost use Rattle.obs_rows.specs.Signals.{wavelength, is_phase};
ghost use Rattle.row_boxes.specs.declared.pseudoranges.TheConstants.{HALF_LIGHT_SPEED};
ghost use Rattle.row_boxes.specs.declared.prefits.TheConstants.{MILLIMETRE_UNITS, L1_CYCLE, L2_CYCLE, L5_CYCLE};
ghost use Rattle.row_boxes.specs.Terms.{prefit_width, iota_exponent};
ghost use Rattle.row_boxes.specs.Sightings.{observed};

use crate::Pseudorange;
use crate::pseudoranges::{HALF_LIGHT_SPEED, over_half_light_speed};
use crate::y_boxes::IOTA_EXPONENT;
use obs_rows::{L1_PHASE, L2_PHASE, L5_PHASE, UNIT_FREQUENCY, WAVELENGTHS};

/// Observed less computed of one signal, the rover's less the base's, in 2^-15 ι, from `lo` to `hi`.
#[derive(Clone, Copy, Debug)]
pub struct Prefit {
    pub lo: i128,
    pub hi: i128,
    pub ghost ordered: { lo ≤ℤ hi },
    pub ghost narrow: { (hi -ℤ lo) ≤ℤ prefit_width },
    pub ghost lo_size: { unsigned_abs lo ≤ 2 ^ 68 },
    pub ghost hi_size: { unsigned_abs hi ≤ 2 ^ 68 },
}

/// The wavelength on L1, in 2^-15 ι.
pub const L1_CYCLE: i128 = (WAVELENGTHS[L1_PHASE] as i128) << IOTA_EXPONENT;

/// The wavelength on L2, in 2^-15 ι.
pub const L2_CYCLE: i128 = (WAVELENGTHS[L2_PHASE] as i128) << IOTA_EXPONENT;

/// The wavelength on L5, in 2^-15 ι.
pub const L5_CYCLE: i128 = (WAVELENGTHS[L5_PHASE] as i128) << IOTA_EXPONENT;

/// One millimetre is `MILLIMETRE_UNITS` / `HALF_LIGHT_SPEED` units of 2^-15 ι.
pub const MILLIMETRE_UNITS: i128 = (UNIT_FREQUENCY as i128 / 2000) << IOTA_EXPONENT;

// 2^40 cycles in thousandths, and HALF_LIGHT_SPEED · 2^21 mm, which make an amount positive
const AMOUNT_OFFSET: i64 = 1000 << 40;

const CODE_OFFSET: i64 = (HALF_LIGHT_SPEED as i64) << 21;

// A box of one number, in 2^-15 ι.
#[derive(Clone, Copy)]
struct ObservedBox {
    lo: i128,
    hi: i128,
    ghost ordered: { lo ≤ℤ hi },
    ghost narrow: { (hi -ℤ lo) ≤ℤ pos 1 },
}

// A box of a whole number
fn whole_box(whole: i128) -> ObservedBox
    ensures low { result.lo ≡ whole }
    ensures high { result.hi ≡ whole }
{
    ObservedBox {
        lo: whole,
        hi: whole,
    }
}

// A box from a whole number to the next
fn step_box(low: i128) -> ObservedBox
    requires { unsigned_abs low ≤ 2 ^ 67 }
    ensures low { result.lo ≡ low }
    ensures high { result.hi ≡ low +ℤ pos 1 }
{
    ObservedBox {
        lo: low,
        hi: low + 1,
    }
}

// ⌊amount · L1_CYCLE / 1000⌋. Here and below the divisor is known when the program is built, which then multiplies in place of
// dividing 128 bits. Each carrier has its own functions: the product with a known number is linear, and proved as it stands.
fn l1_below(amount: i64) -> i128
    requires { unsigned_abs amount < 2 ^ 48 }
    ensures { IsFloor (amount *ℤ L1_CYCLE) 1000 result }
{
    let raised = (amount + AMOUNT_OFFSET) as u64;
    (raised / 1000) as i128 * L1_CYCLE + (raised % 1000 * L1_CYCLE as u64 / 1000) as i128
        - (L1_CYCLE << 40)
}

// amount · L1_CYCLE / 1000
fn l1_box(amount: i64) -> ObservedBox
    requires { unsigned_abs amount < 2 ^ 48 }
    ensures low { IsFloor (amount *ℤ L1_CYCLE) 1000 result.lo }
    ensures high { IsCeil (amount *ℤ L1_CYCLE) 1000 result.hi }
{
    let low = l1_below(amount);
    if low * 1000 == amount as i128 * L1_CYCLE {
        whole_box(low)
    } else {
        step_box(low)
    }
}

// ⌊amount · L2_CYCLE / 1000⌋
fn l2_below(amount: i64) -> i128
    requires { unsigned_abs amount < 2 ^ 48 }
    ensures { IsFloor (amount *ℤ L2_CYCLE) 1000 result }
{
    let raised = (amount + AMOUNT_OFFSET) as u64;
    (raised / 1000) as i128 * L2_CYCLE + (raised % 1000 * L2_CYCLE as u64 / 1000) as i128
        - (L2_CYCLE << 40)
}

// amount · L2_CYCLE / 1000
fn l2_box(amount: i64) -> ObservedBox
    requires { unsigned_abs amount < 2 ^ 48 }
    ensures low { IsFloor (amount *ℤ L2_CYCLE) 1000 result.lo }
    ensures high { IsCeil (amount *ℤ L2_CYCLE) 1000 result.hi }
{
    let low = l2_below(amount);
    if low * 1000 == amount as i128 * L2_CYCLE {
        whole_box(low)
    } else {
        step_box(low)
    }
}

// ⌊amount · L5_CYCLE / 1000⌋
fn l5_below(amount: i64) -> i128
    requires { unsigned_abs amount < 2 ^ 48 }
    ensures { IsFloor (amount *ℤ L5_CYCLE) 1000 result }
{
    let raised = (amount + AMOUNT_OFFSET) as u64;
    (raised / 1000) as i128 * L5_CYCLE + (raised % 1000 * L5_CYCLE as u64 / 1000) as i128
        - (L5_CYCLE << 40)
}

// amount · L5_CYCLE / 1000
fn l5_box(amount: i64) -> ObservedBox
    requires { unsigned_abs amount < 2 ^ 48 }
    ensures low { IsFloor (amount *ℤ L5_CYCLE) 1000 result.lo }
    ensures high { IsCeil (amount *ℤ L5_CYCLE) 1000 result.hi }
{
    let low = l5_below(amount);
    if low * 1000 == amount as i128 * L5_CYCLE {
        whole_box(low)
    } else {
        step_box(low)
    }
}

// ⌊amount · MILLIMETRE_UNITS / HALF_LIGHT_SPEED⌋
fn code_below(amount: i64) -> i128
    requires { unsigned_abs amount < 2 ^ 48 }
    ensures { IsFloor (amount *ℤ MILLIMETRE_UNITS) HALF_LIGHT_SPEED result }
{
    let raised = (amount + CODE_OFFSET) as u64;
    let rest = over_half_light_speed(
        (raised % HALF_LIGHT_SPEED) as u128 * MILLIMETRE_UNITS as u128,
    );
    (raised / HALF_LIGHT_SPEED) as i128 * MILLIMETRE_UNITS + rest as i128 - (MILLIMETRE_UNITS << 21)
}

// amount · MILLIMETRE_UNITS / HALF_LIGHT_SPEED
fn code_box(amount: i64) -> ObservedBox
    requires { unsigned_abs amount < 2 ^ 48 }
    ensures low { IsFloor (amount *ℤ MILLIMETRE_UNITS) HALF_LIGHT_SPEED result.lo }
    ensures high { IsCeil (amount *ℤ MILLIMETRE_UNITS) HALF_LIGHT_SPEED result.hi }
{
    let low = code_below(amount);
    if low * HALF_LIGHT_SPEED as i128 == amount as i128 * MILLIMETRE_UNITS {
        whole_box(low)
    } else {
        step_box(low)
    }
}

// In thousandths of a cycle, or in mm.
fn observed_box(signal: usize, amount: i64) -> ObservedBox
    requires signal { signal < SIGNALS }
    requires size { unsigned_abs amount < 2 ^ 48 }
    ensures holds { InBox iota_exponent result.lo result.hi (observed signal amount) }
    ensures lo_size { unsigned_abs result.lo ≤ 2 ^ 67 }
    ensures hi_size { unsigned_abs result.hi ≤ 2 ^ 67 }
    ensures phase { IsTrue (is_phase signal) →
        1000 * unsigned_abs result.lo ≤ unsigned_abs (wavelength signal) * 2 ^ 63 + 1000 }
    ensures code { IsTrue (not (is_phase signal)) → unsigned_abs amount < 2 ^ 37 →
        unsigned_abs result.lo ≤ 2 ^ 56 }
{
    match signal {
        L1_PHASE => l1_box(amount),
        L2_PHASE => l2_box(amount),
        L5_PHASE => l5_box(amount),
        _ => code_box(amount),
    }
}

// observed - (rover - base)
fn less_computed(observed: i128, rover: i64, base: i64) -> i128
    requires observed { unsigned_abs observed ≤ 2 ^ 67 }
    requires rover { unsigned_abs rover ≤ 2 ^ 55 }
    requires base { unsigned_abs base ≤ 2 ^ 55 }
    ensures { result ≡ observed -ℤ (rover -ℤ base) }
{
    observed - (rover - base) as i128
}

/// From what the two receivers would observe if their clocks were right, and the rover's amount less the base's in thousandths.
pub fn prefit_of(signal: usize, amount: i64, base: &Pseudorange, rover: &Pseudorange) -> Prefit
    requires signal { signal < SIGNALS }
    requires size { unsigned_abs amount < 2 ^ 48 }
    ensures holds { (b r : Rational) → InBox iota_exponent base.now.lo base.now.hi b →
        InBox iota_exponent rover.now.lo rover.now.hi r →
        InBox iota_exponent result.lo result.hi (observed signal amount -ʳ (r -ʳ b)) }
    ensures phase { IsTrue (is_phase signal) →
        1000 * unsigned_abs result.lo ≤ unsigned_abs (wavelength signal) * 2 ^ 63 + 1000 * 2 ^ 57 }
    ensures code { IsTrue (not (is_phase signal)) → unsigned_abs amount < 2 ^ 37 →
        unsigned_abs result.lo ≤ 2 ^ 57 }
{
    let held = observed_box(signal, amount);
    Prefit {
        lo: less_computed(held.lo, rover.hi, base.lo),
        hi: less_computed(held.hi, rover.lo, base.hi),
    }
}
