//! What a receiver observed of a satellite, and whether it may be used.
ghost use Rattle.std.specs.Prelude.{◌≡◌, ◌^◌, ◌<◌, ◌≤ℤ◌, pos, Some, is_some, IfSome, All};
ghost use Rattle.obs_rows.specs.declared.units.TheConstants.{SIGNALS};
ghost use Rattle.obs_rows.specs.Signals.{fine_signals};
ghost use Rattle.screening.specs.Sightings.{code_of};
ghost use Rattle.screening.specs.Amounts.{types_of, value_in, value_of, is_usable_phase, is_usable_code, is_usable, usable_amount, amount_in, amounts_in, are_usable, amounts_of, amounts_at, AreUsable};

use obs_rows::{BAND_DIGITS, SIGNALS, Signals, WAVELENGTHS, fine_signals};
use obs_store::{Epoch, ObsType, SatView, Value};

/// The letters of the bands and the observation type of each signal.
#[derive(Clone, Copy, Debug)]
pub struct SignalTypes {
    pub signals: Signals,
    pub kinds: [Option<ObsType>; SIGNALS],
}

/// The types of these signals.
pub fn types_of(signals: Signals) -> SignalTypes
    ensures { result ≡ types_of signals }
{
    let [l1, l2, l5] = BAND_DIGITS;
    SignalTypes {
        signals,
        kinds: [
            ObsType::named(&[b'L', l1, signals.l1]),
            ObsType::named(&[b'L', l2, signals.l2]),
            ObsType::named(&[b'C', l1, signals.l1]),
            ObsType::named(&[b'C', l2, signals.l2]),
            ObsType::named(&[b'L', l5, signals.l5]),
            ObsType::named(&[b'C', l5, signals.l5]),
        ],
    }
}

/// The satellite's value of that type.
pub fn value_in(sat: &SatView<'_>, kind: Option<ObsType>) -> Option<Value>
    ensures { result ≡ value_in sat.now kind }
{
    match kind {
        Some(kind) => sat.value(kind),
        None => None,
    }
}

/// Its value of that signal.
pub fn value_of(types: &SignalTypes, sat: &SatView<'_>, signal: usize) -> Option<Value>
    requires { signal < SIGNALS }
    ensures { result ≡ value_of types.now sat.now signal }
{
    value_in(sat, types.kinds[signal])
}

// Half a cycle may be missing where bit 1 of the loss-of-lock digit is set.
fn is_usable_phase(value: Value) -> bool
    ensures { result ≡ is_usable_phase value }
{
    value.lock / 2 % 2 != 1 && value.amount.unsigned_abs() <= 100_000_000_000_000
}

fn is_usable_code(value: Value) -> bool
    ensures { result ≡ is_usable_code value }
{
    10_000_000_000 <= value.amount && value.amount <= 100_000_000_000
}

fn is_usable(signal: usize, value: Value) -> bool
    requires { signal < SIGNALS }
    ensures { result ≡ is_usable signal value }
{
    if WAVELENGTHS[signal] > 0 {
        is_usable_phase(value)
    } else {
        is_usable_code(value)
    }
}

fn usable(types: &SignalTypes, sat: &SatView<'_>, signal: usize) -> Option<i64>
    requires { signal < SIGNALS }
    ensures { result ≡ usable_amount types.now sat.now signal }
{
    match value_of(types, sat, signal) {
        Some(value) if is_usable(signal, value) => Some(value.amount),
        _ => None,
    }
}

// 0 where the signal has no amount that may be used.
fn amount_in(types: &SignalTypes, sat: &SatView<'_>, signal: usize) -> i64
    requires { signal < SIGNALS }
    ensures { result ≡ amount_in types.now sat.now signal }
{
    match usable(types, sat, signal) {
        Some(amount) => amount,
        None => 0,
    }
}

// Of all signals.
fn amounts_in(types: &SignalTypes, sat: &SatView<'_>) -> [i64; SIGNALS]
    ensures { result ≡ amounts_in types.now sat.now }
{
    let mut amounts = [0; SIGNALS];
    for signal in 0..SIGNALS {
        amounts[signal] = amount_in(types, sat, signal);
    }
    amounts
}

// Whether the signal has an amount that may be used. One that isn't 0 has, so the value is seldom asked for again.
fn is_used(amounts: &[i64; SIGNALS], types: &SignalTypes, sat: &SatView<'_>, signal: usize) -> bool
    requires signal { signal < SIGNALS }
    requires amounts { amounts.now ≡ amounts_in types.now sat.now }
    ensures { result ≡ is_some (usable_amount types.now sat.now signal) }
{
    let amount = amounts[signal];
    if amount != 0 {
        return true;
    }
    usable(types, sat, signal).is_some()
}

fn are_usable(
    ss: &[usize],
    amounts: &[i64; SIGNALS],
    types: &SignalTypes,
    sat: &SatView<'_>,
) -> bool
    requires small { All (λ s. s < SIGNALS) ss.now }
    requires amounts { amounts.now ≡ amounts_in types.now sat.now }
    ensures { result ≡ are_usable ss.now types.now sat.now }
{
    ss.iter().all(|s| is_used(amounts, types, sat, *s))
}

fn amounts_of(types: &SignalTypes, sat: &SatView<'_>) -> Option<[i64; SIGNALS]>
    ensures value { result ≡ amounts_of types.now (Some sat.now) }
    ensures usable { IfSome result (AreUsable (fine_signals types.now.signals)) }
    ensures code_from { IfSome result (λ a. pos (10 ^ 10) ≤ℤ code_of a) }
    ensures code_to { IfSome result (λ a. code_of a ≤ℤ pos (10 ^ 11)) }
{
    let amounts = amounts_in(types, sat);
    if !are_usable(fine_signals(types.signals), &amounts, types, sat) {
        return None;
    }
    Some(amounts)
}

/// What an epoch says of a satellite, where all of it may be used on the bands that are used.
pub fn amounts_at(types: &SignalTypes, epoch: &Epoch, number: u8) -> Option<[i64; SIGNALS]>
    ensures value { result ≡ amounts_at types.now epoch.now number }
    ensures usable { IfSome result (AreUsable (fine_signals types.now.signals)) }
    ensures code_from { IfSome result (λ a. pos (10 ^ 10) ≤ℤ code_of a) }
    ensures code_to { IfSome result (λ a. code_of a ≤ℤ pos (10 ^ 11)) }
{
    match epoch.sats.view(number) {
        Some(sat) => amounts_of(types, &sat),
        None => None,
    }
}
