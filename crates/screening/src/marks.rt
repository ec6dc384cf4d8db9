//! What epochs say of power and of lock.
ghost use Rattle.std.specs.Prelude.{◌≡◌, ◌<◌, ℕ, false, All};
ghost use Rattle.std.specs.List.{list_any};
ghost use Rattle.obs_rows.specs.declared.units.TheConstants.{SIGNALS};
ghost use Rattle.screening.specs.declared.amounts.SignalTypes.{SignalTypes};
ghost use Rattle.screening.specs.Marks.{is_lost, is_phase_lost, lost_at, lost_lock};

use crate::amounts::{SignalTypes, value_of};
use obs_rows::{WAVELENGTHS, fine_signals};
use obs_store::{Epoch, SatView, Value};

/// Whether an epoch says that power failed.
pub fn power_failed(epochs: &[Epoch]) -> bool
    ensures { result ≡ list_any (λ e. e.power) epochs.now }
{
    epochs.iter().any(|epoch| epoch.power)
}

// Bit 0 of the loss-of-lock digit.
fn is_lost(value: Option<Value>) -> bool
    ensures { result ≡ is_lost value }
{
    match value {
        Some(value) => value.lock % 2 == 1,
        None => false,
    }
}

fn is_phase_lost(types: &SignalTypes, sat: &SatView<'_>, signal: usize) -> bool
    requires { signal < SIGNALS }
    ensures { result ≡ is_phase_lost types.now sat.now signal }
{
    WAVELENGTHS[signal] > 0 && is_lost(value_of(types, sat, signal))
}

fn is_any_lost(ss: &[usize], types: &SignalTypes, sat: &SatView<'_>) -> bool
    requires { All (λ s. s < SIGNALS) ss.now }
    ensures { result ≡ list_any (is_phase_lost types.now sat.now) ss.now }
{
    ss.iter().any(|s| is_phase_lost(types, sat, *s))
}

fn lost_at(types: &SignalTypes, number: u8, epoch: &Epoch) -> bool
    ensures { result ≡ lost_at types.now number epoch.now }
{
    match epoch.sats.view(number) {
        Some(sat) => is_any_lost(fine_signals(types.signals), types, &sat),
        None => false,
    }
}

/// Whether a phase of the satellite lost lock in one of the epochs.
pub fn lost_in(types: &SignalTypes, number: u8, epochs: &[Epoch]) -> bool
    ensures { result ≡ list_any (lost_at types.now number) epochs.now }
{
    epochs.iter().any(|epoch| lost_at(types, number, epoch))
}

// Whether one of these epochs may say that lock was lost, of whatever satellite. That is asked of one epoch alone, as there mostly is.
fn may_be_lost(epochs: &[Epoch]) -> bool
    ensures { result ≡ false → (types : SignalTypes) (number : ℕ) →
        list_any (lost_at types number) epochs.now ≡ false }
{
    match epochs {
        [only] => only.sats.may_be_lost(),
        _ => true,
    }
}

/// The same of the epochs of both files up to a pair. Where it isn't so, the satellites need not be looked at one by one.
pub fn may_lose(base: &[Epoch], rover: &[Epoch]) -> bool
    ensures { result ≡ false → (types : SignalTypes) (number : ℕ) →
        lost_lock types number (record { base = base.now; rover = rover.now }) ≡ false }
{
    may_be_lost(base) || may_be_lost(rover)
}
