//! The system and the bands by what is given.
ghost use Rattle.std.specs.Prelude.{ℕ, ◌↔◌, IsTrue, IfSome, MatchOption};
ghost use Rattle.obs_rows.specs.Ranges.{IsSystem};
ghost use Rattle.obs_rows.specs.declared.defaults.TheConstants.{DEFAULT_SYSTEM};
ghost use Rattle.obs_rows.specs.Defaults.{default_bands};
ghost use Rattle.command_words.specs.Settings.{numbers_for, AreBandsOf, IsChosenBy, IsSignalChoice, IsSimChoice};

use crate::settings::{Found, Given, Setting, are_of_sim, numbers_found};
use obs_rows::{BANDS_L1_L5, DEFAULT_SYSTEM, GALILEO, GPS, default_bands, is_bands_number};

/// A satellite system by its letter, and the number of the bands that are used of it.
#[derive(Clone, Copy, Debug)]
pub struct SignalChoice {
    pub system: u8,
    pub bands: u16,
    pub ghost of_system: { IsSystem system },
    pub ghost on_bands: { AreBandsOf system bands },
}

// The system that is given, or the default.
fn system_for(given: &[Given]) -> Option<u8>
    ensures set { MatchOption result ((n : ℕ) →
        IsChosenBy (numbers_for Setting.System given.now) IsSystem DEFAULT_SYSTEM n →
        ⊥) (λ n. IsChosenBy (numbers_for Setting.System given.now) IsSystem DEFAULT_SYSTEM n) }
    ensures system { IfSome result IsSystem }
{
    match numbers_found(given, Setting::System) {
        Found::Nothing => Some(DEFAULT_SYSTEM),
        Found::One(letter) if letter == GPS as u64 => Some(GPS),
        Found::One(letter) if letter == GALILEO as u64 => Some(GALILEO),
        _ => None,
    }
}

fn are_bands_of(system: u8, bands: u16) -> bool
    ensures { IsTrue result ↔ AreBandsOf system bands }
{
    is_bands_number(bands) && (system != GALILEO || bands == BANDS_L1_L5)
}

// The bands that are given and go with the system, or its default.
fn bands_for(given: &[Given], system: u8) -> Option<u16>
    requires { IsSystem system }
    ensures set { MatchOption result ((n : ℕ) → IsChosenBy (numbers_for Setting.Bands
        given.now) (AreBandsOf system) (default_bands system) n → ⊥) (λ n. IsChosenBy
        (numbers_for Setting.Bands given.now) (AreBandsOf system) (default_bands system) n) }
    ensures bands { IfSome result (AreBandsOf system) }
{
    match numbers_found(given, Setting::Bands) {
        Found::Nothing => Some(default_bands(system)),
        Found::One(number) if number < 1000 && are_bands_of(system, number as u16) => {
            Some(number as u16)
        }
        _ => None,
    }
}

/// The system and its bands: the default system where none is given, and its default bands where none are.
pub fn signal_choice_of(given: &[Given]) -> Option<SignalChoice>
    ensures { MatchOption result ((system bands : ℕ) → IsSignalChoice given.now system bands →
        ⊥) (λ c. IsSignalChoice given.now c.system c.bands) }
{
    let system = system_for(given)?;
    let bands = bands_for(given, system)?;
    Some(SignalChoice { system, bands })
}

/// The bands and the system of a simulated session; None where another option is given.
pub fn sim_choice_of(given: &[Given]) -> Option<SignalChoice>
    ensures { MatchOption result ((system bands : ℕ) → IsSimChoice given.now system bands →
        ⊥) (λ c. IsSimChoice given.now c.system c.bands) }
{
    if !are_of_sim(given) {
        return None;
    }
    let choice = signal_choice_of(given)?;
    Some(choice)
}
