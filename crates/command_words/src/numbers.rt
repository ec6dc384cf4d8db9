//! Numbers, systems and satellites as words.
ghost use Rattle.std.specs.Prelude.{◌≡◌, ℕ, ◌≤◌, true, length, MatchOption};
ghost use Rattle.decimal_text.specs.Whole.{are_digits, number_from};
ghost use Rattle.command_words.specs.Numbers.{IsNumber, IsLetter, IsSatellite};
ghost use Rattle.command_words.specs.Settings.{IsValue};

use crate::settings::Setting;
use decimal_text::{all_digits, is_digit_byte};
use obs_rows::is_system;
use rinex_head::System;

/// A satellite by the letter of its system and its number.
#[derive(Clone, Copy, Debug)]
pub struct Satellite {
    pub system: u8,
    pub number: u8,
}

// What 1 to 18 digits stand for.
fn value_of(digits: &[u8]) -> u64
    requires digits { are_digits digits.now ≡ true }
    requires few { length digits.now ≤ 18 }
    ensures { result ≡ number_from 0 digits.now }
{
    let mut n: u64 = 0;
    let mut rest = digits;
    while let [b, after @ ..] = rest {
        n = 10 * n + (*b - b'0') as u64;
        rest = after;
    }
    n
}

/// The number that a word of 1 to 18 digits stands for.
pub fn number_of(word: &[u8]) -> Option<u64>
    ensures { MatchOption result ((n : ℕ) → IsNumber word.now n → ⊥) (λ n. IsNumber word.now n) }
{
    if word.is_empty() || word.len() > 18 || !all_digits(word) {
        return None;
    }
    Some(value_of(word))
}

// The letter of a system that stands alone.
fn letter_of(word: &[u8]) -> Option<u64>
    ensures { MatchOption result ((n : ℕ) → IsLetter word.now n → ⊥) (λ n. IsLetter word.now n) }
{
    match word {
        [letter] if is_system(*letter) => Some(*letter as u64),
        _ => None,
    }
}

/// What a word sets the setting to: a system by its letter, and each other by a number.
pub fn value_of_setting(setting: Setting, word: &[u8]) -> Option<u64>
    ensures { MatchOption result ((n : ℕ) → IsValue setting word.now n →
        ⊥) (λ n. IsValue setting word.now n) }
{
    match setting {
        Setting::System => letter_of(word),
        Setting::Ratio
        | Setting::Budget
        | Setting::Mask
        | Setting::Gap
        | Setting::Jump
        | Setting::Arc
        | Setting::Step
        | Setting::First
        | Setting::Count
        | Setting::Bands => number_of(word),
    }
}

/// The satellite that a word names.
pub fn satellite_of(word: &[u8]) -> Option<Satellite>
    ensures { MatchOption result ((system n : ℕ) → IsSatellite word.now system n →
        ⊥) (λ s. IsSatellite word.now s.system s.number) }
{
    let [letter, tens, ones] = word else {
        return None;
    };
    if !is_system(*letter) || !is_digit_byte(*tens) || !is_digit_byte(*ones) {
        return None;
    }
    let number = 10 * (*tens - b'0') + (*ones - b'0');
    let last = System::of_letter(*letter).last_number();
    if 1 <= number && number <= last {
        Some(Satellite {
            system: *letter,
            number,
        })
    } else {
        None
    }
}
