//! Which tracking code of each band both receivers observe.
ghost use Rattle.std.specs.Prelude.{◌≡◌, ◌<◌, ℕ, true, None, All, MatchOption};
ghost use Rattle.obs_rows.specs.declared.units.TheConstants.{PHASES};
ghost use Rattle.obs_rows.specs.BandSets.{IsBandsNumber, bands_of, digit_of};
ghost use Rattle.epoch_pair.specs.Signals.{is_listed, is_common, common_letter, letters_on, letter_on, is_among, IsLetterFor, AreLettersOf, LacksLetter, IsKeptLetter};

use obs_rows::{BAND_DIGITS, L1_LETTERS, L2_LETTERS, L5_LETTERS, Signals, bands_of};
use obs_store::{ObsFile, ObsType};

// Whether the header lists the type of this kind (`C` a code, `L` a phase), digit and letter.
fn lists(file: &ObsFile, kind: u8, digit: u8, letter: u8) -> bool
    ensures { result ≡ is_listed file.now.listed kind digit letter }
{
    match ObsType::named(&[kind, digit, letter]) {
        Some(kept) => file.listed[kept.slot()],
        None => false,
    }
}

// Whether both headers list code and phase of the letter.
fn is_shared(base: &ObsFile, rover: &ObsFile, digit: u8, letter: u8) -> bool
    ensures { result ≡ is_common base.now.listed rover.now.listed digit letter }
{
    lists(base, b'C', digit, letter)
        && lists(base, b'L', digit, letter)
        && lists(rover, b'C', digit, letter)
        && lists(rover, b'L', digit, letter)
}

fn first_shared(base: &ObsFile, rover: &ObsFile, digit: u8, letters: &[u8]) -> Option<u8>
    ensures { result ≡ common_letter base.now.listed rover.now.listed digit letters.now }
{
    letters
        .iter()
        .copied()
        .find(|&letter| is_shared(base, rover, digit, letter))
}

fn letters_on(band: usize) -> &'static [u8]
    ensures { result.now ≡ letters_on band }
{
    match band {
        0 => &L1_LETTERS,
        1 => &L2_LETTERS,
        _ => &L5_LETTERS,
    }
}

fn is_among(bands: &[usize], band: usize) -> bool
    ensures { result ≡ is_among bands.now band }
{
    bands.iter().any(|b| *b == band)
}

// The letter of a band, and 0 for one that isn't among those of the number. `None` where it is among them and has no letter.
fn letter_for(base: &ObsFile, rover: &ObsFile, bands: u16, band: usize) -> Option<u8>
    requires bands { IsBandsNumber bands }
    requires band { band < PHASES }
    ensures { MatchOption result ((is_among (bands_of bands) band ≡ true)
        × (letter_on base.now.listed rover.now.listed band ≡ None)) (λ letter. IsLetterFor
        (is_among (bands_of bands) band) (letter_on base.now.listed rover.now.listed band) letter) }
{
    if !is_among(bands_of(bands), band) {
        return Some(0);
    }
    first_shared(base, rover, BAND_DIGITS[band], letters_on(band))
}

/// On each of the bands of this number the first letter, in the order of `L1_LETTERS`, `L2_LETTERS` and `L5_LETTERS`, for
/// which both headers list the code and its phase (RINEX 3, observation codes), and 0 on any other band. `None` where one
/// of the bands has no such letter.
pub fn signals(base: &ObsFile, rover: &ObsFile, bands: u16) -> Option<Signals>
    requires { IsBandsNumber bands }
    ensures { MatchOption result
        (LacksLetter (bands_of bands) base.now.listed rover.now.listed)
        (AreLettersOf (bands_of bands) base.now.listed rover.now.listed) }
{
    let l1 = letter_for(base, rover, bands, 0)?;
    let l2 = letter_for(base, rover, bands, 1)?;
    let l5 = letter_for(base, rover, bands, 2)?;
    Some(Signals { l1, l2, l5 })
}

/// Each letter that is tried on a band names a code and a phase that are kept, so none of them is passed over unread.
pub fn kept_letters_law()
    ensures { (band : ℕ) → band < PHASES → All (IsKeptLetter (digit_of band)) (letters_on band) }
{}
