//! The numbers of the sets of bands, and the bands of each.
ghost use Rattle.std.specs.Prelude.{◌≡◌, ◌<◌, ◌↔◌, ℕ, All, IsTrue, map, codes};
ghost use Rattle.std.specs.Fmt.{decimal};
ghost use Rattle.obs_rows.specs.declared.units.TheConstants.{PHASES, SIGNALS};
ghost use Rattle.obs_rows.specs.Signals as signals;
ghost use Rattle.obs_rows.specs.declared.band_sets.TheConstants.{BANDS_L1_L2, BANDS_L1_L5, BANDS_L1_L2_L5, BAND_DIGITS};
ghost use Rattle.obs_rows.specs.BandSets.{IsBandsNumber, bands_of, digit_of, phase_of};

use crate::{BANDS_12, BANDS_15, BANDS_125, PHASES};

/// The number of the bands L1 and L2.
pub const BANDS_L1_L2: u16 = 12;

/// The number of the set L1 and L5.
pub const BANDS_L1_L5: u16 = 15;

/// The number of the set of all three bands.
pub const BANDS_L1_L2_L5: u16 = 125;

/// The digit of each band in the name of an observation type (RINEX 3, table of observation codes).
pub const BAND_DIGITS: [u8; PHASES] = [b'1', b'2', b'5'];

/// The phase on each band, by its number among the signals of a row.
pub const PHASE_SIGNALS: [usize; PHASES] = [0, 1, 4];

/// Whether a number is that of a set of bands.
pub fn is_bands_number(number: u16) -> bool
    ensures { IsTrue result ↔ IsBandsNumber number }
{
    number == BANDS_L1_L2 || number == BANDS_L1_L5 || number == BANDS_L1_L2_L5
}

/// The bands of a number, 0 for L1, 1 for L2, 2 for L5, in this order.
pub fn bands_of(number: u16) -> &'static [usize]
    requires number { IsBandsNumber number }
    ensures bands { result.now ≡ bands_of number }
    ensures small { All (λ b. b < PHASES) result.now }
{
    match number {
        BANDS_L1_L5 => &BANDS_15,
        BANDS_L1_L2_L5 => &BANDS_125,
        _ => &BANDS_12,
    }
}

/// The phase on a band, by its number among the signals.
pub fn phase_of(band: usize) -> usize
    requires band { band < PHASES }
    ensures signal { result ≡ phase_of band }
    ensures small { result < SIGNALS }
    ensures phase { IsTrue (signals.is_phase result) }
    ensures band { signals.band result ≡ band }
{
    PHASE_SIGNALS[band]
}

/// What the numbers are, and that each is written with the digits of its bands.
pub fn digits_law()
    ensures l1_l2 { BANDS_L1_L2 ≡ 12 }
    ensures l1_l5 { BANDS_L1_L5 ≡ 15 }
    ensures all { BANDS_L1_L2_L5 ≡ 125 }
    ensures digits { BAND_DIGITS ≡ codes "125" }
    ensures numbers { (n : ℕ) → IsBandsNumber n → map digit_of (bands_of n) ≡ decimal n }
{}
