//! The forms of a certificate's text.
ghost use Rattle.std.specs.Prelude.{◌≡◌, ◌≤◌, ◌<◌};
ghost use Rattle.quadratic_form.specs.declared.sizes.TheConstants.{MOST_FACTORS};
ghost use Rattle.cert_lines.specs.Versions.{form_line, most_sat, groups, last_column};

use crate::ranges::{GROUPS, OLD_GROUPS};
use cert_words::Range;
use quadratic_form::MOST_FACTORS;

/// The form of a text: the first knew neither systems nor the band L5, and had a coarser unit.
#[derive(Clone, Copy, Debug, PartialEq, Eq)]
pub enum Version {
    One,
    Two,
}

impl Version {
    /// The first line of a text.
    pub fn form_line(self) -> &'static [u8]
        ensures { result.now ≡ form_line self }
    {
        match self {
            Version::One => b"baseline-cert 1",
            Version::Two => b"baseline-cert 2",
        }
    }

    /// The greatest number of a satellite.
    pub fn most_sat(self) -> u64
        ensures value { result ≡ most_sat self }
        ensures few { result ≤ 36 }
    {
        match self {
            Version::One => 32,
            Version::Two => 36,
        }
    }

    /// The range of groups.
    pub fn groups(self) -> Range
        ensures { result ≡ groups self }
    {
        match self {
            Version::One => OLD_GROUPS,
            Version::Two => GROUPS,
        }
    }

    /// The greatest number of a column.
    pub fn last_column(self) -> u64
        ensures value { result ≡ last_column self }
        ensures few { result < MOST_FACTORS }
    {
        match self {
            Version::One => 42,
            Version::Two => MOST_FACTORS as u64 - 1,
        }
    }
}
