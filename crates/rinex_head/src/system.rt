//! The satellite systems of the files that are read.
ghost use Rattle.std.specs.Prelude.{◌≡◌};
ghost use Rattle.rinex_head.specs.Systems.{letter_of, last_number_of, names_time, none_listed, scaled, bad_version, system_of};

use crate::place::What;

/// A satellite system whose observations or records a reader takes from a file; those of other systems are skipped.
#[derive(Clone, Copy, Debug, PartialEq, Eq)]
pub enum System {
    Gps,
    Galileo,
}

impl System {
    /// The system of that letter (RINEX 3, satellite system identifier); Galileo's is E, and any other stands for GPS.
    pub fn of_letter(letter: u8) -> System
        ensures { result ≡ system_of letter }
    {
        match letter {
            b'E' => System::Galileo,
            _ => System::Gps,
        }
    }

    /// The letter of the system, which begins the names of its satellites.
    pub fn letter(self) -> u8
        ensures { result ≡ letter_of self }
    {
        match self {
            System::Gps => b'G',
            System::Galileo => b'E',
        }
    }

    /// The highest number of a satellite, from 1 on.
    pub fn last_number(self) -> u8
        ensures { result ≡ last_number_of self }
    {
        match self {
            System::Gps => 32,
            System::Galileo => 36,
        }
    }

    /// Whether three columns name a time system in which its observations may be given; blank stands for the system's own.
    pub fn names_time(self, name: &[u8]) -> bool
        ensures { result ≡ names_time self name.now }
    {
        let own = match self {
            System::Gps => b"GPS".as_slice(),
            System::Galileo => b"GAL".as_slice(),
        };
        name == own || name == b"GPS".as_slice() || name == b"   ".as_slice()
    }

    /// Why a header without a list of the system's types is refused.
    pub fn none_listed(self) -> What
        ensures { result ≡ none_listed self }
    {
        match self {
            System::Gps => What::NoGps,
            System::Galileo => What::NoGal,
        }
    }

    /// Why a header with a scale factor of the system is refused.
    pub fn scaled(self) -> What
        ensures { result ≡ scaled self }
    {
        match self {
            System::Gps => What::Scale,
            System::Galileo => What::GalScale,
        }
    }

    /// Why an observation file of another version is refused where files of RINEX 2 are read too: those of GPS.
    pub fn bad_version(self) -> What
        ensures { result ≡ bad_version self }
    {
        match self {
            System::Gps => What::ObsVersion,
            System::Galileo => What::Version,
        }
    }
}
