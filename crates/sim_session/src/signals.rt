//! What is observed of a satellite, and which of it a file has.
ghost use Rattle.std.specs.Prelude.{◌≡◌};
ghost use Rattle.sim_session.specs.Tracked.{system_letter};

/// A satellite's observations at one epoch: the code of all frequencies in mm, and the phases on L1, L2 and L5 in thousandths of a
/// cycle.
#[derive(Clone, Copy, Debug, PartialEq, Eq)]
pub struct Signals {
    pub code: i64,
    pub l1: i64,
    pub l2: i64,
    pub l5: i64,
}

/// What a receiver tracks: the satellite system, and the bands on which its file has code and phase.
#[derive(Clone, Copy, Debug, PartialEq, Eq)]
pub enum Tracking {
    GpsL1L2,
    GpsL1L2L5,
    /// E1 and E5a have the frequencies of L1 and L5.
    GalileoE1E5a,
}

impl Tracking {
    /// The letter of the satellite system (RINEX 3, satellite system identifier).
    pub fn letter(self) -> u8
        ensures { result ≡ system_letter self }
    {
        match self {
            Tracking::GpsL1L2 | Tracking::GpsL1L2L5 => b'G',
            Tracking::GalileoE1E5a => b'E',
        }
    }
}
