//! What is kept of a satellite in an epoch.
ghost use Rattle.std.specs.Prelude.{◌≡◌};
ghost use Rattle.obs_store.specs.Missing.{missing_values};

use crate::SLOTS;

/// A value and its loss-of-lock digit (RINEX 3, observation record).
#[derive(Clone, Copy, Debug, PartialEq, Eq)]
pub struct Value {
    /// Thousandths of a metre or of a cycle.
    pub amount: i64,
    /// The loss-of-lock digit, 0 where it is blank.
    pub lock: u8,
}

/// The kept values of a satellite in an epoch.
#[derive(Clone, Copy, Debug, PartialEq, Eq)]
pub struct SatObs {
    /// The satellite's number.
    pub number: u8,
    /// The value of each kept type at the type's slot; `None` where it is missing.
    pub values: [Option<Value>; SLOTS],
}

impl SatObs {
    /// The satellite, with all values missing.
    pub fn missing(number: u8) -> SatObs
        ensures number { result.number ≡ number }
        ensures values { result.values ≡ missing_values }
    {
        SatObs {
            number,
            values: [None; SLOTS],
        }
    }
}
