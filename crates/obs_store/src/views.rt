//! A satellite of an epoch as it is stored.
ghost use Rattle.std.specs.Prelude.{◌≡◌, ◌≤◌, length, slice_index_or, None};
ghost use Rattle.obs_store.specs.Kinds.{slot_of};
ghost use Rattle.obs_store.specs.Stored.{first_satellite};

use crate::stored::{StoredSat, StoredValue, all_values, value_at};
use crate::{ObsType, SatObs, Value};
use std::marker::Model;

/// A satellite whose values stay where they are stored: its 26 places of values aren't written to read a few of them. Contracts see
/// it as `SatObs`.
#[derive(Debug, Drop)]
pub struct SatView<'a> {
    number: u8,
    values: &'a [StoredValue],
}

impl<'a> Model for SatView<'a> {
    ghost use Rattle.obs_store.specs.declared.values.SatObs.{SatObs};
    ghost use Rattle.obs_store.specs.Missing.{missing_values};
    ghost use Rattle.obs_store.specs.Stored.{values_with};

    ghost Value = { SatObs };

    ghost view = { λ s.
        record { number = s.number; values = values_with missing_values s.values.now } };
}

impl<'a> SatView<'a> {
    /// A satellite whose values stand first among these.
    pub(crate) fn first(sat: StoredSat, values: &'a [StoredValue]) -> SatView<'a>
        requires { sat.count ≤ length values.now }
        ensures { result ≡ first_satellite sat values.now }
    {
        SatView {
            number: sat.number,
            values: &values[..sat.count as usize],
        }
    }

    /// The value of that type, if it is there.
    pub fn value(&self, kind: ObsType) -> Option<Value>
        ensures { result ≡ slice_index_or self.now.values (slot_of kind) None }
    {
        value_at(self.values, kind.slot())
    }

    /// The satellite with the values of all types.
    pub fn whole(&self) -> SatObs
        ensures { result ≡ self.now }
    {
        SatObs {
            number: self.number,
            values: all_values(self.values),
        }
    }
}
