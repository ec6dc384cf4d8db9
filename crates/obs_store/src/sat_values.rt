//! The values of a satellite that are read one after another.
ghost use Rattle.std.specs.Prelude.{◌≡◌, ◌≤◌, length, slice_set};
ghost use Rattle.obs_store.specs.Kinds.{slot_of, slot_count};
ghost use Rattle.obs_store.specs.Missing.{missing_values};
ghost use Rattle.obs_store.specs.Stored.{values_with};

use crate::stored::{StoredValue, all_values, has_kind, stored_value};
use crate::{ObsType, SLOTS, Value};
use arrayvec::ArrayVec;
use std::marker::Model;

/// The values of a satellite that are there, as they will be stored: those that are missing take no time. Contracts see the value
/// of each slot.
#[derive(Drop)]
pub struct SatValues {
    stored: ArrayVec<StoredValue, SLOTS>,
}

impl Model for SatValues {
    ghost use Rattle.std.specs.Prelude.{List};
    ghost use Rattle.std.specs.declared.option.Option.{Option};
    ghost use Rattle.obs_store.specs.declared.values.Value.{Value as OneValue};
    ghost use Rattle.obs_store.specs.Missing.{missing_values};
    ghost use Rattle.obs_store.specs.Stored.{values_with};

    ghost Value = { List (Option OneValue) };

    ghost view = { λ s. values_with missing_values s.stored.items };
}

impl SatValues {
    /// All values are missing.
    pub fn missing() -> SatValues
        ensures { result ≡ missing_values }
    {
        SatValues {
            stored: ArrayVec::new(),
        }
    }

    /// These values.
    pub fn of(values: &[Option<Value>; SLOTS]) -> SatValues
        ensures { result ≡ values.now }
    {
        let mut stored: ArrayVec<StoredValue, SLOTS> = ArrayVec::new();
        for slot in 0..SLOTS {
            match values[slot] {
                Some(value) => stored.push(stored_value(ObsType::ALL[slot], value)),
                None => {}
            }
        }
        SatValues { stored }
    }

    /// Sets the value of this type, or that it is missing. A value that is set twice is stored twice, and the later one counts.
    #[tactic(auto, using(crate::proofs::StoredLaws::set_some))]
    pub fn set(&mut self, kind: ObsType, value: Option<Value>)
        ensures { self.new ≡ slice_set self.old (slot_of kind) value }
    {
        match value {
            Some(there) => {
                if self.stored.len() < SLOTS {
                    self.stored.push(stored_value(kind, there));
                    return;
                }
            }
            None => {
                if !has_kind(self.stored.as_slice(), kind) {
                    return;
                }
            }
        }
        self.set_anew(kind, value);
    }

    // All values are stored anew, each once.
    #[inline(never)]
    fn set_anew(&mut self, kind: ObsType, value: Option<Value>)
        ensures { self.new ≡ slice_set self.old (slot_of kind) value }
    {
        let mut values = all_values(self.stored.as_slice());
        values[kind.slot()] = value;
        *self = SatValues::of(&values);
    }

    /// The values that are there.
    pub(crate) fn as_slice(&self) -> &[StoredValue]
        ensures values { values_with missing_values result.now ≡ self.now }
        ensures few { length result.now ≤ slot_count }
    {
        self.stored.as_slice()
    }
}
