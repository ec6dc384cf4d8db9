//! How the satellites of an epoch are stored: the values that are there, and no others.
ghost use Rattle.std.specs.Prelude.{◌≡◌, ◌≢◌, ◌<◌, ◌≤◌, ◌==◌, ◌%◌, length, find, slice_get, slice_index_or, Some, None};
ghost use Rattle.std.specs.Option.{option_map, option_copied};
ghost use Rattle.std.specs.List.{list_any};
ghost use Rattle.obs_store.specs.Kinds.{slot_of, slot_count};
ghost use Rattle.obs_store.specs.Missing.{missing_values};
ghost use Rattle.obs_store.specs.Stored.{value_in, values_with, satellites_in, count_of};

use crate::{ObsType, SLOTS, SatObs, SatView, Value};

/// A satellite, and how many of its values are there.
#[derive(Clone, Copy, Debug)]
pub struct StoredSat {
    pub number: u8,
    pub count: u8,
}

/// A value that is there, in ten bytes: an amount of its own type would be aligned, and take sixteen.
#[derive(Clone, Copy, Debug, Default)]
pub struct StoredValue {
    pub kind: ObsType,
    pub lock: u8,
    /// The amount as it lies in memory, its lowest byte first.
    pub amount: [u8; 8],
}

/// A value of this type, as it is stored.
#[tactic(auto, using(crate::proofs::StoredLaws::amount_stored))]
pub fn stored_value(kind: ObsType, value: Value) -> StoredValue
    ensures kind { result.kind ≡ kind }
    ensures value { value_in result ≡ value }
{
    StoredValue {
        kind,
        lock: value.lock,
        amount: value.amount.to_le_bytes(),
    }
}

/// Whether one of these values is of that type.
pub fn has_kind(stored: &[StoredValue], kind: ObsType) -> bool
    ensures { result ≡ list_any (λ v. slot_of v.kind == slot_of kind) stored.now }
{
    stored.iter().any(|one| one.kind.slot() == kind.slot())
}

/// Whether bit 0 of the loss-of-lock digit of one of these values is set.
pub fn has_odd_lock(stored: &[StoredValue]) -> bool
    ensures { result ≡ list_any (λ v. v.lock % 2 == 1) stored.now }
{
    stored.iter().any(|one| one.lock % 2 == 1)
}

/// How many values a satellite has.
pub fn count_of_values(stored: &[StoredValue]) -> u8
    requires { length stored.now ≤ slot_count }
    ensures { result ≡ length stored.now }
{
    stored.len() as u8
}

// A stored value as it was.
fn value_of(stored: &StoredValue) -> Value
    ensures { result ≡ value_in stored.now }
{
    Value {
        amount: i64::from_le_bytes(stored.amount),
        lock: stored.lock,
    }
}

// Which one stands in a slot where one more value is stored: that one, if it belongs there.
fn later<'a>(
    found: Option<&'a StoredValue>,
    one: &'a StoredValue,
    slot: usize,
) -> Option<&'a StoredValue>
    ensures put { slot_of one.now.kind ≡ slot →
        option_map value_in (option_copied result) ≡ Some (value_in one.now) }
    ensures kept { slot_of one.now.kind ≢ slot → option_map value_in (option_copied result)
        ≡ option_map value_in (option_copied found.entry) }
{
    if one.kind.slot() == slot {
        Some(one)
    } else {
        found
    }
}

/// The value in a slot of a satellite of which these are there: the last of them that belongs there. It alone is read.
pub fn value_at(stored: &[StoredValue], slot: usize) -> Option<Value>
    requires { slot < slot_count }
    ensures { result ≡ slice_index_or (values_with missing_values stored.now) slot None }
{
    let mut found = None;
    for one in stored {
        found = later(found, one, slot);
    }
    match found {
        Some(one) => Some(value_of(one)),
        None => None,
    }
}

/// The values of a satellite of which these are there.
pub fn all_values(stored: &[StoredValue]) -> [Option<Value>; SLOTS]
    ensures { result ≡ values_with missing_values stored.now }
{
    let mut values = [None; SLOTS];
    for one in stored {
        values[one.kind.slot()] = Some(value_of(one));
    }
    values
}

/// Whether one of these has that number.
pub fn has_number(sats: &[StoredSat], number: u8) -> bool
    ensures { result ≡ list_any (λ s. number == s.number) sats.now }
{
    sats.iter().any(|sat| number == sat.number)
}

/// The satellite in that place, from 0, of these whose values are these.
pub fn sat_at(sats: &[StoredSat], values: &[StoredValue], place: usize) -> SatObs
    requires all { count_of sats.now ≡ length values.now }
    requires inside { place < length sats.now }
    ensures { slice_get (satellites_in sats.now values.now) place ≡ Some result }
{
    let mut first = 0;
    for before in 0..place {
        first += sats[before].count as usize;
    }
    SatView::first(sats[place], &values[first..]).whole()
}

/// The satellite of that number among these, if it is there.
pub fn find_sat<'a>(
    sats: &[StoredSat],
    values: &'a [StoredValue],
    number: u8,
) -> Option<SatView<'a>>
    requires { count_of sats.now ≡ length values.now }
    ensures { result ≡ find (λ s. s.number == number) (satellites_in sats.now values.now) }
{
    let mut first = 0;
    for place in 0..sats.len() {
        let sat = sats[place];
        if sat.number == number {
            return Some(SatView::first(sat, &values[first..]));
        }
        first += sat.count as usize;
    }
    None
}
