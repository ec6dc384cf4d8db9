//! The satellites of an epoch.
ghost use Rattle.std.specs.Prelude.{◌≡◌, ◌≤◌, ◌<◌, ◌==◌, [], ◌∷◌, ◌++◌, length, false, find, slice_get, slice_index, Some, IfOk, OnOk, OnErr};
ghost use Rattle.obs_store.specs.Satellites.{AreSatellites, has_satellite};
ghost use Rattle.obs_store.specs.Seen.{numbers_of};
ghost use Rattle.obs_store.specs.Locks.{HaveEvenLocks};

use crate::stored::{
    StoredSat, StoredValue, count_of_values, find_sat, has_number, has_odd_lock, sat_at,
};
use crate::{SatObs, SatValues, SatView};
use std::alloc::{AllocError, Global};
use std::marker::Model;

/// The satellites of an epoch in the order of its lines: numbers 1 to 36, each at most once. Contracts see the list of
/// them. A value that is missing takes no memory.
#[derive(Debug, Drop)]
pub struct Satellites {
    sats: Vec<StoredSat>,
    values: Vec<StoredValue>,
}

impl Model for Satellites {
    ghost use Rattle.std.specs.Prelude.{List};
    ghost use Rattle.obs_store.specs.declared.values.SatObs.{SatObs};
    ghost use Rattle.obs_store.specs.Stored.{satellites_in, AreStored};

    ghost Value = { List SatObs };

    ghost view = { λ s. satellites_in s.sats.items s.values.items };

    ghost invariant = { λ s. AreStored s.sats.items s.values.items };
}

impl Satellites {
    /// No satellites. It takes no memory.
    pub fn new(alloc: Global) -> Satellites
        ensures { result ≡ [] }
    {
        Satellites {
            sats: Vec::new(alloc),
            values: Vec::new(alloc),
        }
    }

    /// How many satellites there are.
    #[tactic(auto, using(crate::proofs::StoredLaws::as_many_stored))]
    pub fn len(&self) -> usize
        ensures value { result ≡ length self.now }
        ensures kept { AreSatellites self.now }
    {
        self.sats.len()
    }

    /// The satellite in that place, from 0.
    #[tactic(auto, using(crate::proofs::StoredLaws::as_many_stored))]
    pub fn at(&self, place: usize) -> SatObs
        requires { place < length self.now }
        ensures { slice_get self.now place ≡ Some result }
    {
        sat_at(&self.sats, &self.values, place)
    }

    /// The number of the satellite in that place, from 0.
    #[tactic(auto, using(crate::proofs::StoredLaws::as_many_stored, crate::proofs::StoredLaws::number_stored))]
    pub fn number_at(&self, place: usize) -> u8
        requires { place < length self.now }
        ensures { result ≡ slice_index (numbers_of self.now) place }
    {
        self.sats[place].number
    }

    /// The satellite of that number, if it is there, with its values where they are stored.
    pub fn view(&self, number: u8) -> Option<SatView<'_>>
        ensures { result ≡ find (λ s. s.number == number) self.now }
    {
        find_sat(&self.sats, &self.values, number)
    }

    /// Whether a satellite of this number is there.
    #[tactic(auto, using(crate::proofs::StoredLaws::has_stored))]
    pub fn has(&self, number: u8) -> bool
        ensures { result ≡ has_satellite number self.now }
    {
        has_number(&self.sats, number)
    }

    /// Whether lock may have been lost: where not, no value's digit says so. One look at the stored values serves all satellites.
    #[tactic(auto, using(crate::proofs::LockLaws::none_lost))]
    pub fn may_be_lost(&self) -> bool
        ensures { result ≡ false → HaveEvenLocks self.now }
    {
        has_odd_lock(&self.values)
    }

    /// Adds a satellite that isn't there yet; after an `Err` the satellites are as before.
    pub fn push(&mut self, sat: SatObs) -> Result<(), AllocError>
        requires from_first { 1 ≤ sat.number }
        requires to_last { sat.number ≤ 36 }
        requires once { has_satellite sat.number self.old ≡ false }
        ensures added { OnOk result (self.new ≡ self.old ++ sat ∷ []) }
        ensures unchanged { OnErr result (self.new ≡ self.old) }
    {
        self.add(sat.number, &SatValues::of(&sat.values))
    }

    /// Adds the satellite of this number with these values.
    pub fn add(&mut self, number: u8, values: &SatValues) -> Result<(), AllocError>
        requires from_first { 1 ≤ number }
        requires to_last { number ≤ 36 }
        requires once { has_satellite number self.old ≡ false }
        ensures added { OnOk result
            (self.new ≡ self.old ++ record { number = number; values = values.now } ∷ []) }
        ensures unchanged { OnErr result (self.new ≡ self.old) }
    {
        let stored = values.as_slice();
        let count = count_of_values(stored);
        self.sats.reserve(1)?;
        self.values.extend_from_slice(stored)?;
        self.sats.push_reserved(StoredSat { number, count });
        Ok(())
    }

    /// Removes all satellites. Their memory stays for others.
    pub fn clear(&mut self)
        ensures { self.new ≡ [] }
    {
        self.sats.clear();
        self.values.clear();
    }

    /// The same satellites, in memory of their own and no more than they need.
    pub fn copy(&self, alloc: Global) -> Result<Satellites, AllocError>
        ensures { IfOk result (λ copied. copied ≡ self.now) }
    {
        let sats = Vec::from_slice(alloc, self.sats.as_slice())?;
        let values = Vec::from_slice(alloc, self.values.as_slice())?;
        Ok(Satellites { sats, values })
    }

    /// Gives back the memory that was taken for more satellites than there are.
    pub fn shrink(&mut self)
        ensures { self.new ≡ self.old }
    {
        self.sats.shrink_to_fit();
        self.values.shrink_to_fit();
    }
}
