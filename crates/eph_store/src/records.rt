//! The records of a navigation file.
ghost use Rattle.std.specs.Prelude.{◌≡◌, [], ◌∷◌, ◌++◌, OnOk, OnErr};

use crate::{Eph, Raw};
use std::alloc::{AllocError, Global};
use std::marker::Model;

/// The GPS records of a navigation file, and those of them that are usable. Contracts see the two lists.
#[derive(Debug, Drop)]
pub struct NavFile {
    all: Vec<Raw>,
    fit: Vec<Eph>,
}

impl Model for NavFile {
    ghost use Rattle.eph_store.specs.File.{Records};
    ghost use Rattle.eph_store.specs.Records.{AreFit};

    ghost Value = { Records };

    ghost view = { λ f. record { all = f.all.items; fit = f.fit.items } };

    ghost invariant = { λ f. AreFit f.all.items f.fit.items };
}

impl NavFile {
    ghost use Rattle.eph_store.specs.Profile.{IsUsable};
    ghost use Rattle.eph_store.specs.Records.{AreFit, IsEphOf};

    /// No records. It takes no memory.
    pub fn new(alloc: Global) -> NavFile
        ensures all { result.all ≡ [] }
        ensures fit { result.fit ≡ [] }
    {
        NavFile {
            all: Vec::new(alloc),
            fit: Vec::new(alloc),
        }
    }

    /// All records, in the order of the file.
    pub fn all(&self) -> &[Raw]
        ensures { result.now ≡ self.now.all }
    {
        self.all.as_slice()
    }

    /// The usable ones of them, in the same order.
    pub fn fit(&self) -> &[Eph]
        ensures value { result.now ≡ self.now.fit }
        ensures kept { AreFit self.now.all self.now.fit }
    {
        self.fit.as_slice()
    }

    /// Adds a record; after an `Err` the records are as before.
    pub fn push(&mut self, raw: Raw) -> Result<(), AllocError>
        ensures added { OnOk result (self.new.all ≡ self.old.all ++ raw ∷ []) }
        ensures unchanged { OnErr result (self.new ≡ self.old) }
    {
        match Eph::of(&raw) {
            Ok(eph) => self.push_usable(raw, eph),
            Err(_) => {
                self.all.push(raw)?;
                Ok(())
            }
        }
    }

    // Adds a usable record; after an `Err` the records are as before.
    fn push_usable(&mut self, raw: Raw, eph: Eph) -> Result<(), AllocError>
        requires usable { IsUsable raw }
        requires numbers { IsEphOf raw eph }
        ensures added { OnOk result (self.new.all ≡ self.old.all ++ raw ∷ []) }
        ensures unchanged { OnErr result (self.new ≡ self.old) }
    {
        self.all.push(raw)?;
        if let Err(fault) = self.fit.push(eph) {
            let _ = self.all.pop();
            return Err(fault.into());
        }
        Ok(())
    }
}
