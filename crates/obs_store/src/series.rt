//! The epochs of a file.
ghost use Rattle.std.specs.Prelude.{◌≡◌, ◌<◌, [], ◌∷◌, ◌++◌, length, slice_index, IfSome, OnOk, OnErr};
ghost use Rattle.obs_store.specs.Epochs.{AreEpochs, tags_of, last_tag_of};

use crate::Satellites;
use gps_time::Tick;
use std::alloc::{AllocError, Global};
use std::marker::Model;

/// An epoch and its satellites.
#[derive(Debug, Drop)]
pub struct Epoch {
    /// The receiver's time.
    pub tag: Tick,
    /// Whether power failed since the epoch before (epoch flag 1).
    pub power: bool,
    pub sats: Satellites,
}

/// The epochs of a file in order: at most 20,000, each tag later than the one before. Contracts see the list of them.
#[derive(Debug, Drop)]
pub struct Epochs {
    items: Vec<Epoch>,
}

impl Model for Epochs {
    ghost use Rattle.std.specs.Prelude.{List};
    ghost use Rattle.obs_store.specs.declared.series.Epoch.{Epoch};
    ghost use Rattle.obs_store.specs.Epochs.{AreEpochs};

    ghost Value = { List Epoch };

    ghost view = { λ s. s.items.items };

    ghost invariant = { λ s. AreEpochs s.items.items };
}

impl Epochs {
    /// How many epochs a file may have.
    pub const MOST: usize = 20_000;

    /// No epochs. It takes no memory.
    pub fn new(alloc: Global) -> Epochs
        ensures { result ≡ [] }
    {
        Epochs {
            items: Vec::new(alloc),
        }
    }

    /// The epochs, in order.
    pub fn as_slice(&self) -> &[Epoch]
        ensures value { result.now ≡ self.now }
        ensures kept { AreEpochs self.now }
    {
        self.items.as_slice()
    }

    /// How many epochs there are.
    pub fn len(&self) -> usize
        ensures value { result ≡ length self.now }
        ensures kept { AreEpochs self.now }
    {
        self.items.len()
    }

    /// The tag of an epoch.
    pub fn tag_at(&self, epoch: usize) -> Tick
        requires { epoch < length self.now }
        ensures { result.0 ≡ slice_index (tags_of self.now) epoch }
    {
        self.items[epoch].tag
    }

    /// The tag of the last epoch.
    pub fn last_tag(&self) -> Option<Tick>
        ensures { result ≡ last_tag_of self.now }
    {
        match self.items.as_slice() {
            [] => None,
            [.., last] => Some(last.tag),
        }
    }

    /// Adds an epoch that is later than the last; after an `Err` the epochs are as before.
    pub fn push(&mut self, epoch: Epoch) -> Result<(), AllocError>
        requires room { length self.old < 20_000 }
        requires later { IfSome (last_tag_of self.old) (λ last. last.0 < epoch.tag.0) }
        ensures added { OnOk result (self.new ≡ self.old ++ epoch ∷ []) }
        ensures unchanged { OnErr result (self.new ≡ self.old) }
    {
        let mut epoch = epoch;
        epoch.sats.shrink();
        // It opens the promise of the satellites, which goes into that of the epochs.
        let _count = epoch.sats.len();
        self.items.push(epoch)?;
        Ok(())
    }
}
