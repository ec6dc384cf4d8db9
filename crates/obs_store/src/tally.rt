//! Which satellites a file has.
ghost use Rattle.std.specs.Prelude.{◌≡◌, ◌+◌, ◌<◌, ◌≤◌, [], length, take, slice_index, slice_set, nat_eq, All, IfOk, OnOk};
ghost use Rattle.std.specs.List.{IsDistinct};
ghost use Rattle.obs_store.specs.Counts.{with_number, numbered, IsCountOf};
ghost use Rattle.obs_store.specs.Epochs.{AreEpochs};
ghost use Rattle.obs_store.specs.Seen.{seen_in};

use crate::{Epoch, ObsFile};
use indexmap::IndexMap;
use std::alloc::{AllocError, Global};

// numbers of satellites are 1 to 36, and a number is the place of its count
const COUNTS: usize = 37;

impl ObsFile {
    /// Each satellite with the number of epochs that have it, in the order in which the satellites are seen first.
    pub fn seen(&self, alloc: Global) -> Result<IndexMap<u8, u32>, AllocError>
        ensures { IfOk result (λ seen. seen.entries ≡ seen_in self.now.epochs) }
    {
        let epochs = self.epochs.as_slice();
        let mut tally = Tally::new(alloc);
        for at in 0..epochs.len() {
            tally.add_epoch(epochs, at)?;
        }
        tally.entries(alloc)
    }
}

// The satellites of some epochs, counted.
#[derive(Drop)]
struct Tally {
    /// Their numbers in the order in which they are seen first.
    order: Vec<u8>,
    /// How many of the epochs have the satellite of each number.
    counts: [u32; COUNTS],
}

impl Tally {
    // Of no epochs.
    fn new(alloc: Global) -> Tally
        ensures { IsCountOf [] result.order.items result.counts }
    {
        Tally {
            order: Vec::new(alloc),
            counts: [0; COUNTS],
        }
    }

    // Counts one more epoch that has the satellite.
    fn add(&mut self, number: u8) -> Result<(), AllocError>
        requires inside { number ≤ 36 }
        requires few { slice_index self.old.counts number ≤ 20_000 }
        ensures order { OnOk result (self.new.order.items
            ≡ with_number (slice_index self.old.counts number) number self.old.order.items) }
        ensures counts { OnOk result (self.new.counts
            ≡ slice_set self.old.counts number (slice_index self.old.counts number + 1)) }
    {
        let before = self.counts[number as usize];
        if before == 0 {
            self.order.push(number)?;
        }
        self.counts[number as usize] = before + 1;
        Ok(())
    }

    // Counts the satellites of one more epoch.
    fn add_epoch(&mut self, epochs: &[Epoch], at: usize) -> Result<(), AllocError>
        requires kept { AreEpochs epochs.now }
        requires inside { at < length epochs.now }
        requires before { IsCountOf (take at epochs.now) self.old.order.items self.old.counts }
        ensures { OnOk result
            (IsCountOf (take (at + 1) epochs.now) self.new.order.items self.new.counts) }
    {
        let sats = &epochs[at].sats;
        for place in 0..sats.len() {
            self.add(sats.number_at(place))?;
        }
        Ok(())
    }

    // The numbers in their order, each with its count.
    fn entries(&self, alloc: Global) -> Result<IndexMap<u8, u32>, AllocError>
        requires inside { All (λ n. n ≤ 36) self.now.order.items }
        requires once { IsDistinct nat_eq self.now.order.items }
        ensures { IfOk result (λ seen.
            seen.entries ≡ numbered self.now.counts self.now.order.items) }
    {
        let mut seen = IndexMap::new(alloc);
        for place in 0..self.order.len() {
            let number = self.order[place];
            seen.insert(number, self.counts[number as usize])?;
        }
        Ok(seen)
    }
}
