//! The arcs of all satellites, in one pass over the pairs.
ghost use Rattle.std.specs.Prelude.{◌≡◌, ◌≤◌, length, IfOk, All};
ghost use Rattle.obs_rows.specs.BandSets.{IsBandsNumber, bands_of};
ghost use Rattle.obs_rows.specs.UsedSats.{IsInRange};
ghost use Rattle.obs_rows.specs.declared.limits.TheConstants.{MOST_PAIRS};
ghost use Rattle.slip_arcs.specs.Runs.{AreKept, no_shift};
ghost use Rattle.slip_arcs.specs.Linked.{HaveDatums};

use crate::entries::{does_go_on, last_of};
use crate::found::Found;
use obs_rows::{ArcList, UsedPair};
use std::alloc::{AllocError, Global};

/// The arcs that are kept, in the order of first pair and satellite, and the number of those that are too short.
#[derive(Debug, Drop)]
pub struct Arcs {
    pub kept: ArcList,
    pub short: u32,
}

/// The arcs of at least `least` pairs, with a cut where power failed, where lock was lost, and where the phase on one of
/// the bands jumps by more than `jump` κ against that on L1. All shifts are 0. Refused only where it is out of memory.
///
/// An arc is looked at from its first pair to its last and never again, so the work grows with the entries alone.
pub fn cut(
    alloc: Global,
    used: &[UsedPair],
    bands: u16,
    jump: u32,
    least: u32,
) -> Result<Arcs, AllocError>
    requires bands { IsBandsNumber bands }
    requires few { length used.now ≤ MOST_PAIRS }
    requires ranges { All IsInRange used.now }
    ensures kept { IfOk result (λ arcs.
        AreKept (bands_of bands) jump least used.now arcs.kept arcs.short) }
    ensures datums { IfOk result (λ arcs. HaveDatums arcs.kept) }
    ensures shifts { IfOk result (λ arcs. All (λ a. a.shift ≡ no_shift) arcs.kept) }
{
    let mut found = Found {
        kept: Vec::new(alloc),
        short: 0,
        reach: 0,
    };
    'pairs: for at in 0..used.len() {
        'sats: for k in 0..used[at].sats.len() {
            let sat = used[at].sats[k].sat;
            if at > 0 && does_go_on(used, at - 1, sat, bands, jump) {
                continue;
            }
            let last = last_of(used, at, sat, bands, jump);
            found.add(least, sat, at as u32, last as u32)?;
        }
    }
    let Found {
        kept,
        short,
        reach: _,
    } = found;
    Ok(Arcs {
        kept: ArcList::new(kept),
        short,
    })
}
