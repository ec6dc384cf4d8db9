//! What the pairs say of one satellite, and how far it goes on without a cut.
ghost use Rattle.std.specs.Prelude.{◌≡◌, ◌<◌, ◌≤◌, length, All, IfSome, ℕ, true, false};
ghost use Rattle.std.specs.Option.{option_copied};
ghost use Rattle.obs_rows.specs.BandSets.{IsBandsNumber, bands_of};
ghost use Rattle.obs_rows.specs.UsedSats.{IsInRange, IsSmall};
ghost use Rattle.obs_rows.specs.declared.limits.TheConstants.{MOST_PAIRS};
ghost use Rattle.slip_arcs.specs.Used.{is_cut, entry_in, entry, goes_on};

use crate::phase::does_jump;
use obs_rows::{UsedPair, UsedSat, bands_of};

// Whether there is a cut between two entries.
fn is_cut_between(before: &UsedSat, now: &UsedSat, power: bool, bands: u16, jump: u32) -> bool
    requires before { IsSmall before.now }
    requires now { IsSmall now.now }
    requires bands { IsBandsNumber bands }
    ensures { result ≡ is_cut (bands_of bands) jump power before.now now.now }
{
    if power {
        return true;
    }
    if now.lost {
        return true;
    }
    does_jump(before, now, bands_of(bands), jump)
}

fn find_in(sats: &[UsedSat], sat: u8) -> Option<&UsedSat>
    ensures { option_copied result ≡ entry_in sats.now sat }
{
    sats.iter().find(|u| u.sat == sat)
}

// What a pair says of a satellite.
fn entry_of(used: &[UsedPair], at: usize, sat: u8) -> Option<UsedSat>
    requires ranges { All IsInRange used.now }
    requires inside { at < length used.now }
    ensures entry { result ≡ entry used.now sat at }
    ensures small { IfSome result IsSmall }
{
    find_in(&used[at].sats, sat).copied()
}

/// Whether a satellite is used in a pair and in the next, without a cut between them.
pub fn does_go_on(used: &[UsedPair], at: usize, sat: u8, bands: u16, jump: u32) -> bool
    requires few { length used.now ≤ MOST_PAIRS }
    requires ranges { All IsInRange used.now }
    requires inside { at < length used.now }
    requires bands { IsBandsNumber bands }
    ensures { result ≡ goes_on (bands_of bands) jump used.now sat at }
{
    if at + 1 >= used.len() {
        return false;
    }
    let Some(before) = entry_of(used, at, sat) else {
        return false;
    };
    let Some(now) = entry_of(used, at + 1, sat) else {
        return false;
    };
    !is_cut_between(&before, &now, used[at + 1].power, bands, jump)
}

/// The last pair to which a satellite goes on from this pair.
pub fn last_of(used: &[UsedPair], first: usize, sat: u8, bands: u16, jump: u32) -> usize
    requires few { length used.now ≤ MOST_PAIRS }
    requires ranges { All IsInRange used.now }
    requires inside { first < length used.now }
    requires bands { IsBandsNumber bands }
    ensures order { first ≤ result }
    ensures inside { result < length used.now }
    ensures held { (i : ℕ) → first ≤ i → i < result →
        goes_on (bands_of bands) jump used.now sat i ≡ true }
    ensures ends { goes_on (bands_of bands) jump used.now sat result ≡ false }
{
    let mut last = first;
    'run: while does_go_on(used, last, sat, bands, jump) {
        last += 1;
    }
    last
}
