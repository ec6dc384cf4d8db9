//! Arcs that are cut at jumps and where power failed, and what links them.
ghost use Rattle.std.specs.Prelude.{◌≡◌, ◌+◌, ◌<◌, ◌≤◌, ◌^◌, length, unsigned_abs, vec_len, All, IfOk, OnOk};
ghost use Rattle.obs_rows.specs.UsedSats.{IsInRange};

use obs_rows::{Arc, BANDS_L1_L2, are_within, is_bands_number};
use slip_arcs::{UsedPair, UsedSat, cut};
use std::alloc::{AllocError, Global};
use std::test::Fail;

// A pair that uses one satellite.
fn alone(alloc: Global, sat: u8, phase: [i64; 3]) -> Result<UsedPair, AllocError>
    requires { All (λ z. unsigned_abs z < 2 ^ 50) phase }
    ensures { IfOk result IsInRange }
{
    let mut sats: Vec<UsedSat> = Vec::new(alloc);
    sats.push(UsedSat {
        sat,
        phase,
        lost: false,
    })?;
    Ok(UsedPair { power: false, sats })
}

// A pair that uses satellites 3 and 7.
fn both(alloc: Global) -> Result<UsedPair, AllocError>
    ensures { IfOk result IsInRange }
{
    let mut sats: Vec<UsedSat> = Vec::new(alloc);
    sats.push(UsedSat {
        sat: 3,
        phase: [0, 0, 0],
        lost: false,
    })?;
    sats.push(UsedSat {
        sat: 7,
        phase: [0, 0, 0],
        lost: false,
    })?;
    Ok(UsedPair { power: false, sats })
}

fn add(used: &mut Vec<UsedPair>, pair: UsedPair) -> Result<(), AllocError>
    requires earlier { All IsInRange used.old.items }
    requires pair { IsInRange pair }
    ensures ranges { OnOk result (All IsInRange used.new.items) }
    ensures longer { OnOk result (vec_len used.new ≡ vec_len used.old + 1) }
{
    used.push(pair)?;
    Ok(())
}

fn add_alone(
    alloc: Global,
    used: &mut Vec<UsedPair>,
    sat: u8,
    phase: [i64; 3],
) -> Result<(), AllocError>
    requires earlier { All IsInRange used.old.items }
    requires phase { All (λ z. unsigned_abs z < 2 ^ 50) phase }
    ensures ranges { OnOk result (All IsInRange used.new.items) }
    ensures longer { OnOk result (vec_len used.new ≡ vec_len used.old + 1) }
{
    add(used, alone(alloc, sat, phase)?)
}

fn add_both(alloc: Global, used: &mut Vec<UsedPair>) -> Result<(), AllocError>
    requires earlier { All IsInRange used.old.items }
    ensures ranges { OnOk result (All IsInRange used.new.items) }
    ensures longer { OnOk result (vec_len used.new ≡ vec_len used.old + 1) }
{
    add(used, both(alloc)?)
}

// A satellite, its first and last pair, and whether it is a datum.
type Kept = (u8, u32, u32, bool);

fn are_arcs(kept: &[Arc], want: &[Kept]) -> bool {
    for (arc, want) in kept.iter().zip(want.iter()) {
        if (arc.sat, arc.first, arc.last, arc.datum) != *want {
            return false;
        }
    }
    kept.len() == want.len()
}

// A jump in κ, the least pairs of an arc, the kept arcs, and how many runs are too short.
type Cut = (u32, u32, &'static [Kept], u32);

// Whether pairs are cut so.
fn are_cut(alloc: Global, used: &[UsedPair], want: &Cut) -> Result<bool, AllocError>
    requires few { length used.now ≤ 3600 }
    requires ranges { All IsInRange used.now }
{
    let (jump, least, kept, short) = *want;
    let arcs = cut(alloc, used, BANDS_L1_L2, jump, least)?;
    Ok(are_arcs(arcs.kept.as_slice(), kept) && arcs.short == short)
}

// Rises of 1000 and 1000 thousandths of a cycle are 17 κ apart, rises of 9000 and 7000 are 1 κ apart.
static JUMPS: [Cut; 3] = [
    (12, 2, &[(7, 1, 2, true)], 1),
    (12, 3, &[], 2),
    (17, 3, &[(7, 0, 2, true)], 0),
];

fn add_rises(alloc: Global, used: &mut Vec<UsedPair>) -> Result<(), AllocError>
    requires earlier { All IsInRange used.old.items }
    ensures ranges { OnOk result (All IsInRange used.new.items) }
    ensures longer { OnOk result (vec_len used.new ≡ vec_len used.old + 3) }
{
    add_alone(alloc, used, 7, [0, 0, 0])?;
    add_alone(alloc, used, 7, [1000, 1000, 0])?;
    add_alone(alloc, used, 7, [10000, 8000, 0])
}

fn are_rises_cut(alloc: Global, want: &Cut) -> Result<bool, AllocError> {
    let mut used: Vec<UsedPair> = Vec::new(alloc);
    add_rises(alloc, &mut used)?;
    are_cut(alloc, &used, want)
}

#[test]
fn cuts_at_a_jump(rt: HostRuntime) -> Result<(), Fail> {
    for row in JUMPS.iter() {
        assert!(rt; are_rises_cut(rt.alloc(), row)?);
    }
    Ok(())
}

fn add_late_joins(alloc: Global, used: &mut Vec<UsedPair>) -> Result<(), AllocError>
    requires earlier { All IsInRange used.old.items }
    ensures ranges { OnOk result (All IsInRange used.new.items) }
    ensures longer { OnOk result (vec_len used.new ≡ vec_len used.old + 5) }
{
    add_alone(alloc, used, 3, [0, 0, 0])?;
    add_both(alloc, used)?;
    add_alone(alloc, used, 7, [0, 0, 0])?;
    add_both(alloc, used)?;
    add_alone(alloc, used, 3, [0, 0, 0])
}

fn are_late_joins_cut(alloc: Global, want: &Cut) -> Result<bool, AllocError> {
    let mut used: Vec<UsedPair> = Vec::new(alloc);
    add_late_joins(alloc, &mut used)?;
    are_cut(alloc, &used, want)
}

// The second arc of satellite 3 shares no pair with the first, but satellite 7 links both.
#[test]
fn links_arcs_that_join_late(rt: HostRuntime) -> Result<(), Fail> {
    let want = &[(3, 0, 1, true), (7, 1, 3, false), (3, 3, 4, false)];
    assert!(rt; are_late_joins_cut(rt.alloc(), &(12, 2, want, 0))?);
    Ok(())
}

fn add_failing_power(alloc: Global, used: &mut Vec<UsedPair>) -> Result<(), AllocError>
    requires earlier { All IsInRange used.old.items }
    ensures ranges { OnOk result (All IsInRange used.new.items) }
    ensures longer { OnOk result (vec_len used.new ≡ vec_len used.old + 3) }
{
    add_alone(alloc, used, 7, [0, 0, 0])?;
    add_alone(alloc, used, 7, [0, 0, 0])?;
    let mut last = alone(alloc, 7, [0, 0, 0])?;
    last.power = true;
    add(used, last)
}

fn is_failing_power_cut(alloc: Global, want: &Cut) -> Result<bool, AllocError> {
    let mut used: Vec<UsedPair> = Vec::new(alloc);
    add_failing_power(alloc, &mut used)?;
    are_cut(alloc, &used, want)
}

// Where power failed up to the last pair, that pair stands alone, and its arc is a datum of its own.
#[test]
fn cuts_where_power_failed(rt: HostRuntime) -> Result<(), Fail> {
    let want = &[(7, 0, 1, true), (7, 2, 2, true)];
    assert!(rt; is_failing_power_cut(rt.alloc(), &(12, 1, want, 0))?);
    Ok(())
}

// In thousandths of a cycle, how far the phases rise, and how many arcs there are with a jump of 12 κ, which is 276,000: rises
// of 4000 and 3000 on L1 and L5 are 24,000 apart, of 4000 and 5000 on L1 and L2 3,335,000. A band that isn't used may jump,
// and L5 isn't held against L2: 155 on L2 is 274,505, and -149 on L5 is -275,352. 200 on L1 is the whole jump, and the least
// above it are 276,023 against L2 and 276,012 against L5.
static RISES: [(u16, [i64; 3], usize); 11] = [
    (15, [4000, 0, 3000], 1),
    (12, [4000, 5000, 0], 2),
    (15, [4000, 5000, 3000], 1),
    (12, [9000, 7000, 5000], 1),
    (125, [4000, 5000, 3000], 2),
    (125, [0, 155, -149], 1),
    (125, [0, 155, -150], 2),
    (125, [0, 156, -149], 2),
    (125, [200, 0, 0], 1),
    (12, [209, 7, 0], 2),
    (15, [275, 0, 56], 2),
];

// The arcs over such a rise, where the call is allowed.
fn arcs_over(alloc: Global, bands: u16, rise: [i64; 3]) -> Result<Option<usize>, AllocError> {
    if !is_bands_number(bands) || !are_within(&rise, 1_000_000) {
        return Ok(None);
    }
    let mut used: Vec<UsedPair> = Vec::new(alloc);
    add_alone(alloc, &mut used, 7, [0, 0, 0])?;
    add_alone(alloc, &mut used, 7, rise)?;
    Ok(Some(cut(alloc, &used, bands, 12, 1)?.kept.len()))
}

#[test]
fn holds_each_band_against_l1(rt: HostRuntime) -> Result<(), Fail> {
    for row in RISES.iter() {
        let (bands, rise, arcs) = *row;
        assert!(rt; arcs_over(rt.alloc(), bands, rise)? == Some(arcs));
    }
    Ok(())
}
