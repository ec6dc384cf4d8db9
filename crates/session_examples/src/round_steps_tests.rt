//! Where receivers stand, numbers of arcs, and shifts that grow.
ghost use Rattle.std.specs.Prelude.{◌↔◌, ◌^◌, IsTrue, All};
ghost use Rattle.obs_rows.specs.Ranges.{IsBelow};
ghost use Rattle.round_steps.specs.Shifts.{AreShiftsBelow};

use obs_rows::{Arc, Signals, fine_signals, free_arcs};
use quadratic_form::MOST_FACTORS;
use round_steps::{are_few, are_many, grown, is_receiver_point};
use std::alloc::{AllocError, Global};

// A point, and whether it is one of a receiver.
static POINTS: [([i64; 3], bool); 6] = [
    ([60_000_000_000, 0, 0], true),
    ([59_999_999_999, 0, 0], false),
    ([0, -70_000_000_000, 0], true),
    ([0, -70_000_000_000, 1], false),
    ([36_000_000_000, 48_000_000_000, 0], true),
    ([0, 0, i64::MIN], false),
];

#[test]
fn receivers_are_near_the_ground(rt: HostRuntime) {
    for row in POINTS.iter() {
        assert!(rt; is_receiver_point(&row.0) == row.1);
    }
}

fn arcs_of(alloc: Global, count: u8, datums: u8, last: u32) -> Result<Vec<Arc>, AllocError> {
    let mut arcs = Vec::new(alloc);
    for k in 0..count {
        arcs.push(Arc {
            sat: k,
            first: 0,
            last,
            datum: k < datums,
            shift: [0; 3],
        })?;
    }
    Ok(arcs)
}

// How many pairs there are and how many arcs, one of them a datum, and whether those are few.
static FEW: [(u32, u8, bool); 3] = [(5, 3, true), (5, 4, false), (0, 4, true)];

// How many arcs there are, how many of them are datums, and whether those are many.
static COUNTS: [(u8, u8, bool); 4] = [
    (21, 1, false),
    (22, 1, true),
    (200, 180, false),
    (201, 190, true),
];

fn has_few(alloc: Global, pairs: u32, count: u8) -> Result<bool, AllocError> {
    Ok(are_few(pairs, &arcs_of(alloc, count, 1, 4)?))
}

fn has_many(alloc: Global, count: u8, datums: u8) -> Result<bool, AllocError> {
    Ok(are_many(&arcs_of(alloc, count, datums, 4)?))
}

#[test]
fn counts_arcs(rt: HostRuntime) -> Result<(), AllocError> {
    for row in FEW.iter() {
        assert!(rt; has_few(rt.alloc(), row.0, row.1)? == row.2);
    }
    for row in COUNTS.iter() {
        assert!(rt; has_many(rt.alloc(), row.0, row.1)? == row.2);
    }
    Ok(())
}

fn signals_of(bands: u16) -> Signals {
    let (l1, l2, l5) = (b'C', b'W', b'Q');
    match bands {
        15 => Signals { l1, l2: 0, l5 },
        125 => Signals { l1, l2, l5 },
        _ => Signals { l1, l2, l5: 0 },
    }
}

// Whether all are below the limit in size.
fn are_below(numbers: &[i64], limit: u64) -> bool
    ensures { IsTrue result ↔ All (IsBelow limit) numbers.now }
{
    numbers.iter().all(|n| n.unsigned_abs() < limit)
}

fn have_small_shifts(arcs: &[Arc]) -> bool
    ensures { IsTrue result ↔ AreShiftsBelow (2 ^ 40) arcs.now }
{
    arcs.iter().all(|a| are_below(&a.shift, 1 << 40))
}

// The grown shifts of two arcs, or None where the call isn't allowed.
fn grown_by(
    alloc: Global,
    arcs: &[Arc],
    bands: u16,
    numbers: &[i64; MOST_FACTORS],
) -> Result<Option<[[i64; 3]; 2]>, AllocError> {
    if arcs.len() != 2 || free_arcs(arcs) > 20 || !have_small_shifts(arcs) {
        return Ok(None);
    }
    if !are_below(numbers, 1 << 46) {
        return Ok(None);
    }
    let after = grown(alloc, arcs, fine_signals(signals_of(bands)), numbers)?;
    if after.len() != 2 {
        return Ok(None);
    }
    Ok(Some([after[0].shift, after[1].shift]))
}

// Bands, and the grown shift of the second arc. Three quarters of a cycle leave a shift as it is, a 2^-16 of a cycle more makes it
// grow by one, and two cycles and a half down by two. Each phase grows at its band: on L1 and L5 the second integer is that of L5.
static GROWN: [(u16, [i64; 3]); 3] = [(12, [0, 1, 0]), (15, [0, 0, 1]), (125, [0, 1, -2])];

// Whether the shift of the second of two arcs becomes this one, while the first is a datum.
fn is_grown(alloc: Global, bands: u16, shift: [i64; 3]) -> Result<bool, AllocError> {
    let arcs = arcs_of(alloc, 2, 1, 4)?;
    let mut numbers = [0; MOST_FACTORS];
    numbers[3] = 49_152;
    numbers[4] = 49_153;
    numbers[5] = -163_840;
    Ok(grown_by(alloc, &arcs, bands, &numbers)? == Some([[0; 3], shift]))
}

#[test]
fn shifts_grow_by_bands(rt: HostRuntime) {
    for row in GROWN.iter() {
        assert!(rt; matches!(is_grown(rt.alloc(), row.0, row.1), Ok(true)));
    }
}
