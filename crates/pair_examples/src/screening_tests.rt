//! Which satellites are used of what two receivers on the equator observe.
ghost use Rattle.std.specs.Prelude.{◌<◌, IfOk};
ghost use Rattle.screening.specs.Screening.{ArePairsOf, HasPosition};

use decimal_text::Dec;
use eph_store::{NavFile, Raw};
use epoch_pair::{PairOf, pair, take};
use gps_time::Tick;
use obs_rows::{Arc, BANDS_L1_L2, Signals};
use obs_store::{Epoch, Epochs, ObsFile, ObsType, SLOTS, SatObs, Satellites, Value};
use screening::{Screened, screen};
use slip_arcs::cut;
use std::alloc::{AllocError, Global};
use std::test::Fail;

const ZERO: Dec = Dec { mant: 0, exp: 0 };

const CODE: i64 = 25_000_000_000;

// A satellite on a circle of 25,000 km over the equator, at time 0 east of Greenwich by these hundredths of a radian.
fn record(sat: u8, hundredths: i64) -> Raw {
    Raw {
        sat,
        toc: Tick(0),
        af0: ZERO,
        af1: ZERO,
        af2: ZERO,
        crs: ZERO,
        dn: ZERO,
        m0: Dec {
            mant: hundredths,
            exp: -2,
        },
        cuc: ZERO,
        ecc: ZERO,
        cus: ZERO,
        root_a: Dec { mant: 5000, exp: 0 },
        cic: ZERO,
        node: ZERO,
        cis: ZERO,
        incl: ZERO,
        crc: ZERO,
        peri: ZERO,
        node_rate: ZERO,
        incl_rate: ZERO,
        week: ZERO,
        toe_s: ZERO,
        health: ZERO,
    }
}

// Satellites 1, 2 and so on, all high above the receivers.
fn records(alloc: Global, count: u8) -> Result<NavFile, AllocError> {
    let mut nav = NavFile::new(alloc);
    for sat in 0..count {
        nav.push(record(sat + 1, 0))?;
    }
    Ok(nav)
}

// The phase on L2 with its digit, and both codes.
fn observed(number: u8, phase: i64, lock: u8, code: i64) -> SatObs {
    let mut sat = SatObs::missing(number);
    let free = |amount| Some(Value { amount, lock: 0 });
    sat.values[ObsType::L1C.slot()] = free(0);
    sat.values[ObsType::L2W.slot()] = Some(Value {
        amount: phase,
        lock,
    });
    sat.values[ObsType::C1C.slot()] = free(code);
    sat.values[ObsType::C2W.slot()] = free(code);
    sat
}

fn sats_of(alloc: Global, all: &[SatObs]) -> Result<Satellites, AllocError> {
    let mut sats = Satellites::new(alloc);
    for sat in all {
        if 1 <= sat.number && sat.number <= 36 && !sats.has(sat.number) {
            sats.push(*sat)?;
        }
    }
    Ok(sats)
}

// Adds an epoch, where it is later than the last.
fn add(
    alloc: Global,
    epochs: &mut Epochs,
    tag: u64,
    power: bool,
    all: &[SatObs],
) -> Result<(), AllocError> {
    if epochs.len() >= Epochs::MOST {
        return Ok(());
    }
    if let Some(last) = epochs.last_tag()
        && last.0 >= tag
    {
        return Ok(());
    }
    epochs.push(Epoch {
        tag: Tick(tag),
        power,
        sats: sats_of(alloc, all)?,
    })
}

// A receiver on the equator, on the meridian of Greenwich.
fn receiver(epochs: Epochs) -> ObsFile
    ensures { HasPosition result.position }
{
    ObsFile {
        hundredths: 304,
        position: Some([63_710_000_000, 0, 0]),
        delta: [0, 0, 0],
        listed: [false; SLOTS],
        epochs,
    }
}

fn alone(alloc: Global, sat: SatObs) -> Result<ObsFile, AllocError>
    ensures { IfOk result (λ file. HasPosition file.position) }
{
    let mut epochs = Epochs::new(alloc);
    add(alloc, &mut epochs, 0, false, &[sat])?;
    Ok(receiver(epochs))
}

// In which of twenty epochs the first satellite's phase on L2 lost lock, and before which power failed.
#[derive(Clone, Copy)]
struct Events {
    lost: u64,
    failed: u64,
}

const NEVER: u64 = 20;

const NONE: Events = Events {
    lost: NEVER,
    failed: NEVER,
};

// Twenty epochs of two satellites, half a minute apart.
fn series(alloc: Global, events: Events) -> Result<ObsFile, AllocError>
    ensures { IfOk result (λ file. HasPosition file.position) }
{
    let mut epochs = Epochs::new(alloc);
    for k in 0..20u64 {
        let lock = if k == events.lost { 1 } else { 0 };
        let all = [observed(1, 0, lock, CODE), observed(2, 0, 0, CODE)];
        add(
            alloc,
            &mut epochs,
            300_000_000 * k,
            k == events.failed,
            &all,
        )?;
    }
    Ok(receiver(epochs))
}

fn taken(
    alloc: Global,
    base: &ObsFile,
    rover: &ObsFile,
    step: u32,
) -> Result<Vec<PairOf>, AllocError>
    requires { 0 < step }
    ensures { IfOk result (λ taken. ArePairsOf base.now.epochs rover.now.epochs taken.items) }
{
    let Ok(all) = pair(alloc, base, rover, 100_000) else {
        return Ok(Vec::new(alloc));
    };
    take(alloc, &all, 0, step, 3600)
}

fn screened(
    alloc: Global,
    base: &ObsFile,
    rover: &ObsFile,
    nav: &NavFile,
    step: u32,
) -> Result<Screened, AllocError>
    requires position { HasPosition base.now.position }
    requires step { 0 < step }
{
    let signals = Signals {
        l1: b'C',
        l2: b'W',
        l5: 0,
    };
    let pairs = taken(alloc, base, rover, step)?;
    screen(alloc, base, rover, nav, signals, &pairs, 200)
}

// Each how many pairs one is taken, the least pairs of an arc, and the kept arcs: the satellite, the first and the last pair.
type Cut = (u32, u32, &'static [(u8, u32, u32)]);

fn screened_series(
    alloc: Global,
    base: Events,
    rover: Events,
    step: u32,
) -> Result<Screened, AllocError>
    requires { 0 < step }
{
    let base = series(alloc, base)?;
    let rover = series(alloc, rover)?;
    let nav = records(alloc, 2)?;
    screened(alloc, &base, &rover, &nav, step)
}

fn are_arcs(kept: &[Arc], want: &[(u8, u32, u32)]) -> bool {
    for (arc, want) in kept.iter().zip(want.iter()) {
        if (arc.sat, arc.first, arc.last) != *want {
            return false;
        }
    }
    kept.len() == want.len()
}

// Whether these arcs are kept of two satellites.
fn has_arcs(alloc: Global, base: Events, rover: Events, want: &Cut) -> Result<bool, AllocError> {
    let (step, least, arcs) = *want;
    if step == 0 {
        return Ok(false);
    }
    let found = screened_series(alloc, base, rover, step)?;
    let found = cut(alloc, found.used.as_slice(), BANDS_L1_L2, 12, least)?;
    Ok(are_arcs(found.kept.as_slice(), arcs))
}

// Lock is lost in epoch 6, which with each fourth pair isn't taken.
static LOCK_LOST: [Cut; 2] = [
    (1, 5, &[(1, 0, 5), (2, 0, 19), (1, 6, 19)]),
    (4, 2, &[(1, 0, 1), (2, 0, 4), (1, 2, 4)]),
];

#[test]
fn lost_lock_cuts_one_satellite(rt: HostRuntime) -> Result<(), Fail> {
    let base = Events { lost: 6, ..NONE };
    for row in LOCK_LOST.iter() {
        assert!(rt; has_arcs(rt.alloc(), base, NONE, row)?);
    }
    Ok(())
}

// Power failed at the rover before epoch 6, which with each fourth pair isn't taken.
static POWER_FAILED: [Cut; 2] = [
    (1, 5, &[(1, 0, 5), (2, 0, 5), (1, 6, 19), (2, 6, 19)]),
    (4, 2, &[(1, 0, 1), (2, 0, 1), (1, 2, 4), (2, 2, 4)]),
];

#[test]
fn power_failure_cuts_every_satellite(rt: HostRuntime) -> Result<(), Fail> {
    let rover = Events { failed: 6, ..NONE };
    for row in POWER_FAILED.iter() {
        assert!(rt; has_arcs(rt.alloc(), NONE, rover, row)?);
    }
    Ok(())
}

// How many satellites are used of one that the receivers observe so.
fn used_of(alloc: Global, base: SatObs, rover: SatObs) -> Result<usize, AllocError> {
    let base = alone(alloc, base)?;
    let rover = alone(alloc, rover)?;
    let nav = records(alloc, 1)?;
    Ok(screened(alloc, &base, &rover, &nav, 1)?.boxes.len())
}

// A phase, its lock, the codes, and how many satellites are used.
type Range = (i64, u8, i64, usize);

static RANGES: [Range; 12] = [
    (100_000_000_000_000, 0, CODE, 1),
    (100_000_000_000_001, 0, CODE, 0),
    (-100_000_000_000_000, 0, CODE, 1),
    (-100_000_000_000_001, 0, CODE, 0),
    (0, 1, CODE, 1),
    (0, 2, CODE, 0),
    (0, 3, CODE, 0),
    (0, 4, CODE, 1),
    (0, 0, 10_000_000_000, 1),
    (0, 0, 9_999_999_999, 0),
    (0, 0, 100_000_000_000, 1),
    (0, 0, 100_000_000_001, 0),
];

// Whether so many satellites are used where the first receiver observes that, and where the second does.
fn are_used(alloc: Global, row: &Range) -> Result<bool, AllocError> {
    let (phase, lock, code, used) = *row;
    let plain = observed(1, 0, 0, CODE);
    let odd = observed(1, phase, lock, code);
    Ok(used_of(alloc, odd, plain)? == used && used_of(alloc, plain, odd)? == used)
}

#[test]
fn ends_of_the_ranges(rt: HostRuntime) -> Result<(), Fail> {
    for row in RANGES.iter() {
        assert!(rt; are_used(rt.alloc(), row)?);
    }
    Ok(())
}

// An epoch of sixteen satellites.
fn sixteen(alloc: Global) -> Result<ObsFile, AllocError>
    ensures { IfOk result (λ file. HasPosition file.position) }
{
    let mut all: Vec<SatObs> = Vec::new(alloc);
    for number in 1..17u8 {
        all.push(observed(number, 0, 0, CODE))?;
    }
    let mut epochs = Epochs::new(alloc);
    add(alloc, &mut epochs, 0, false, &all)?;
    Ok(receiver(epochs))
}

// How many of the sixteen are used with these records, and the last of them with what was observed of it.
type Used = (usize, Option<(u8, [i64; 6])>);

fn used_of_sixteen(alloc: Global, nav: &NavFile) -> Result<Used, AllocError> {
    let file = sixteen(alloc)?;
    let found = screened(alloc, &file, &file, nav, 1)?;
    let last = found.boxes.as_slice().last().map(|b| (b.sat, b.observed));
    Ok((found.boxes.len(), last))
}

// Of sixteen satellites the last isn't used.
#[test]
fn fifteen_above_the_mask(rt: HostRuntime) -> Result<(), Fail> {
    let nav = records(rt.alloc(), 16)?;
    let found = used_of_sixteen(rt.alloc(), &nav)?;
    assert!(rt; found == (15, Some((15, [0; 6]))));
    Ok(())
}

// Two satellites on both sides of the Earth, the first behind it.
fn two_sides(alloc: Global) -> Result<NavFile, AllocError> {
    let mut nav = NavFile::new(alloc);
    nav.push(record(1, 314))?;
    nav.push(record(2, 0))?;
    Ok(nav)
}

// Of two satellites on both sides of the Earth the one behind it isn't used.
#[test]
fn none_behind_the_earth(rt: HostRuntime) -> Result<(), Fail> {
    let nav = two_sides(rt.alloc())?;
    let found = used_of_sixteen(rt.alloc(), &nav)?;
    assert!(rt; found == (1, Some((2, [0; 6]))));
    Ok(())
}
