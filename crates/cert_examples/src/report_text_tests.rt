//! What `list` prints of an observation file, and `orbit` of a satellite.
use decimal_text::Dec;
use eph_store::{Eph, Raw};
use gps_time::Tick;
use obs_store::{Epoch, Epochs, ObsFile, SLOTS, SatObs, Satellites};
use report_text::{write_list, write_orbit};
use std::alloc::{AllocError, Global};
use std::str;
use sv_orbit::sv_at;

fn only_g05(alloc: Global) -> Result<Satellites, AllocError> {
    let mut sats = Satellites::new(alloc);
    sats.push(SatObs::missing(5))?;
    Ok(sats)
}

fn g05_and_g12(alloc: Global) -> Result<Satellites, AllocError> {
    let mut sats = Satellites::new(alloc);
    sats.push(SatObs::missing(5))?;
    sats.push(SatObs::missing(12))?;
    Ok(sats)
}

// Two epochs, 30 s apart, with G05 in both and G12 in the second.
fn two_epochs(alloc: Global) -> Result<Epochs, AllocError> {
    let mut epochs = Epochs::new(alloc);
    epochs.push(Epoch {
        tag: Tick(13_881_024_000_000_000),
        power: false,
        sats: only_g05(alloc)?,
    })?;
    epochs.push(Epoch {
        tag: Tick(13_881_024_300_000_000),
        power: false,
        sats: g05_and_g12(alloc)?,
    })?;
    Ok(epochs)
}

const LISTED: &str = "version 3.04
epochs 2
first 13881024000000000
last 13881024300000000
G05 2
G12 1
";

fn is_listed(alloc: Global) -> Result<bool, AllocError> {
    let file = ObsFile {
        hundredths: 304,
        position: None,
        delta: [0, 0, 0],
        listed: [false; SLOTS],
        epochs: two_epochs(alloc)?,
    };
    let mut out = Vec::new(alloc);
    write_list(alloc, &mut out, &file)?;
    Ok(out.as_slice() == LISTED.as_bytes())
}

#[test]
fn lists_a_file(rt: HostRuntime) {
    assert!(rt; matches!(is_listed(rt.alloc()), Ok(true)));
}

const ZERO: Dec = Dec { mant: 0, exp: 0 };

// A satellite on a circle of 25,000 km, over the equator, on the meridian of Greenwich at the record's own time.
fn on_a_circle() -> Raw {
    Raw {
        sat: 7,
        toc: Tick(0),
        af0: ZERO,
        af1: ZERO,
        af2: ZERO,
        crs: ZERO,
        dn: ZERO,
        m0: ZERO,
        cuc: ZERO,
        ecc: ZERO,
        cus: ZERO,
        root_a: Dec { mant: 5000, exp: 0 },
        cic: ZERO,
        node: ZERO,
        cis: ZERO,
        incl: ZERO,
        crc: ZERO,
        peri: ZERO,
        node_rate: ZERO,
        incl_rate: ZERO,
        week: ZERO,
        toe_s: ZERO,
        health: ZERO,
    }
}

// What is printed of the record's satellite at the first tick, where it is usable and of that time.
fn printed(alloc: Global) -> Result<Vec<u8>, AllocError> {
    let mut out = Vec::new(alloc);
    if let Ok(eph) = Eph::of(&on_a_circle())
        && eph.toe.0 <= 72_010_000_000
    {
        let found = sv_at(&eph, Tick(0), 0);
        write_orbit(alloc, &mut out, Some(&found))?;
    }
    Ok(out)
}

// Whether the line is this word and two numbers that are at most 5 apart, with the wanted one between them.
fn holds(line: &str, word: &str, wanted: i64) -> bool {
    let mut words = line.split_whitespace();
    let is_named = words.next().unwrap_or("") == word;
    let low = words.next().unwrap_or("").parse::<i64>().unwrap_or(1);
    let high = words.next().unwrap_or("").parse::<i64>().unwrap_or(0);
    let is_held = low <= wanted && wanted <= high && low.abs_diff(high) <= 5;
    is_named && is_held && words.next().is_none()
}

// The place in micrometres, and what the clock is ahead.
static HELD: [(&str, i64); 4] = [("x", 25_000_000_000_000), ("y", 0), ("z", 0), ("clock", 0)];

// Whether the lines hold these numbers, each its own, and there is no other line.
fn are_held(text: &str) -> bool {
    let mut lines = text.lines();
    for row in HELD.iter() {
        if !holds(lines.next().unwrap_or(""), row.0, row.1) {
            return false;
        }
    }
    lines.next().is_none()
}

fn is_held(alloc: Global) -> Result<bool, AllocError> {
    let out = printed(alloc)?;
    Ok(are_held(str::from_utf8(out.as_slice()).unwrap_or("")))
}

// Whether it is said where there is no record.
fn is_none_told(alloc: Global) -> Result<bool, AllocError> {
    let mut out = Vec::new(alloc);
    write_orbit(alloc, &mut out, None)?;
    Ok(out.as_slice() == b"no record\n".as_slice())
}

#[test]
fn prints_a_place(rt: HostRuntime) {
    assert!(rt; matches!(is_held(rt.alloc()), Ok(true)));
    assert!(rt; matches!(is_none_told(rt.alloc()), Ok(true)));
}
