//! Observation files of Galileo: a real one, and the greatest number of a satellite.
use crate::texts::{MOST, joined};
use gal_obs::read_gal_obs;
use gps_time::Tick;
use obs_store::{Epoch, ObsFile, ObsType, Value};
use std::alloc::Global;
use std::test::Fail;

const MIXED: &str =
    "     3.04           OBSERVATION DATA    M: Mixed            RINEX VERSION / TYPE\n";

const FIRST: &str =
    "     3.04           OBSERVATION DATA    E                   RINEX VERSION / TYPE\n";

const TYPES: &str =
    "E    4 C1C L1C C5Q L5Q                                      SYS / # / OBS TYPES\n";

const END: &str = "                                                            END OF HEADER\n";

const EPOCH: &str = "> 2024 01 01 00 00  0.0000000  0  1\n";

// From a receiver of the station STFU7 (RTCM 3, gpsd's test data), without the lines of most other satellites.
const REAL: [&str; 4] = [
    "G   20 C1C L1C D1C S1C C1W L1W D1W S1W C2W L2W D2W S2W C2X  SYS / # / OBS TYPES \n       L2X D2X S2X C5X L5X D5X S5X                          SYS / # / OBS TYPES \n",
    "E    8 C1X L1X D1X S1X C5X L5X D5X S5X                      SYS / # / OBS TYPES \n",
    "> 2016 04 06 20 38 17.0000000  0  1\nS33  37696211.024   198094743.6901         47.442          46.500    37696220.710   147928935.9571         35.440          45.500  \n",
    "> 2016 04 06 20 38 18.0000000  0  2\nE08  23502062.923   123503837.034        -505.273          53.000    23502066.836    92227296.474        -377.317          54.500  \nE11  28010068.919   147193688.4851        934.513          36.250    28010076.725   109917345.8921        697.847          37.500  \n",
];

fn read(alloc: Global, parts: &[&str]) -> Result<ObsFile, Fail> {
    let text = joined(alloc, parts)?;
    if text.len() > MOST {
        return Err("a long text".into());
    }
    Ok(read_gal_obs(alloc, text.as_bytes())?)
}

static LISTED: [(ObsType, bool); 6] = [
    (ObsType::C1X, true),
    (ObsType::L1X, true),
    (ObsType::C5X, true),
    (ObsType::L5X, true),
    (ObsType::C1C, false),
    (ObsType::C2W, false),
];

// The place of a satellite in the second epoch, and a value of it with its lock.
type Seen = (usize, ObsType, i64, u8);

static VALUES: [Seen; 5] = [
    (0, ObsType::C1X, 23_502_062_923, 0),
    (0, ObsType::L1X, 123_503_837_034, 0),
    (0, ObsType::C5X, 23_502_066_836, 0),
    (0, ObsType::L5X, 92_227_296_474, 0),
    (1, ObsType::L1X, 147_193_688_485, 1),
];

// The numbers of the satellites of an epoch that has these, where there are two at most.
fn numbers_of(epoch: &Epoch) -> Option<[Option<u8>; 2]> {
    match epoch.sats.len() {
        0 => Some([None, None]),
        1 => Some([Some(epoch.sats.at(0).number), None]),
        2 => Some([Some(epoch.sats.at(0).number), Some(epoch.sats.at(1).number)]),
        _ => None,
    }
}

fn has_value(epoch: &Epoch, row: &Seen) -> bool {
    let (place, kind, amount, lock) = *row;
    place < epoch.sats.len()
        && epoch.sats.at(place).values[kind.slot()] == Some(Value { amount, lock })
}

// The first type of the table that is listed otherwise.
fn other_listing(file: &ObsFile) -> Option<ObsType> {
    for (kind, want) in LISTED.iter() {
        if file.listed[kind.slot()] != *want {
            return Some(*kind);
        }
    }
    None
}

// The first value of the table that the epoch doesn't have.
fn other_value(epoch: &Epoch) -> Option<usize> {
    for (at, row) in VALUES.iter().enumerate() {
        if !has_value(epoch, row) {
            return Some(at);
        }
    }
    None
}

// What of the two epochs isn't as in the real file.
fn epoch_fault(epochs: &[Epoch]) -> Option<&'static str> {
    let [first, second] = epochs else {
        return Some("not two epochs");
    };
    if first.tag != Tick(11_440_102_970_000_000) {
        Some("the tag")
    } else if numbers_of(first) != Some([None, None]) {
        Some("the first epoch")
    } else if numbers_of(second) != Some([Some(8), Some(11)]) {
        Some("the second epoch")
    } else if other_value(second).is_some() {
        Some("a value")
    } else {
        None
    }
}

#[test]
fn reads_a_real_file(rt: HostRuntime) -> Result<(), Fail> {
    let [gps, galileo, none, two] = REAL;
    let file = read(rt.alloc(), &[MIXED, gps, galileo, END, none, two])?;
    assert!(rt; other_listing(&file).is_none());
    assert!(rt; epoch_fault(file.epochs.as_slice()).is_none());
    Ok(())
}

fn has_only_36(epochs: &[Epoch]) -> bool {
    match epochs {
        [only] => numbers_of(only) == Some([Some(36), None]),
        _ => false,
    }
}

#[test]
fn reads_numbers_to_36(rt: HostRuntime) -> Result<(), Fail> {
    let file = read(rt.alloc(), &[FIRST, TYPES, END, EPOCH, "E36"])?;
    assert!(rt; has_only_36(file.epochs.as_slice()));
    Ok(())
}
