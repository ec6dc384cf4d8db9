//! Files of RINEX 2 that are read, and what they give.
use crate::rinex2_sample::{END, FILE, FIRST, LATER, read, text_of};
use gps_time::Tick;
use obs_store::{Epoch, ObsFile, ObsType, SatObs, Value};
use std::alloc::Global;
use std::test::Fail;

// The tag of the first epoch, and how many satellites it has.
fn tag_and_sats(file: &ObsFile) -> Option<(Tick, usize)> {
    let first = file.epochs.as_slice().first()?;
    Some((first.tag, first.sats.len()))
}

// The satellite at a place of the first epoch.
fn sat_at(file: &ObsFile, place: usize) -> Option<SatObs> {
    let sats = &file.epochs.as_slice().first()?.sats;
    if place < sats.len() {
        Some(sats.at(place))
    } else {
        None
    }
}

const VALUES: [(ObsType, Option<Value>); 5] = [
    (
        ObsType::C1C,
        Some(Value {
            amount: 22_123_456_789,
            lock: 0,
        }),
    ),
    (
        ObsType::L1C,
        Some(Value {
            amount: 116_260_123_456,
            lock: 1,
        }),
    ),
    (
        ObsType::L2W,
        Some(Value {
            amount: 90_592_303_999,
            lock: 4,
        }),
    ),
    (
        ObsType::C2W,
        Some(Value {
            amount: 22_123_459_123,
            lock: 0,
        }),
    ),
    (ObsType::C5X, None),
];

// The first row of the values that isn't so of the first satellite, or whose type isn't listed as it should be.
fn other_value(file: &ObsFile) -> Option<usize> {
    for (at, row) in VALUES.iter().enumerate() {
        let (kind, want) = *row;
        let value = sat_at(file, 0).map(|sat| sat.values[kind.slot()]);
        if value != Some(want) || file.listed[kind.slot()] != want.is_some() {
            return Some(at);
        }
    }
    None
}

fn has_number(file: &ObsFile, place: usize, number: u8) -> bool {
    match sat_at(file, place) {
        Some(sat) => sat.number == number,
        None => false,
    }
}

// The file without the line feed at its end, which it doesn't need.
fn unended_file(alloc: Global) -> Result<ObsFile, Fail> {
    let mut text = text_of(alloc, &FILE[..12])?;
    text.push_str(LATER)?;
    Ok(read(alloc, &text)?)
}

#[test]
fn reads_two_lines_for_each_satellite(rt: HostRuntime) -> Result<(), Fail> {
    let file = unended_file(rt.alloc())?;
    assert!(rt; file.hundredths == 211 && file.position == Some([63_781_370_000, 0, 0]));
    assert!(rt; file.delta == [15_000, 0, 0] && file.epochs.len() == 2);
    assert!(rt; tag_and_sats(&file) == Some((Tick(13_881_024_300_000_000), 2)));
    assert!(rt; has_number(&file, 0, 5) && has_number(&file, 1, 12));
    assert!(rt; other_value(&file).is_none());
    Ok(())
}

// Eight satellites of GPS among thirteen, each with one line; the last name has a blank letter.
const THIRTEEN: [&str; 18] = [
    FIRST,
    "     1    L1                                                # / TYPES OF OBSERV",
    END,
    " 24  1  1  0  0 30.0000000  1 13G01R02G03E04G05S06G07R08G09E10G11G12",
    "                                 13",
    "         1.001",
    "x",
    "         3.0033",
    "x",
    "         5.005",
    "x",
    "         7.0077",
    "x",
    "         9.009 9",
    "x",
    "        11.011",
    "        12.012",
    "        13.0130",
];

// The number of a satellite, and the digit of lost lock after its phase, which is 1001 times the number.
const OF_GPS: [(u8, u8); 8] = [
    (1, 0),
    (3, 3),
    (5, 0),
    (7, 7),
    (9, 0),
    (11, 0),
    (12, 0),
    (13, 0),
];

// The first satellite of the table that doesn't stand in its place with its phase.
fn other_sat(file: &ObsFile) -> Option<usize> {
    for (place, row) in OF_GPS.iter().enumerate() {
        let (number, lock) = *row;
        let amount = number as i64 * 1001;
        let found = sat_at(file, place).map(|sat| (sat.number, sat.values[ObsType::L1C.slot()]));
        if found != Some((number, Some(Value { amount, lock }))) {
            return Some(place);
        }
    }
    None
}

// Whether the only epoch of a file has eight satellites, and power failed before it.
fn has_one_epoch_of_eight(epochs: &[Epoch]) -> bool {
    match epochs {
        [only] => only.power && only.sats.len() == 8,
        _ => false,
    }
}

#[test]
fn reads_thirteen_satellites(rt: HostRuntime) -> Result<(), Fail> {
    let text = text_of(rt.alloc(), &THIRTEEN)?;
    let file = read(rt.alloc(), &text)?;
    assert!(rt; has_one_epoch_of_eight(file.epochs.as_slice()));
    assert!(rt; other_sat(&file).is_none());
    Ok(())
}
