//! Texts from the format and the oracle.
use crate::texts::{MOST, joined, with_returns};
use gps_time::Tick;
use obs_store::{ObsFile, ObsType, SatObs, Value};
use rinex_obs::{ObsFault, read_obs};
use std::alloc::Global;
use std::test::Fail;

const FIRST: &str =
    "     3.04           OBSERVATION DATA    G                   RINEX VERSION / TYPE\n";

const PLACE: &str =
    "  6378137.0000        0.0000        0.0000                  APPROX POSITION XYZ\n";

const TYPES: &str =
    "G    4 C1C L1C C2W L2W                                      SYS / # / OBS TYPES\n";

const END: &str = "                                                            END OF HEADER\n";

const COMMENT: &str = "x                                                           COMMENT\n";

const EPOCH: &str = "> 2024 01 01 00 00  0.0000000  0  1\n";

const LATER: &str = "> 2024 01 01 00 00 30.0000000  1  1\n";

// What a text of these parts gives.
fn read(alloc: Global, parts: &[&str]) -> Result<ObsFile, ObsFault> {
    let text = joined(alloc, parts)?;
    if text.len() > MOST {
        return Err(ObsFault::NoMemory);
    }
    read_obs(alloc, text.as_bytes())
}

// The only satellite of the first epoch.
fn only_sat(file: &ObsFile) -> Option<SatObs> {
    let sats = &file.epochs.as_slice().first()?.sats;
    if sats.len() == 1 {
        Some(sats.at(0))
    } else {
        None
    }
}

// Whether the only satellite of the first epoch has this value of a type.
fn has_value(file: &ObsFile, kind: ObsType, want: Option<Value>) -> bool {
    match only_sat(file) {
        Some(sat) => sat.values[kind.slot()] == want,
        None => false,
    }
}

// Whether there is one epoch of one satellite, half a minute after the hour, and power failed before it or not.
fn has_one_epoch(file: &ObsFile, power: bool) -> bool {
    match file.epochs.as_slice() {
        [only] => {
            only.tag == Tick(13_881_024_300_000_000) && only.power == power && only.sats.len() == 1
        }
        _ => false,
    }
}

const CODE: Value = Value {
    amount: 22_123_456_789,
    lock: 0,
};

const PHASE: Value = Value {
    amount: 116_260_123_456,
    lock: 1,
};

const VALUES: [(ObsType, Option<Value>); 5] = [
    (ObsType::C1C, Some(CODE)),
    (ObsType::L1C, Some(PHASE)),
    (ObsType::C2W, None),
    (ObsType::L2W, None),
    (ObsType::C1W, None),
];

#[test]
fn reads_values(rt: HostRuntime) -> Result<(), Fail> {
    let line = "G05  22123456.789 7 116260123.45617                         0.000\n";
    let file = read(rt.alloc(), &[FIRST, PLACE, TYPES, END, LATER, line])?;
    assert!(rt; file.hundredths == 304 && file.position == Some([63_781_370_000, 0, 0]));
    assert!(rt; file.delta == [0, 0, 0] && has_one_epoch(&file, true));
    for (kind, want) in VALUES.iter() {
        assert!(rt; has_value(&file, *kind, *want));
    }
    assert!(rt; file.listed[ObsType::C2W.slot()] && !file.listed[ObsType::C2X.slot()]);
    Ok(())
}

// An epoch at which power didn't fail, with one satellite.
#[test]
fn reads_an_epoch_line(rt: HostRuntime) -> Result<(), Fail> {
    let line = "> 2024 01 01 00 00 30.0000000  0  1\n";
    let file = read(rt.alloc(), &[FIRST, TYPES, END, line, "G05\n"])?;
    assert!(rt; has_one_epoch(&file, false));
    Ok(())
}

fn read_with_returns(alloc: Global, parts: &[&str]) -> Result<ObsFile, ObsFault> {
    let text = joined(alloc, parts)?;
    let returns = with_returns(alloc, &text)?;
    read(alloc, &[returns.as_str()])
}

#[test]
fn reads_lines_with_returns(rt: HostRuntime) -> Result<(), Fail> {
    let line = "G05  22123456.789\n";
    let file = read_with_returns(rt.alloc(), &[FIRST, TYPES, COMMENT, END, EPOCH, line])?;
    assert!(rt; has_value(&file, ObsType::C1C, Some(CODE)));
    Ok(())
}
