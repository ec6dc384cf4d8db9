//! Simulated files are read.
use decimal_text::Dec;
use eph_store::{Eph, NavFile};
use gal_nav::read_gal_nav;
use gal_obs::read_gal_obs;
use gps_time::Tick;
use line_source::MAX_FILE;
use obs_rows::is_bands_number;
use obs_store::{Epoch, ObsFile, ObsType, SatObs, Value};
use rinex_nav::read_nav;
use rinex_obs::read_obs;
use sim_session::make;
use std::alloc::Global;

// The values of the fourth satellite in the second epoch, by an independent model.
const ON_L1_L2: [(ObsType, i64); 4] = [
    (ObsType::C1C, 22_601_373_001),
    (ObsType::L1C, 118_440_897_761),
    (ObsType::C2W, 22_601_373_001),
    (ObsType::L2W, 92_641_508_229),
];

const ON_L5: [(ObsType, i64); 2] = [
    (ObsType::C5Q, 22_601_373_001),
    (ObsType::L5Q, 89_632_456_386),
];

const OF_GALILEO: [(ObsType, i64); 4] = [
    (ObsType::C1C, 25_576_172_548),
    (ObsType::L1C, 134_073_574_889),
    (ObsType::C5Q, 25_576_172_548),
    (ObsType::L5Q, 101_306_208_787),
];

fn has_value(sat: &SatObs, kind: ObsType, amount: i64) -> bool {
    sat.values[kind.slot()] == Some(Value { amount, lock: 0 })
}

// What of the second of two epochs isn't as wanted, with these values of its fourth satellite.
fn epoch_fault(epoch: &Epoch, wanted: &[(ObsType, i64)]) -> Option<&'static str> {
    if (epoch.tag, epoch.power) != (Tick(13_881_024_300_000_000), false) {
        return Some("the epoch");
    }
    if epoch.sats.len() != 4 {
        return Some("the number of satellites");
    }
    let last = epoch.sats.at(3);
    if last.number == 4 && wanted.iter().all(|row| has_value(&last, row.0, row.1)) {
        None
    } else {
        Some("the last satellite")
    }
}

// What of the file isn't as wanted.
fn file_fault(file: &ObsFile, wanted: &[(ObsType, i64)]) -> Option<&'static str> {
    if (file.hundredths, file.position, file.delta) != (304, Some([63_781_370_000, 0, 0]), [0; 3]) {
        return Some("the header");
    }
    match file.epochs.as_slice() {
        [_, second] => epoch_fault(second, wanted),
        _ => Some("the number of epochs"),
    }
}

// The base's file of a session of seed 1, of two epochs and four satellites.
fn observations(alloc: Global, bands: u16) -> Option<ObsFile> {
    if !is_bands_number(bands) {
        return None;
    }
    let made = make(alloc, 1, 2, 4, bands, b'G').ok()?;
    if made.base.len() > MAX_FILE {
        return None;
    }
    read_obs(alloc, &made.base).ok()
}

// The same of Galileo, on its bands.
fn observations_of_galileo(alloc: Global) -> Option<ObsFile> {
    let made = make(alloc, 1, 2, 4, 15, b'E').ok()?;
    if made.base.len() > MAX_FILE {
        return None;
    }
    read_gal_obs(alloc, &made.base).ok()
}

// What isn't as wanted of what was read.
fn fault_of(read: Option<ObsFile>, wanted: &[(ObsType, i64)]) -> Option<&'static str> {
    match read {
        Some(file) => file_fault(&file, wanted),
        None => Some("no file"),
    }
}

// Bands, and values of the fourth satellite on them.
static ON_BANDS: [(u16, &[(ObsType, i64)]); 3] = [(12, &ON_L1_L2), (125, &ON_L1_L2), (125, &ON_L5)];

#[test]
fn reads_observations(rt: HostRuntime) {
    for row in ON_BANDS.iter() {
        assert!(rt; fault_of(observations(rt.alloc(), row.0), row.1).is_none());
    }
}

#[test]
fn reads_observations_of_galileo(rt: HostRuntime) {
    assert!(rt; fault_of(observations_of_galileo(rt.alloc()), &OF_GALILEO).is_none());
}

// The navigation file of a session of seed 1, of one epoch and fifteen satellites.
fn records(alloc: Global) -> Option<NavFile> {
    let made = make(alloc, 1, 1, 15, 12, b'G').ok()?;
    if made.nav.len() > MAX_FILE {
        return None;
    }
    read_nav(alloc, &made.nav).ok()
}

// The same of Galileo.
fn records_of_galileo(alloc: Global) -> Option<NavFile> {
    let made = make(alloc, 1, 1, 15, 15, b'E').ok()?;
    if made.nav.len() > MAX_FILE {
        return None;
    }
    read_gal_nav(alloc, &made.nav).ok()
}

// The last of fifteen records, each of them usable.
fn last_of(file: &NavFile) -> Option<&Eph> {
    if file.all().len() == 15 && file.fit().len() == 15 {
        file.fit().last()
    } else {
        None
    }
}

const ECC: Dec = Dec {
    mant: 1_500_000_000_000,
    exp: -14,
};

const NODE: Dec = Dec {
    mant: -3_600_000_000_000,
    exp: -13,
};

fn are_read(alloc: Global) -> bool {
    let Some(file) = records(alloc) else {
        return false;
    };
    match last_of(&file) {
        Some(eph) => {
            (eph.sat, eph.ecc, eph.node, eph.toe) == (15, ECC, NODE, Tick(13_881_024_000_000_000))
        }
        None => false,
    }
}

#[test]
fn reads_records(rt: HostRuntime) {
    assert!(rt; are_read(rt.alloc()));
}

const ROOT_A: Dec = Dec {
    mant: 5_440_600_000_000,
    exp: -9,
};

fn are_read_of_galileo(alloc: Global) -> bool {
    let Some(file) = records_of_galileo(alloc) else {
        return false;
    };
    match last_of(&file) {
        Some(eph) => (eph.sat, eph.root_a) == (15, ROOT_A),
        None => false,
    }
}

#[test]
fn reads_records_of_galileo(rt: HostRuntime) {
    assert!(rt; are_read_of_galileo(rt.alloc()));
}
