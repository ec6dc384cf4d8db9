//! The types of observations, and epochs in order.
use gps_time::Tick;
use obs_store::{Epoch, Epochs, ObsFile, ObsType, SLOTS, SatObs, Satellites};
use std::alloc::{AllocError, Global};

const SLOTS_BY_NAME: [(&str, usize); 8] = [
    ("C1C", 0),
    ("L1L", 9),
    ("C2W", 10),
    ("C2C", 14),
    ("L2W", 15),
    ("L2C", 19),
    ("C5Q", 20),
    ("L5I", 25),
];

const NO_NAMES: [&str; 5] = ["C1P", "L5P", "c1c", "C1C ", ""];

fn slot_of(name: &str) -> Option<usize> {
    Some(ObsType::named(name.as_bytes())?.slot())
}

#[test]
fn names_and_slots(rt: HostRuntime) {
    for row in SLOTS_BY_NAME.iter() {
        let (name, slot) = *row;
        assert!(rt; slot_of(name) == Some(slot));
    }
    for name in NO_NAMES.iter() {
        assert!(rt; ObsType::named(name.as_bytes()).is_none());
    }
}

fn only_5(alloc: Global) -> Result<Satellites, AllocError> {
    let mut sats = Satellites::new(alloc);
    sats.push(SatObs::missing(5))?;
    Ok(sats)
}

fn one_epoch(alloc: Global, tag: Tick, sats: Satellites) -> Result<Epochs, AllocError> {
    let mut epochs = Epochs::new(alloc);
    epochs.push(Epoch {
        tag,
        power: false,
        sats,
    })?;
    Ok(epochs)
}

fn are_none(epochs: &Epochs) -> bool {
    epochs.len() == 0 && epochs.last_tag().is_none()
}

fn are_one(epochs: &Epochs, tag: Tick) -> bool {
    epochs.len() == 1 && epochs.tag_at(0) == tag && epochs.last_tag() == Some(tag)
}

#[test]
fn holds_epochs(rt: HostRuntime) -> Result<(), AllocError> {
    let tag = Tick(13_881_024_000_000_000);
    assert!(rt; are_none(&Epochs::new(rt.alloc())));
    let sats = only_5(rt.alloc())?;
    assert!(rt; sats.has(5) && !sats.has(6));
    let epochs = one_epoch(rt.alloc(), tag, sats)?;
    assert!(rt; are_one(&epochs, tag));
    Ok(())
}

// Satellites 5 and 32, and then 12 and 5.
fn two_epochs(alloc: Global) -> Result<Epochs, AllocError> {
    let mut epochs = Epochs::new(alloc);
    let mut first = Satellites::new(alloc);
    first.push(SatObs::missing(5))?;
    first.push(SatObs::missing(32))?;
    epochs.push(Epoch {
        tag: Tick(13_881_024_000_000_000),
        power: false,
        sats: first,
    })?;
    let mut second = Satellites::new(alloc);
    second.push(SatObs::missing(12))?;
    second.push(SatObs::missing(5))?;
    epochs.push(Epoch {
        tag: Tick(13_881_024_300_000_000),
        power: true,
        sats: second,
    })?;
    Ok(epochs)
}

fn file_of(epochs: Epochs) -> ObsFile {
    ObsFile {
        hundredths: 304,
        position: None,
        delta: [0, 0, 0],
        listed: [false; SLOTS],
        epochs,
    }
}

#[test]
fn counts_satellites(rt: HostRuntime) -> Result<(), AllocError> {
    let file = file_of(two_epochs(rt.alloc())?);
    let seen = file.seen(rt.alloc())?;
    for (at, (number, count)) in [(5, 2), (32, 1), (12, 1)].iter().enumerate() {
        assert!(rt; seen.get_index(at) == Some((number, count)));
    }
    assert!(rt; seen.get_index(3).is_none());
    Ok(())
}
