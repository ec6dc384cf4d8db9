//! Pairs of epochs by their tags, and the signals that both files have.
ghost use Rattle.std.specs.Prelude.{◌≤◌};

use epoch_pair::{PairFault, PairOf, pair, signals, take};
use gps_time::Tick;
use obs_rows::{BANDS_L1_L2, BANDS_L1_L2_L5, BANDS_L1_L5, is_bands_number};
use obs_store::{Epoch, Epochs, ObsFile, ObsType, SLOTS, Satellites};
use std::alloc::{AllocError, Global};
use std::test::Fail;

// Adds an epoch without satellites, where it is later than the last.
fn add(alloc: Global, epochs: &mut Epochs, tag: u64) -> Result<(), AllocError> {
    if epochs.len() >= Epochs::MOST {
        return Ok(());
    }
    if let Some(last) = epochs.last_tag()
        && last.0 >= tag
    {
        return Ok(());
    }
    epochs.push(Epoch {
        tag: Tick(tag),
        power: false,
        sats: Satellites::new(alloc),
    })
}

fn file_of(alloc: Global, tags: &[u64]) -> Result<ObsFile, AllocError> {
    let mut epochs = Epochs::new(alloc);
    for &tag in tags {
        add(alloc, &mut epochs, tag)?;
    }
    Ok(ObsFile {
        hundredths: 304,
        position: None,
        delta: [0, 0, 0],
        listed: [false; SLOTS],
        epochs,
    })
}

const fn of(base: u32, rover: u32) -> PairOf {
    PairOf { base, rover }
}

// The pairs of two files with these tags.
fn pairs_of(alloc: Global, base: &[u64], rover: &[u64], gap: u64) -> Result<Vec<PairOf>, PairFault>
    requires { gap ≤ 5_000_000 }
{
    let Ok(base) = file_of(alloc, base) else {
        return Err(PairFault::NoMemory);
    };
    let Ok(rover) = file_of(alloc, rover) else {
        return Err(PairFault::NoMemory);
    };
    pair(alloc, &base, &rover, gap)
}

#[test]
fn pairs_by_tags(rt: HostRuntime) -> Result<(), Fail> {
    let pairs = pairs_of(rt.alloc(), &[100, 200, 300, 400], &[99, 205, 290, 420], 10)?;
    assert!(rt; pairs.as_slice() == [of(0, 0), of(1, 1), of(2, 2)].as_slice());
    let taken = take(rt.alloc(), &pairs, 1, 1, 5)?;
    assert!(rt; taken.as_slice() == [of(1, 1), of(2, 2)].as_slice());
    Ok(())
}

// With no gap only equal tags are pairs, and tags that rise by one are not too dense.
#[test]
fn pairs_equal_tags(rt: HostRuntime) -> Result<(), Fail> {
    let pairs = pairs_of(rt.alloc(), &[1, 2, 4], &[2, 3, 4], 0)?;
    assert!(rt; pairs.as_slice() == [of(1, 0), of(2, 2)].as_slice());
    Ok(())
}

// Whether the tags are too dense at the rover or at the base, and at which epoch.
fn dense(alloc: Global, base: &[u64], rover: &[u64]) -> Option<(bool, u32)> {
    match pairs_of(alloc, base, rover, 10) {
        Err(PairFault::Dense { rover, epoch }) => Some((rover, epoch)),
        _ => None,
    }
}

// A tag at 2·gap after the one before is too dense; the base is looked at first.
#[test]
fn refuses_dense_files(rt: HostRuntime) {
    let (wide, close) = ([100, 121], [50, 100, 120]);
    assert!(rt; dense(rt.alloc(), &wide, &close) == Some((true, 2)));
    assert!(rt; dense(rt.alloc(), &close, &close) == Some((false, 2)));
}

// 20,000 epochs, a second apart.
fn steady(alloc: Global, begin: u64) -> Result<ObsFile, AllocError> {
    let mut file = file_of(alloc, &[])?;
    for k in 0..20_000u32 {
        add(
            alloc,
            &mut file.epochs,
            begin % 1000 + 10_000_000 * u64::from(k),
        )?;
    }
    Ok(file)
}

// How many pairs the largest files have, and the last of them.
fn largest_pairs(alloc: Global) -> Option<(usize, Option<PairOf>)> {
    let base = steady(alloc, 0).ok()?;
    let rover = steady(alloc, 7).ok()?;
    let pairs = pair(alloc, &base, &rover, 100_000).ok()?;
    Some((pairs.len(), pairs.as_slice().last().copied()))
}

// The largest files are paired in one pass.
#[test]
fn pairs_the_largest_files(rt: HostRuntime) {
    let last = Some(of(19_999, 19_999));
    assert!(rt; largest_pairs(rt.alloc()) == Some((20_000, last)));
}

fn listing(alloc: Global, names: &[&str]) -> Result<ObsFile, AllocError> {
    let mut file = file_of(alloc, &[])?;
    for name in names {
        if let Some(kept) = ObsType::named(name.as_bytes()) {
            file.listed[kept.slot()] = true;
        }
    }
    Ok(file)
}

static NAMES: [&str; 14] = [
    "C1C", "L1C", "C1W", "L1W", "C2L", "L2L", "C2X", "L2X", "C2W", "C5I", "L5I", "C5X", "L5X",
    "C5Q",
];

// Bands, and their letters.
static LETTERS: [(u16, (u8, u8, u8)); 3] = [
    (12, (b'W', b'X', 0)),
    (15, (b'W', 0, b'X')),
    (125, (b'W', b'X', b'X')),
];

// The letters on these bands of a file with all these types and one with those from the third on.
fn letters_of(alloc: Global, bands: u16) -> Result<Option<(u8, u8, u8)>, AllocError> {
    if !is_bands_number(bands) {
        return Ok(None);
    }
    let base = listing(alloc, &NAMES)?;
    let rover = listing(alloc, &NAMES[2..])?;
    Ok(signals(&base, &rover, bands).map(|s| (s.l1, s.l2, s.l5)))
}

// L1 C is listed first but without a phase at the rover, and L2 X comes before L2 L and L5 X before L5 I whatever the order
// of listing. A band that isn't used has no letter.
#[test]
fn takes_the_first_common_letters(rt: HostRuntime) -> Result<(), Fail> {
    for row in LETTERS.iter() {
        assert!(rt; letters_of(rt.alloc(), row.0)? == Some(row.1));
    }
    Ok(())
}

// Types, of which L5 has at least one, and the letter on L5.
static ON_L5: [(&[&str], Option<u8>); 7] = [
    (
        &["C1C", "L1C", "C5I", "L5I", "C5X", "L5X", "C5Q", "L5Q"],
        Some(b'Q'),
    ),
    (
        &["C1C", "L1C", "C5I", "L5I", "C5X", "L5X", "C5Q"],
        Some(b'X'),
    ),
    (&["C1C", "L1C", "C5I", "L5I", "C5X", "L5X"], Some(b'X')),
    (&["C1C", "L1C", "C5I", "L5I", "C5X"], Some(b'I')),
    (&["C1C", "L1C", "C5I", "L5I"], Some(b'I')),
    (&["C1C", "L1C", "C5I"], None),
    (&["C1C", "L1C"], None),
];

// The letter on L5 of files with these types, and whether there are letters on L2 and on all bands.
fn letters_with(alloc: Global, names: &[&str]) -> Result<(Option<u8>, bool, bool), AllocError> {
    let file = listing(alloc, names)?;
    let on_l5 = signals(&file, &file, BANDS_L1_L5).map(|s| s.l5);
    let on_l2 = signals(&file, &file, BANDS_L1_L2).is_some();
    let on_all = signals(&file, &file, BANDS_L1_L2_L5).is_some();
    Ok((on_l5, on_l2, on_all))
}

// On L5 the letters are tried in the order Q, X, I, and each band that is used needs one.
#[test]
fn each_band_needs_a_letter(rt: HostRuntime) -> Result<(), Fail> {
    for row in ON_L5.iter() {
        assert!(rt; letters_with(rt.alloc(), row.0)? == (row.1, false, false));
    }
    Ok(())
}
