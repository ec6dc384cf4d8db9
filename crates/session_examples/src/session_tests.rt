//! What two files begin with, and the answer over arcs.
use eph_store::NavFile;
use gps_time::Tick;
use obs_rows::is_bands_number;
use obs_store::{Epoch, Epochs, ObsFile, ObsType, SLOTS, Satellites};
use session::{
    Answer, Options, Outcome, PairWhat, SessionFault, SessionStart, process, session_start,
};
use std::alloc::{AllocError, Global};

const ON_GROUND: Option<[i64; 3]> = Some([63_781_370_000, 0, 0]);

// Adds an epoch without satellites, where it is later than the last.
fn add(alloc: Global, epochs: &mut Epochs, tag: u64) -> Result<(), AllocError> {
    if epochs.len() >= Epochs::MOST {
        return Ok(());
    }
    if let Some(last) = epochs.last_tag()
        && last.0 >= tag
    {
        return Ok(());
    }
    epochs.push(Epoch {
        tag: Tick(tag),
        power: false,
        sats: Satellites::new(alloc),
    })
}

fn file_of(
    alloc: Global,
    position: Option<[i64; 3]>,
    types: &[&str],
    tags: &[u64],
) -> Result<ObsFile, AllocError> {
    let mut epochs = Epochs::new(alloc);
    for &tag in tags {
        add(alloc, &mut epochs, tag)?;
    }
    let mut listed = [false; SLOTS];
    for name in types {
        if let Some(kind) = ObsType::named(name.as_bytes()) {
            listed[kind.slot()] = true;
        }
    }
    Ok(ObsFile {
        hundredths: 304,
        position,
        delta: [0, 0, 0],
        listed,
        epochs,
    })
}

const ALL: [&str; 4] = ["C1C", "L1C", "C2W", "L2W"];

const ONE_BAND: [&str; 3] = ["C1C", "L1C", "C2W"];

// Why a base with this position, these types and these tags is refused, with a rover at 0 s, 30 s and 60 s.
fn refusal(
    alloc: Global,
    position: Option<[i64; 3]>,
    types: &[&str],
    tags: &[u64],
) -> Result<Option<SessionFault>, AllocError> {
    let base = file_of(alloc, position, types, tags)?;
    let rover = file_of(alloc, None, &ALL, &[0, 300_000_000, 600_000_000])?;
    Ok(session_start(alloc, &base, &rover, &Options::defaults()).err())
}

const NO_POSITION: Option<SessionFault> = Some(SessionFault::Refused(PairWhat::NoBasePosition));

const NO_SIGNAL: Option<SessionFault> = Some(SessionFault::Refused(PairWhat::NoSignal));

const TOO_DENSE: Option<SessionFault> = Some(SessionFault::Refused(PairWhat::Dense {
    rover: false,
    epoch: 1,
}));

const FAR: Option<[i64; 3]> = Some([63_781_370_000, 63_781_370_000, 0]);

const DENSE: [u64; 2] = [10, 200_010];

const SPARSE: [u64; 2] = [10, 200_011];

// A base's position, types and tags, and why it is refused.
type RefusedBase = (
    Option<[i64; 3]>,
    &'static [&'static str],
    [u64; 2],
    Option<SessionFault>,
);

static REFUSALS: [RefusedBase; 5] = [
    (None, &ONE_BAND, DENSE, NO_POSITION),
    (FAR, &ALL, SPARSE, NO_POSITION),
    (ON_GROUND, &ONE_BAND, DENSE, NO_SIGNAL),
    (ON_GROUND, &ALL, DENSE, TOO_DENSE),
    (ON_GROUND, &ALL, SPARSE, None),
];

fn is_refused(alloc: Global, row: &RefusedBase) -> bool {
    match refusal(alloc, row.0, row.1, &row.2) {
        Ok(found) => found == row.3,
        Err(_) => false,
    }
}

#[test]
fn refuses_in_order(rt: HostRuntime) {
    for row in REFUSALS.iter() {
        assert!(rt; is_refused(rt.alloc(), row));
    }
}

const L1_L5: [&str; 4] = ["C1C", "L1C", "C5Q", "L5Q"];

const NO_L5_PHASE: [&str; 5] = ["C1C", "L1C", "C2W", "L2W", "C5Q"];

const THREE_BANDS: [&str; 6] = ["C1C", "L1C", "C2W", "L2W", "C5X", "L5X"];

// The letters with which a run on these bands begins, where both files list these types, or why it doesn't begin.
fn letters_on(
    alloc: Global,
    bands: u16,
    types: &[&str],
) -> Result<Result<[u8; 3], Option<SessionFault>>, AllocError> {
    let tags = [0, 300_000_000];
    let base = file_of(alloc, ON_GROUND, types, &tags)?;
    let rover = file_of(alloc, None, types, &tags)?;
    if !is_bands_number(bands) {
        return Ok(Err(None));
    }
    let mut options = Options::defaults();
    options.bands = bands;
    match session_start(alloc, &base, &rover, &options) {
        Ok(begun) => Ok(Ok([begun.signals.l1, begun.signals.l2, begun.signals.l5])),
        Err(fault) => Ok(Err(Some(fault))),
    }
}

const NONE: Result<[u8; 3], Option<SessionFault>> = Err(NO_SIGNAL);

// Types, bands, and the letters, where each band has one.
type Letters = (
    &'static [&'static str],
    u16,
    Result<[u8; 3], Option<SessionFault>>,
);

static LETTERS: [Letters; 12] = [
    (&ALL, 12, Ok([b'C', b'W', 0])),
    (&ALL, 15, NONE),
    (&ALL, 125, NONE),
    (&L1_L5, 12, NONE),
    (&L1_L5, 15, Ok([b'C', 0, b'Q'])),
    (&L1_L5, 125, NONE),
    (&NO_L5_PHASE, 12, Ok([b'C', b'W', 0])),
    (&NO_L5_PHASE, 15, NONE),
    (&NO_L5_PHASE, 125, NONE),
    (&THREE_BANDS, 12, Ok([b'C', b'W', 0])),
    (&THREE_BANDS, 15, Ok([b'C', 0, b'X'])),
    (&THREE_BANDS, 125, Ok([b'C', b'W', b'X'])),
];

fn has_letters(alloc: Global, row: &Letters) -> bool {
    match letters_on(alloc, row.1, row.0) {
        Ok(found) => found == row.2,
        Err(_) => false,
    }
}

#[test]
fn each_band_of_the_options_needs_a_code(rt: HostRuntime) {
    for row in LETTERS.iter() {
        assert!(rt; has_letters(rt.alloc(), row));
    }
}

// A run over two files of these tags that takes every second pair, from the second on.
fn begun_on(alloc: Global, tags: &[u64]) -> Result<Option<SessionStart>, AllocError> {
    let base = file_of(alloc, ON_GROUND, &ALL, tags)?;
    let rover = file_of(alloc, None, &ALL, tags)?;
    let mut options = Options::defaults();
    options.first = 1;
    options.step = 2;
    Ok(session_start(alloc, &base, &rover, &options).ok())
}

// Whether a run begins on the ground with five pairs, of which it takes the second and the fourth.
fn takes_two_of_five(begun: &SessionStart) -> bool {
    let signals = begun.signals;
    if (signals.l1, signals.l2, begun.all) != (b'C', b'W', 5) {
        return false;
    }
    match begun.taken.as_slice() {
        [first, second] => {
            let pairs = [first.base, first.rover, second.base, second.rover];
            Some(begun.position) == ON_GROUND && pairs == [1, 1, 3, 3]
        }
        _ => false,
    }
}

const FIVE_TAGS: [u64; 5] = [0, 300_000_000, 600_000_000, 900_000_000, 1_200_000_000];

fn is_begun(alloc: Global) -> bool {
    match begun_on(alloc, &FIVE_TAGS) {
        Ok(Some(begun)) => takes_two_of_five(&begun),
        _ => false,
    }
}

#[test]
fn begins_with_the_taken_pairs(rt: HostRuntime) {
    assert!(rt; is_begun(rt.alloc()));
}

const THREE_TAGS: [u64; 3] = [0, 300_000_000, 600_000_000];

// What a run over these files without records ends with.
fn without_records(
    alloc: Global,
    base: &ObsFile,
    rover: &ObsFile,
) -> Result<Outcome, SessionFault> {
    let nav = NavFile::new(alloc);
    process(alloc, base, rover, &nav, &Options::defaults())
}

// Whether no satellite is used of three pairs with an antenna off its mark.
fn has_few(outcome: &Outcome) -> bool {
    let counts = (outcome.taken, outcome.all, outcome.kept, outcome.delta);
    counts == (3, 3, 0, true) && matches!(&outcome.answer, Answer::Few { pairs: 3 })
}

// Whether a run without records ends so, and is refused with its files exchanged, of which the second has no position.
fn ends_without_records(alloc: Global) -> Result<bool, AllocError> {
    let base = file_of(alloc, ON_GROUND, &ALL, &THREE_TAGS)?;
    let mut rover = file_of(alloc, None, &ALL, &THREE_TAGS)?;
    rover.delta[0] = 1;
    let is_few = match without_records(alloc, &base, &rover) {
        Ok(outcome) => has_few(&outcome),
        Err(_) => false,
    };
    Ok(is_few && without_records(alloc, &rover, &base).err() == NO_POSITION)
}

#[test]
fn few_without_records(rt: HostRuntime) {
    assert!(rt; matches!(ends_without_records(rt.alloc()), Ok(true)));
}
