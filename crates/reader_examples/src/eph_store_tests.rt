//! Values of the public standard and of hand calculation.
use decimal_text::Dec;
use eph_store::{Eph, NavFile, Raw, Unfit};
use gps_time::Tick;
use std::alloc::{AllocError, Global};

const ZERO: Dec = Dec { mant: 0, exp: 0 };

const WEEK: Dec = Dec {
    mant: 2_295,
    exp: 0,
};

const HALF_WEEK: Dec = Dec {
    mant: 22_955,
    exp: -1,
};

const MOST_ROOT: Dec = Dec {
    mant: 6_000_000_000_000,
    exp: -9,
};

// Week 2295, second 86,400: 2024-01-01 00:00 is its tick 13,881,024,000,000,000.
fn record(sat: u8) -> Raw {
    Raw {
        sat,
        toc: Tick(13_881_024_000_000_000),
        af0: ZERO,
        af1: ZERO,
        af2: ZERO,
        crs: ZERO,
        dn: ZERO,
        m0: ZERO,
        cuc: ZERO,
        ecc: ZERO,
        cus: ZERO,
        root_a: Dec {
            mant: 51_536,
            exp: -1,
        },
        cic: ZERO,
        node: ZERO,
        cis: ZERO,
        incl: ZERO,
        crc: ZERO,
        peri: ZERO,
        node_rate: ZERO,
        incl_rate: ZERO,
        week: WEEK,
        toe_s: Dec { mant: 864, exp: 2 },
        health: ZERO,
    }
}

fn unfit(raw: &Raw) -> Option<Unfit> {
    Eph::of(raw).err()
}

#[test]
fn takes_usable_records(rt: HostRuntime) -> Result<(), Unfit> {
    let eph = Eph::of(&record(5))?;
    assert!(rt;
        eph.sat == 5 && eph.toe == Tick(13_881_024_000_000_000) && eph.toe_second == 86_400
    );
    assert!(rt;
        eph.root_a
            == Dec {
                mant: 51_536,
                exp: -1
            }
    );
    Ok(())
}

// The root of the axis, the rate of the clock's drift, the week and the health of a record, and what is said of it.
type Fields = (Dec, Dec, Dec, Dec, Option<Unfit>);

const FIELDS: [Fields; 5] = [
    (
        Dec {
            mant: 6_000_000_000_001,
            exp: -9,
        },
        ZERO,
        WEEK,
        ZERO,
        Some(Unfit::Range { field: 4 }),
    ),
    (MOST_ROOT, ZERO, WEEK, ZERO, None),
    (
        MOST_ROOT,
        Dec { mant: 1, exp: -11 },
        WEEK,
        ZERO,
        Some(Unfit::Range { field: 21 }),
    ),
    (
        MOST_ROOT,
        Dec { mant: 1, exp: -11 },
        HALF_WEEK,
        ZERO,
        Some(Unfit::Range { field: 1 }),
    ),
    (
        MOST_ROOT,
        Dec { mant: 1, exp: -11 },
        HALF_WEEK,
        Dec { mant: 1, exp: 0 },
        Some(Unfit::Unhealthy),
    ),
];

fn is_out_as(row: &Fields) -> bool {
    let (root_a, af2, week, health, want) = *row;
    let mut raw = record(5);
    raw.root_a = root_a;
    raw.af2 = af2;
    raw.week = week;
    raw.health = health;
    unfit(&raw) == want
}

#[test]
fn tells_what_is_out(rt: HostRuntime) {
    for row in FIELDS.iter() {
        assert!(rt; is_out_as(row));
    }
}

const ENDS: [(Dec, Option<Unfit>); 8] = [
    (
        Dec {
            mant: 3_125,
            exp: -5,
        },
        None,
    ),
    (
        Dec {
            mant: 31_250_000_000_001,
            exp: -15,
        },
        Some(Unfit::Range { field: 5 }),
    ),
    (
        Dec {
            mant: -1,
            exp: -999,
        },
        Some(Unfit::Range { field: 5 }),
    ),
    (
        Dec {
            mant: 999_999_999_999_999_999,
            exp: -999,
        },
        None,
    ),
    (Dec { mant: 1, exp: 999 }, Some(Unfit::Range { field: 5 })),
    (Dec { mant: 0, exp: 999 }, None),
    (
        Dec {
            mant: i64::MIN,
            exp: i32::MIN,
        },
        Some(Unfit::Range { field: 5 }),
    ),
    (
        Dec {
            mant: i64::MAX,
            exp: i32::MIN,
        },
        None,
    ),
];

#[test]
fn holds_the_ends(rt: HostRuntime) {
    for row in ENDS.iter() {
        let (ecc, want) = *row;
        let mut raw = record(5);
        raw.ecc = ecc;
        assert!(rt; unfit(&raw) == want);
    }
}

// Records of one satellite with these times.
fn file_of(alloc: Global, times: &[(i64, i64)]) -> Result<NavFile, AllocError> {
    let mut file = NavFile::new(alloc);
    for (week, second) in times {
        let mut raw = record(5);
        raw.week = Dec {
            mant: *week,
            exp: 0,
        };
        raw.toe_s = Dec {
            mant: *second,
            exp: 0,
        };
        raw.toc = Tick(tick(*week, *second));
        file.push(raw)?;
    }
    Ok(file)
}

fn tick(week: i64, second: i64) -> u64 {
    if (0..10_000).contains(&week) && (0..604_800).contains(&second) {
        (week as u64 * 604_800 + second as u64) * 10_000_000
    } else {
        0
    }
}

const TOE: u64 = 13_881_024_000_000_000;

const TWO_HOURS: u64 = 72_000_000_000;

const HALF: u64 = TOE + 36_000_000_000;

const LATER: u64 = TOE + 72_000_000_000;

const ONE: [(i64, i64); 1] = [(2_295, 86_400)];

const TWO: [(i64, i64); 2] = [(2_295, 86_400), (2_295, 93_600)];

const TURNED: [(i64, i64); 2] = [(2_295, 93_600), (2_295, 86_400)];

const LATE_IN_THE_WEEK: [(i64, i64); 1] = [(2_295, 601_200)];

// The records' times, the satellite, the tag, and the time of the record that is chosen. Half-way between two records' times
// the last one is. Second 0 of week 2296 is 3,600 s after second 601,200 of week 2295.
type Choice = (&'static [(i64, i64)], u8, u64, Option<u64>);

const CHOICES: [Choice; 9] = [
    (&ONE, 5, TOE + TWO_HOURS, Some(TOE)),
    (&ONE, 5, TOE + TWO_HOURS + 1, None),
    (&ONE, 5, TOE - TWO_HOURS, Some(TOE)),
    (&ONE, 5, TOE - TWO_HOURS - 1, None),
    (&ONE, 6, TOE, None),
    (&TWO, 5, HALF, Some(LATER)),
    (&TURNED, 5, HALF, Some(TOE)),
    (&TURNED, 5, HALF + 1, Some(LATER)),
    (
        &LATE_IN_THE_WEEK,
        5,
        13_886_208_000_000_000,
        Some(13_886_172_000_000_000),
    ),
];

// Whether all records are fit, and the one of that time is chosen.
fn chooses(alloc: Global, row: &Choice) -> Result<bool, AllocError> {
    let (times, sat, tag, want) = *row;
    let file = file_of(alloc, times)?;
    let found = file.choose(sat, Tick(tag)).map(|eph| eph.toe.0);
    Ok(file.fit().len() == times.len() && found == want)
}

#[test]
fn chooses_the_nearest(rt: HostRuntime) -> Result<(), AllocError> {
    for row in CHOICES.iter() {
        assert!(rt; chooses(rt.alloc(), row)?);
    }
    Ok(())
}

#[test]
fn leaves_out_what_is_unfit(rt: HostRuntime) -> Result<(), AllocError> {
    let mut file = file_of(rt.alloc(), &[(2_295, 86_400)])?;
    let mut ill = record(5);
    ill.health = Dec { mant: 63, exp: 0 };
    file.push(ill)?;
    assert!(rt; file.all().len() == 2 && file.fit().len() == 1);
    Ok(())
}
