//! A file with a record of GPS and one of another system, and one with as many as there may be.
use crate::texts::{MOST, push_lines, with_returns};
use decimal_text::Dec;
use eph_store::{Eph, NavFile, Raw, Unfit};
use gps_time::Tick;
use rinex_nav::{NavFault, read_nav};
use std::alloc::{AllocError, Global};
use std::test::Fail;

// The last line ends after the transmission time.
const LINES: [&str; 10] = [
    "     3.04           N: GNSS NAV DATA    M: MIXED            RINEX VERSION / TYPE",
    "                                                            END OF HEADER       ",
    "G05 2024 01 01 00 00 00-1.000000000000D-05 1.000000000000D-12 0.000000000000D+00",
    "     0.000000000000D+00 2.500000000000D+01 4.500000000000D-09 0.500000000000D+00",
    "     1.000000000000D-06 5.000000000000D-03 0.000000000000D+00 5.153600000000D+03",
    "     8.640000000000D+04 0.000000000000D+00-2.000000000000D+00 0.000000000000D+00",
    "     9.600000000000D-01 2.000000000000D+02 1.000000000000D+00-8.000000000000D-09",
    "     0.000000000000D+00 1.000000000000D+00 2.295000000000D+03 0.000000000000D+00",
    "     2.000000000000D+00 0.000000000000D+00 0.000000000000D+00 5.000000000000D+00",
    "     7.900000000000D+04",
];

// Each number says its line and its place in it. Fields that aren't read hold no numbers.
const NUMBERED: [&str; 8] = [
    "G 7 2024  1  1  0  0  01.1                -1.2                +1.3",
    "    not read           22                 23                 24                 past",
    "    31D2               32d+02             33E+2              34e002",
    "    41D-999            42D+999            43D-9              -44D+9",
    "    51                 52                 53                 54",
    "    61                 not read           63                 not read",
    "    not read           72                 not read           not read",
    " not read",
];

// The first `count` lines, with another one at the place `at` from 0.
fn text_of(alloc: Global, count: usize, at: usize, other: &str) -> Result<String, AllocError> {
    let mut text = String::new(alloc);
    for (k, line) in LINES[..count.min(10)].iter().enumerate() {
        text.push_str(if k == at { other } else { *line })?;
        text.push('\n')?;
    }
    Ok(text)
}

// The header, and these lines.
fn with_header(alloc: Global, lines: &[&str]) -> Result<String, AllocError> {
    let mut text = text_of(alloc, 2, 2, "")?;
    push_lines(&mut text, lines)?;
    Ok(text)
}

fn read(alloc: Global, text: &str) -> Result<NavFile, NavFault> {
    if text.len() > MOST {
        return Err(NavFault::NoMemory);
    }
    read_nav(alloc, text.as_bytes())
}

fn dec(mant: i64, exp: i32) -> Dec {
    Dec { mant, exp }
}

const OTHER_SYSTEM: [&str; 3] = [
    "",
    "R01 2024 01 01 00 00 00 anything",
    "     and anything behind it",
];

// The record after one of another system.
fn two_systems(alloc: Global) -> Result<NavFile, NavFault> {
    let mut text = with_header(alloc, &OTHER_SYSTEM)?;
    push_lines(&mut text, &LINES[2..])?;
    read(alloc, &text)
}

fn is_the_record(eph: &Eph) -> bool {
    let numbers = [
        dec(-1_000_000_000_000, -17),
        dec(2_500_000_000_000, -11),
        dec(5_153_600_000_000, -9),
        dec(-8_000_000_000_000, -21),
    ];
    eph.toc == Tick(13_881_024_000_000_000)
        && eph.toe_second == 86_400
        && [eph.af0, eph.crs, eph.root_a, eph.node_rate] == numbers
}

// Whether the record is chosen at its own time.
fn chooses_the_record(file: &NavFile) -> bool {
    match file.choose(5, Tick(13_881_024_000_000_000)) {
        Some(eph) => is_the_record(eph),
        None => false,
    }
}

#[test]
fn reads_a_record(rt: HostRuntime) -> Result<(), Fail> {
    let file = two_systems(rt.alloc())?;
    assert!(rt; file.all().len() == 1 && file.fit().len() == 1);
    assert!(rt; chooses_the_record(&file));
    Ok(())
}

// What is said of the first record.
fn fault_of(file: &NavFile) -> Option<Unfit> {
    Eph::of(file.all().first()?).err()
}

#[test]
fn keeps_a_record_out_of_range(rt: HostRuntime) -> Result<(), Fail> {
    let line = "     1.000000000000D-06 5.000000000000D-03 0.000000000000D+00  6000.000000001    ";
    let text = text_of(rt.alloc(), 10, 4, line)?;
    let file = read(rt.alloc(), &text)?;
    assert!(rt; file.fit().is_empty() && fault_of(&file) == Some(Unfit::Range { field: 4 }));
    Ok(())
}

// The numbers of a record in the order of its lines.
fn numbers_of(raw: &Raw) -> [Dec; 21] {
    [
        raw.af0,
        raw.af1,
        raw.af2,
        raw.crs,
        raw.dn,
        raw.m0,
        raw.cuc,
        raw.ecc,
        raw.cus,
        raw.root_a,
        raw.toe_s,
        raw.cic,
        raw.node,
        raw.cis,
        raw.incl,
        raw.crc,
        raw.peri,
        raw.node_rate,
        raw.incl_rate,
        raw.week,
        raw.health,
    ]
}

// Those of `NUMBERED`.
const NUMBERS: [(i64, i32); 21] = [
    (11, -1),
    (-12, -1),
    (13, -1),
    (22, 0),
    (23, 0),
    (24, 0),
    (31, 2),
    (32, 2),
    (33, 2),
    (34, 2),
    (41, -999),
    (42, 999),
    (43, -9),
    (-44, 9),
    (51, 0),
    (52, 0),
    (53, 0),
    (54, 0),
    (61, 0),
    (63, 0),
    (72, 0),
];

// The first of the numbers that the record doesn't have.
fn missing_number(raw: &Raw) -> Option<Dec> {
    for (found, (mant, exp)) in numbers_of(raw).iter().zip(NUMBERS.iter()) {
        if *found != dec(*mant, *exp) {
            return Some(dec(*mant, *exp));
        }
    }
    None
}

// Whether there is one record, of satellite 7, with these numbers.
fn has_the_numbers(records: &[Raw]) -> bool {
    match records {
        [raw] => raw.sat == 7 && missing_number(raw).is_none(),
        _ => false,
    }
}

#[test]
fn reads_each_number(rt: HostRuntime) -> Result<(), Fail> {
    let text = with_header(rt.alloc(), &NUMBERED)?;
    let file = read(rt.alloc(), &text)?;
    assert!(rt; has_the_numbers(file.all()) && file.fit().is_empty());
    Ok(())
}

// As many records as a file may have.
fn text_of_4096_records(alloc: Global) -> Result<String, AllocError> {
    let mut text = with_header(alloc, &[])?;
    let record = &LINES[2..];
    for _ in 0..4_096 {
        push_lines(&mut text, record)?;
    }
    Ok(text)
}

#[test]
fn reads_4096_records(rt: HostRuntime) -> Result<(), Fail> {
    let text = text_of_4096_records(rt.alloc())?;
    let file = read(rt.alloc(), &text)?;
    assert!(rt; file.all().len() == 4_096 && file.fit().len() == 4_096);
    Ok(())
}

#[test]
fn reads_lines_with_returns(rt: HostRuntime) -> Result<(), Fail> {
    let text = text_of(rt.alloc(), 10, 10, "")?;
    let returns = with_returns(rt.alloc(), &text)?;
    let file = read(rt.alloc(), &returns)?;
    assert!(rt; file.fit().len() == 1);
    Ok(())
}
