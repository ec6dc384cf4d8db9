//! A session of two pairs, the ends of the ranges, the places of integers, and tables.
ghost use Rattle.std.specs.Prelude.{◌<◌, ◌≤◌};
ghost use Rattle.obs_rows.specs.Arcs.{free_count};

use gps_time::Tick;
use obs_rows::{
    Arc, ArcList, COARSE_SIGNALS, PairBuilder, PairRows, Row, SIGNALS_12, SIGNALS_15, SIGNALS_125,
    Session, SessionBuilder, Signals, are_arcs, fine_signals, has_its_arcs, has_used_rows,
    has_used_shifts, integer_count, integer_place, is_point,
};
use quadratic_form::{FactorTable, FormTable, FrontTable, MapTable, NormalTable};
use std::alloc::{AllocError, Global};
use std::test::Fail;

fn arc(sat: u8, datum: bool) -> Arc {
    Arc {
        sat,
        first: 0,
        last: 1,
        datum,
        shift: [1, -2, 0],
    }
}

// Two pairs of two satellites, where the phases on L1 are 2^18 units apart.
fn small_session(alloc: Global) -> Result<Option<Session>, AllocError> {
    let arcs = vec![in alloc; arc(3, true), arc(5, false)]?;
    let base = [63_781_370_000, 0, 0];
    let signals = Signals {
        l1: b'C',
        l2: b'W',
        l5: 0,
    };
    if !are_arcs(&arcs) || !is_point(&base) || !arcs.iter().all(|a| has_used_shifts(signals, a)) {
        return Ok(None);
    }
    let mut session = SessionBuilder::new(alloc, 0, b'G', base, base, signals, ArcList::new(arcs));
    for number in 0..2u32 {
        if !push_pair(alloc, &mut session, number)? {
            return Ok(None);
        }
    }
    if session.pairs.is_empty() {
        return Ok(None);
    }
    Ok(Some(session.finish()))
}

fn push_pair(alloc: Global, session: &mut SessionBuilder, number: u32) -> Result<bool, AllocError>
    requires { number < 3600 }
{
    let mut pair = PairBuilder::new(alloc, number, Tick(13_881_024_000_000_000), -7);
    for (arc, phase) in [(0u16, 262_144i64), (1, 0)] {
        let Some(row) = Row::new(arc, [phase, 0, 5, 6, 0, 0], 3, [1, 2, 3], [4, 5, 6]) else {
            return Ok(false);
        };
        if pair.rows.len() >= 15 || !pair.may_follow(arc) {
            return Ok(false);
        }
        pair.push(row)?;
    }
    if pair.rows.is_empty() {
        return Ok(false);
    }
    let pair = pair.finish();
    if !session.may_follow(pair.number)
        || !has_its_arcs(session.arcs.as_slice(), &pair)
        || !has_used_rows(fine_signals(session.signals), &pair)
    {
        return Ok(false);
    }
    session.push(pair)?;
    Ok(true)
}

// What of the small session isn't so.
fn session_fault(session: &Session) -> Option<&'static str> {
    let point = [63_781_370_000, 0, 0];
    let signals = Signals {
        l1: b'C',
        l2: b'W',
        l5: 0,
    };
    if (session.scale, session.base, session.point) != (0, point, point) {
        Some("the head")
    } else if session.signals != signals {
        Some("the signals")
    } else if session.arcs.as_slice() != [arc(3, true), arc(5, false)].as_slice() {
        Some("the arcs")
    } else if (session.pairs.len(), session.free()) != (2, 1) {
        Some("the counts")
    } else {
        None
    }
}

// Whether this is the pair of that number.
fn is_pair(pair: &PairRows, number: usize) -> bool {
    let second = Row::new(1, [0, 0, 5, 6, 0, 0], 3, [1, 2, 3], [4, 5, 6]);
    let head = (pair.number as usize, pair.tag, pair.group);
    head == (number, Tick(13_881_024_000_000_000), -7)
        && pair.rows.len() == 2
        && pair.rows.as_slice().get(1).copied() == second
}

fn are_pairs(session: &Session) -> bool {
    for (number, pair) in session.pairs.as_slice().iter().enumerate() {
        if !is_pair(pair, number) {
            return false;
        }
    }
    true
}

fn copied_session(alloc: Global) -> Result<Option<Session>, AllocError> {
    match small_session(alloc)? {
        Some(session) => Ok(Some(session.copy(alloc)?)),
        None => Ok(None),
    }
}

#[test]
fn copies_a_session(rt: HostRuntime) -> Result<(), Fail> {
    let copied = copied_session(rt.alloc())?.expect(&rt, "the session is in range");
    assert_eq!(rt; session_fault(&copied), None);
    assert!(rt; are_pairs(&copied));
    Ok(())
}

const MOST: i64 = 1 << 34;

// Observations, their radius, the direction, its radii, and whether they are in range.
static NUMBERS: [([i64; 6], i64, [i64; 3], [i64; 3], bool); 5] = [
    (
        [MOST, -MOST, 0, 0, 0, 0],
        1 << 20,
        [1 << 24, 0, 0],
        [0; 3],
        true,
    ),
    ([0, 0, MOST + 1, 0, 0, 0], 0, [0; 3], [0; 3], false),
    ([0; 6], -1, [0; 3], [0; 3], false),
    ([0; 6], 0, [0, 0, -16_777_217], [0; 3], false),
    ([0; 6], 0, [0; 3], [0, 0, 1_048_577], false),
];

#[test]
fn refuses_numbers_out_of_range(rt: HostRuntime) {
    for row in NUMBERS.iter() {
        let (y, ry, u, ru, is_in) = *row;
        assert!(rt; Row::new(0, y, ry, u, ru).is_some() == is_in);
    }
}

#[test]
fn refuses_arcs_out_of_range(rt: HostRuntime) {
    let last_after_first = Arc {
        last: 0,
        first: 1,
        ..arc(3, false)
    };
    for wrong in [
        arc(0, false),
        arc(37, false),
        last_after_first,
        arc(5, true),
    ] {
        assert!(rt; !are_arcs(&[arc(3, true), wrong]));
    }
    assert!(rt; !are_arcs(&[arc(3, false)]));
}

// An integer's place in a session of L1 and L2, of L1 and L5, and of all three bands.
type Places = (Option<usize>, Option<usize>, Option<usize>);

// An arc, a signal, and the places.
static PLACES: [(usize, usize, Places); 9] = [
    (0, 0, (Some(0), Some(0), Some(0))),
    (0, 1, (Some(1), None, Some(1))),
    (0, 4, (None, Some(1), Some(2))),
    (1, 0, (None, None, None)),
    (2, 0, (Some(2), Some(2), Some(3))),
    (2, 1, (Some(3), None, Some(4))),
    (2, 2, (None, None, None)),
    (2, 4, (None, Some(3), Some(5))),
    (2, 5, (None, None, None)),
];

fn places_of(arcs: &[Arc; 3], arc: usize, signal: usize) -> Places
    requires few { free_count arcs.now ≤ 200 }
    requires arc_in { arc < 3 }
{
    (
        integer_place(arcs, &SIGNALS_12, arc, signal),
        integer_place(arcs, &SIGNALS_15, arc, signal),
        integer_place(arcs, &SIGNALS_125, arc, signal),
    )
}

fn are_places(arcs: &[Arc; 3], row: &(usize, usize, Places)) -> bool
    requires { free_count arcs.now ≤ 200 }
{
    let (arc, signal, want) = *row;
    arc < 3 && places_of(arcs, arc, signal) == want
}

#[test]
fn places_integers(rt: HostRuntime) {
    let arcs = [arc(3, false), arc(5, true), arc(9, false)];
    for row in PLACES.iter() {
        assert!(rt; are_places(&arcs, row));
    }
}

#[test]
fn counts_integers(rt: HostRuntime) {
    let arcs = [arc(3, false), arc(5, true), arc(9, false)];
    let found = [
        integer_count(&arcs, &SIGNALS_12),
        integer_count(&arcs, &COARSE_SIGNALS),
        integer_count(&arcs, &SIGNALS_15),
        integer_count(&arcs, &SIGNALS_125),
    ];
    assert!(rt; found == [4, 0, 4, 6]);
}

#[test]
fn writes_one_entry(rt: HostRuntime) {
    let mut normal = NormalTable::zeros();
    normal.set(63, 2, -5);
    assert!(rt; (normal.at(63, 2), normal.at(2, 63), normal.at(63, 3)) == (-5, 0, 0));
    let mut factors = FactorTable::zeros();
    factors.set(63, 62, 6);
    assert!(rt; (factors.at(63, 62), factors.at(62, 62)) == (6, 0));
    let mut front = FrontTable::zeros();
    front.set(63, 2, 7);
    assert!(rt; (front.at(63, 2), front.at(63, 1)) == (7, 0));
    let mut form = FormTable::zeros();
    form.set(60, 0, 8);
    assert!(rt; (form.at(60, 0), form.at(0, 60)) == (8, 0));
    let mut map = MapTable::zeros();
    map.set(59, 1, 9);
    assert!(rt; (map.at(59, 1), map.at(1, 59)) == (9, 0));
}
