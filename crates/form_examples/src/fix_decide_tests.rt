//! Upper sums and decisions of an independent model.
ghost use Rattle.std.specs.Prelude.{◌↔◌, IsTrue, All};
ghost use Rattle.obs_rows.specs.Ranges.{IsBelow};

use crate::drawn_sessions::{Case, Made, drawn_session, later_session, signals_of};
use crate::row_numbers::{NoSession, arc, empty_pair, push_row, with_rows};
use elimination::finish;
use fix_decide::{Decision, decide, integer_of, is_separated, pair_upper, upper_sum};
use int_search::two_best;
use integer_form::{Form, FrontForm, Overwidth, Place};
use lower_form::lower;
use normal_sum::sum;
use obs_rows::{
    Arc, PairRows, Row, SIGNALS, Session, fine_signals, free_arcs, has_its_arcs, integer_count,
};
use quadratic_form::FormTable;
use std::alloc::{AllocError, Global};

// Whether all are below the limit in size.
fn are_below(numbers: &[i64], limit: u64) -> bool
    ensures { IsTrue result ↔ All (IsBelow limit) numbers.now }
{
    numbers.iter().all(|n| n.unsigned_abs() < limit)
}

// T, or None where the call isn't allowed.
fn upper_of(
    session: &Session,
    form: &Form,
    z: &[i64],
    moved: &[i64; 3],
) -> Option<Result<i128, Overwidth>> {
    let arcs = session.arcs.as_slice();
    if session.scale != 0 || z.len() != integer_count(arcs, fine_signals(session.signals)) {
        return None;
    }
    if !are_below(z, 1 << 30) || !are_below(moved, 1 << 46) {
        return None;
    }
    Some(upper_sum(session, form, z, moved))
}

// A session with what an independent model says of it: the exponent of its form, its upper sums at the integers and the
// move that it was made with and where the first integer is one greater, and the decision at a ratio of 2000.
struct Known {
    case: Case,
    h: u32,
    upper: i128,
    other: i128,
    fixed: bool,
    moved: [i64; 3],
    top: i128,
}

static KNOWN: [Known; 7] = [
    Known {
        case: Case {
            seed: 1,
            arcs: 4,
            pairs: 3,
            noise: 1 << 19,
            ry: 600,
            bands: 12,
        },
        h: 44,
        upper: 440_289_041,
        other: 60_447_456_497,
        fixed: true,
        moved: [-7100, 15_007, 5484],
        top: 325_869_185,
    },
    Known {
        case: Case {
            seed: 2,
            arcs: 5,
            pairs: 5,
            noise: 1 << 20,
            ry: 900,
            bands: 12,
        },
        h: 44,
        upper: 3_501_848_061,
        other: 112_676_277_052,
        fixed: true,
        moved: [15_603, -16_326, -15_337],
        top: 3_348_472_212,
    },
    Known {
        case: Case {
            seed: 3,
            arcs: 6,
            pairs: 4,
            noise: 1 << 22,
            ry: 130_000,
            bands: 15,
        },
        h: 46,
        upper: 13_327_320_746,
        other: 28_543_558_877,
        fixed: false,
        moved: [11_658, -10_076, 48],
        top: 12_145_296_873,
    },
    Known {
        case: Case {
            seed: 4,
            arcs: 8,
            pairs: 6,
            noise: 1 << 21,
            ry: 600,
            bands: 15,
        },
        h: 47,
        upper: 2_803_490_870,
        other: 17_727_372_585,
        fixed: true,
        moved: [-3308, 3237, 14_593],
        top: 2_695_687_092,
    },
    Known {
        case: Case {
            seed: 5,
            arcs: 15,
            pairs: 3,
            noise: 1 << 20,
            ry: 1024,
            bands: 12,
        },
        h: 47,
        upper: 682_747_568,
        other: 9_843_756_875,
        fixed: true,
        moved: [19_230, -19_543, -6666],
        top: 670_926_837,
    },
    Known {
        case: Case {
            seed: 7,
            arcs: 8,
            pairs: 6,
            noise: 1 << 20,
            ry: 800,
            bands: 125,
        },
        h: 47,
        upper: 1_104_245_130,
        other: 19_679_900_421,
        fixed: true,
        moved: [-1429, -8574, -12_780],
        top: 1_081_457_431,
    },
    Known {
        case: Case {
            seed: 6,
            arcs: 4,
            pairs: 12,
            noise: 8_000_000,
            ry: 700,
            bands: 12,
        },
        h: 45,
        upper: 155_067_877_311,
        other: 233_077_442_633,
        fixed: false,
        moved: [21_029, -17_998, 9968],
        top: 152_806_064_339,
    },
];

// What of the sums of a known session isn't as wanted. The first integer is left one greater.
fn upper_fault(made: &mut Made, known: &Known) -> Option<&'static str> {
    let Ok(form) = lower(&sum(&made.session)) else {
        return Some("no form");
    };
    if form.h != known.h {
        return Some("the exponent");
    }
    if upper_of(&made.session, &form, &made.z, &made.moved) != Some(Ok(known.upper)) {
        return Some("the upper sum");
    }
    let Some(first) = made.z.first_mut() else {
        return Some("no integer");
    };
    *first = first.wrapping_add(1);
    if upper_of(&made.session, &form, &made.z, &made.moved) != Some(Ok(known.other)) {
        return Some("the sum of one more");
    }
    None
}

#[test]
fn upper_sums_of_seven_sessions(rt: HostRuntime) -> Result<(), NoSession> {
    for known in KNOWN.iter() {
        let mut made = drawn_session(rt.alloc(), known.case)?;
        assert!(rt; upper_fault(&mut made, known).is_none());
    }
    Ok(())
}

// The decision from the rows alone, or None where there is none.
fn decision_of(session: &Session, ratio: u32) -> Option<Result<Decision, Overwidth>> {
    if session.scale != 0 || ratio < 1000 || ratio > 100_000 {
        return None;
    }
    let normal = sum(session);
    let Ok(form) = lower(&normal) else {
        return None;
    };
    if form.columns <= 4 {
        return None;
    }
    let Ok(best) = two_best(&form, 1_000_000) else {
        return None;
    };
    Some(decide(session, &form, &best, ratio))
}

// What of the decision of a known session isn't as wanted. The least integers are those that it was made with.
fn decision_fault(made: &Made, known: &Known) -> Option<&'static str> {
    let Some(Ok(decision)) = decision_of(&made.session, 2000) else {
        return Some("no decision");
    };
    if (decision.fixed, decision.moved, decision.top) != (known.fixed, known.moved, known.top) {
        Some("the decision")
    } else if decision.best.first.get(..decision.best.size) != Some(made.z.as_slice()) {
        Some("the integers")
    } else {
        None
    }
}

#[test]
fn decides_seven_sessions(rt: HostRuntime) -> Result<(), NoSession> {
    for known in KNOWN.iter() {
        let made = drawn_session(rt.alloc(), known.case)?;
        assert!(rt; decision_fault(&made, known).is_none());
    }
    Ok(())
}

// Whether the last session is fixed by a ratio.
fn is_fixed_by(session: &Session, ratio: u32) -> Option<bool> {
    match decision_of(session, ratio) {
        Some(Ok(decision)) => Some(decision.fixed),
        _ => None,
    }
}

// The values of the last session are 1.40663 apart.
#[test]
fn a_ratio_decides(rt: HostRuntime) -> Result<(), NoSession> {
    let made = drawn_session(rt.alloc(), KNOWN[6].case)?;
    for (ratio, fixed) in [(1000, true), (1406, true), (1407, false), (100_000, false)] {
        assert!(rt; is_fixed_by(&made.session, ratio) == Some(fixed));
    }
    Ok(())
}

// 64 · 2000 · 23 is 2,944,000.
#[test]
fn a_tie_is_not_separated(rt: HostRuntime) {
    assert!(rt; is_separated(2000, 23, 3000) && !is_separated(2000, 23, 2944));
}

// Whether there are two least vectors, and the decision of a session is too wide, and where.
fn width_of(session: &Session) -> Option<Result<(), Place>> {
    match decision_of(session, 2000)? {
        Ok(_) => Some(Ok(())),
        Err(e) => Some(Err(e.place)),
    }
}

// The same with a clock of `by` units that all rows share.
fn width_with(
    alloc: Global,
    session: &Session,
    by: i64,
) -> Result<Option<Result<(), Place>>, NoSession> {
    Ok(width_of(&later_session(alloc, session, by)?))
}

// A clock that all rows share doesn't change the form. 2^33 units of it leave the upper sum no room.
#[test]
fn a_great_clock_is_too_wide(rt: HostRuntime) -> Result<(), NoSession> {
    let made = drawn_session(rt.alloc(), KNOWN[0].case)?;
    assert!(rt; width_with(rt.alloc(), &made.session, 1 << 32)? == Some(Ok(())));
    assert!(rt; width_with(rt.alloc(), &made.session, 1 << 33)? == Some(Err(Place::Sum)));
    Ok(())
}

// Fifteen rows whose residuals may lie as far from 0 as any, on both sides in turn.
fn widest_pair(alloc: Global) -> Result<PairRows, NoSession> {
    let mut pair = empty_pair(alloc, 0)?;
    for k in 0..15u16 {
        let y = (1 << 33) - 2;
        let y = if k % 2 == 0 { y } else { -y };
        push_row(
            &mut pair,
            Row::new(k, [y; SIGNALS], 0, [1 << 24; 3], [1 << 20; 3]),
        )?;
    }
    with_rows(pair)
}

fn one_row(alloc: Global, y: i64, ry: i64) -> Result<PairRows, NoSession> {
    let mut pair = empty_pair(alloc, 0)?;
    let row = Row::new(1, [0, 0, 0, 0, 0, y], ry, [-(1 << 24); 3], [1 << 20; 3]);
    push_row(&mut pair, row)?;
    with_rows(pair)
}

fn arcs_of(alloc: Global, count: u8) -> Result<Vec<Arc>, AllocError> {
    let mut arcs = Vec::new(alloc);
    for k in 0..count {
        arcs.push(arc(k.wrapping_add(1), k != 1, 0))?;
    }
    Ok(arcs)
}

// U, or None where the call isn't allowed.
fn pair_of(
    arcs: &[Arc],
    pair: &PairRows,
    z: &[i64],
    moved: &[i64; 3],
) -> Option<Result<i128, Overwidth>> {
    let signals = signals_of(125);
    if free_arcs(arcs) > 20 || z.len() != integer_count(arcs, fine_signals(signals)) {
        return None;
    }
    if !has_its_arcs(arcs, pair) || !are_below(z, 1 << 30) || !are_below(moved, 1 << 46) {
        return None;
    }
    Some(pair_upper(arcs, signals, pair, z, moved))
}

const TOO_WIDE: Option<Result<i128, Overwidth>> = Some(Err(Overwidth { place: Place::Sum }));

// Integers, a move, and the sum of the widest pair there: 56 · (2^34 - 2)² + 49 · 2², times 24024 · (3 · 10000 + 3 · 1). A cycle
// toward 0 is well, and a cycle more is too far, as the greatest numbers are.
static OF_THE_WIDEST: [([i64; 3], i64, Option<Result<i128, Overwidth>>); 7] = [
    (
        [0; 3],
        0,
        Some(Ok(11_913_455_123_984_556_853_194_966_562_080)),
    ),
    (
        [0, -1, 0],
        0,
        Some(Ok(11_912_497_769_817_028_148_149_667_362_080)),
    ),
    (
        [0, 0, -1],
        0,
        Some(Ok(11_912_456_177_840_598_478_112_736_802_080)),
    ),
    ([1, 0, 0], 0, TOO_WIDE),
    ([0, 0, 1], 0, TOO_WIDE),
    ([(1 << 30) - 1, 1 - (1 << 30), 0], (1 << 46) - 1, TOO_WIDE),
    ([1 - (1 << 30), 0, (1 << 30) - 1], 1 - (1 << 46), TOO_WIDE),
];

#[test]
fn widest_pair_has_a_sum(rt: HostRuntime) -> Result<(), NoSession> {
    let arcs = arcs_of(rt.alloc(), 15)?;
    let pair = widest_pair(rt.alloc())?;
    for row in OF_THE_WIDEST.iter() {
        let (z, moved, want) = *row;
        assert!(rt; pair_of(&arcs, &pair, &z, &[moved; 3]) == want);
    }
    Ok(())
}

// An observation, its radius, and the sum of a pair of one row, which adds nothing, and is refused like any other.
static ONE_ROW: [(i64, i64, Option<Result<i128, Overwidth>>); 7] = [
    ((1 << 33) - 2, 0, Some(Ok(0))),
    ((1 << 33) - 1, 0, TOO_WIDE),
    (2 - (1 << 33), 0, Some(Ok(0))),
    (1 - (1 << 33), 0, TOO_WIDE),
    ((1 << 33) - (1 << 20) - 2, 1 << 20, Some(Ok(0))),
    ((1 << 33) - (1 << 20) - 1, 1 << 20, TOO_WIDE),
    (1 << 34, 1 << 20, TOO_WIDE),
];

#[test]
fn one_row_may_be_too_wide(rt: HostRuntime) -> Result<(), NoSession> {
    let arcs = arcs_of(rt.alloc(), 2)?;
    for row in ONE_ROW.iter() {
        let (y, ry, want) = *row;
        let pair = one_row(rt.alloc(), y, ry)?;
        assert!(rt; pair_of(&arcs, &pair, &[0; 3], &[0; 3]) == want);
    }
    Ok(())
}

// The sum of a session in the greatest unit.
fn in_greatest_unit(made: &Made) -> Option<Result<i128, Overwidth>> {
    let form = finish(&FrontForm::of(4, 127, &FormTable::zeros())).ok()?;
    upper_of(&made.session, &form, &made.z, &made.moved)
}

// It is rounded up to 1.
#[test]
fn greatest_unit(rt: HostRuntime) -> Result<(), NoSession> {
    let made = drawn_session(rt.alloc(), KNOWN[0].case)?;
    assert!(rt; in_greatest_unit(&made) == Some(Ok(1)));
    Ok(())
}

// The integers of the two arcs on each signal.
fn integers_on(arcs: &[Arc], bands: u16, z: &[i64; 3]) -> Option<[[i64; SIGNALS]; 2]> {
    let signals = fine_signals(signals_of(bands));
    if arcs.len() != 2 || free_arcs(arcs) > 20 || integer_count(arcs, signals) > z.len() {
        return None;
    }
    let mut found = [[0; SIGNALS]; 2];
    for signal in 0..SIGNALS {
        found[0][signal] = integer_of(arcs, signals, z, 0, signal);
        found[1][signal] = integer_of(arcs, signals, z, 1, signal);
    }
    Some(found)
}

// The integers of an arc stand in the order of the phases that count: on L1 and L5 that of L5 is the second.
#[test]
fn integers_by_bands(rt: HostRuntime) -> Result<(), AllocError> {
    let arcs = arcs_of(rt.alloc(), 2)?;
    let rows = [
        (12, [5, 7, 0, 0, 0, 0]),
        (15, [5, 0, 0, 0, 7, 0]),
        (125, [5, 7, 0, 0, 9, 0]),
    ];
    for (bands, want) in rows {
        assert!(rt; integers_on(&arcs, bands, &[5, 7, 9]) == Some([[0; SIGNALS], want]));
    }
    Ok(())
}
