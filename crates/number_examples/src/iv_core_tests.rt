//! Boxes on a grid, at the ends of their range and between.
use iv_core::{DivFault, Iv, Overwidth};

const MOST: i64 = 1 << 62;

type Ends = (i64, i64);

// From the points of its two ends.
fn between(ends: Ends) -> Result<Iv<0>, Overwidth> {
    Ok(Iv::point(ends.0)?.join(&Iv::point(ends.1)?))
}

fn ends_of<const K: u32>(found: Result<Iv<K>, Overwidth>) -> Option<Ends> {
    match found {
        Ok(found) => Some((found.lo, found.hi)),
        Err(_) => None,
    }
}

#[test]
fn rounds_ratios_outward(rt: HostRuntime) {
    assert!(rt; ends_of(Iv::<2>::ratio(1, 3)) == Some((1, 2)));
    assert!(rt; ends_of(Iv::<2>::ratio(-1, 3)) == Some((-2, -1)));
    let close = Iv::<60>::ratio((1 << 66) - 1, (1 << 64) + 1);
    assert!(rt; ends_of(close) == Some((MOST - 1, MOST)));
}

// Ratios at a scale of 1, at the ends of the range.
#[test]
fn refuses_great_ratios(rt: HostRuntime) {
    assert!(rt; ends_of(Iv::<0>::ratio(1 << 62, 1)) == Some((MOST, MOST)));
    assert!(rt; Iv::<0>::ratio((1 << 62) + 1, 1).is_err());
    assert!(rt; Iv::<0>::ratio(-(3 << 62) - 1, 3).is_err());
    assert!(rt; Iv::<0>::point(MOST + 1).is_err());
}

#[derive(Clone, Copy)]
enum Call {
    Plus,
    Minus,
    Times,
    Join,
    Meet,
}

// A call on two boxes by their ends, and those of what it gives.
static OF_TWO: [(Call, Ends, Ends, Option<Ends>); 19] = [
    (Call::Plus, (MOST, MOST), (1, 1), None),
    (Call::Plus, (-2, 3), (4, 5), Some((2, 8))),
    (Call::Minus, (-MOST, -MOST), (1, 1), None),
    (Call::Minus, (-2, 3), (4, 5), Some((-7, -1))),
    (Call::Minus, (MOST, MOST), (0, MOST), Some((0, MOST))),
    (Call::Times, (-2, 3), (4, 5), Some((-10, 15))),
    (Call::Times, (-3, -2), (4, 5), Some((-15, -8))),
    (Call::Times, (2, 3), (4, 5), Some((8, 15))),
    (Call::Times, (2, 3), (-5, -4), Some((-15, -8))),
    (Call::Times, (-3, -2), (-5, -4), Some((8, 15))),
    (Call::Times, (-2, 3), (-5, 4), Some((-15, 12))),
    (Call::Times, (MOST, MOST), (-1, 1), Some((-MOST, MOST))),
    (
        Call::Times,
        (MOST - 1, MOST),
        (1, 1),
        Some((MOST - 1, MOST)),
    ),
    (Call::Times, (MOST / 2 + 1, MOST / 2 + 1), (2, 2), None),
    (Call::Times, (-MOST, -MOST), (1, 2), None),
    (Call::Join, (1, 2), (3, 5), Some((1, 5))),
    (Call::Meet, (1, 2), (3, 5), None),
    (Call::Meet, (0, 1), (2, 3), None),
    (Call::Meet, (1, 2), (2, 4), Some((2, 2))),
];

fn of_two(call: Call, a: Ends, b: Ends) -> Result<Option<Ends>, Overwidth> {
    let (a, b) = (between(a)?, between(b)?);
    Ok(match call {
        Call::Plus => ends_of(a.add(&b)),
        Call::Minus => ends_of(a.sub(&b)),
        Call::Times => ends_of(a.mul_to::<0, 0>(&b)),
        Call::Join => ends_of(Ok(a.join(&b))),
        Call::Meet => a.meet(&b).map(|found| (found.lo, found.hi)),
    })
}

#[test]
fn bounds_what_two_boxes_give(rt: HostRuntime) {
    for row in OF_TWO.iter() {
        let (call, a, b, want) = *row;
        assert!(rt; of_two(call, a, b) == Ok(want));
    }
}

#[test]
fn bounds_products_of_other_scales(rt: HostRuntime) {
    let half = Iv::<1>::from_ends(1, 2);
    let three_halves = Iv::<1>::from_ends(1, 3);
    let wide = Iv::<60>::from_ends(-MOST, MOST);
    assert!(rt; ends_of(half.mul_to::<1, 0>(&three_halves)) == Some((0, 2)));
    assert!(rt; ends_of(half.mul_to::<1, 1>(&three_halves)) == Some((0, 3)));
    assert!(rt; ends_of(wide.mul_to::<60, 58>(&wide)) == Some((-MOST, MOST)));
}

static SQUARES: [(Ends, Option<Ends>); 5] = [
    ((-2, 3), Some((0, 9))),
    ((-3, 2), Some((0, 9))),
    ((-5, -3), Some((9, 25))),
    ((1 << 31, 1 << 31), Some((MOST, MOST))),
    ((1, (1 << 31) + 1), None),
];

fn square_of(ends: Ends) -> Result<Option<Ends>, Overwidth> {
    Ok(ends_of(between(ends)?.square_to::<0>()))
}

#[test]
fn bounds_squares(rt: HostRuntime) {
    for row in SQUARES.iter() {
        assert!(rt; square_of(row.0) == Ok(row.1));
    }
    let half = Iv::<1>::from_ends(3, 5);
    assert!(rt; ends_of(half.square_to::<0>()) == Some((2, 7)));
}

static QUOTIENTS: [(Ends, Ends, Result<Ends, DivFault>); 9] = [
    ((1, 2), (2, 4), Ok((1, 4))),
    ((-1, 2), (3, 3), Ok((-2, 3))),
    ((1, 2), (-4, -3), Ok((-3, -1))),
    ((-MOST, MOST), (4, 4), Ok((-MOST, MOST))),
    ((0, MOST), (3, 4), Err(DivFault::Overwidth)),
    ((MOST, MOST), (1, 1), Err(DivFault::Overwidth)),
    ((1, 2), (-1, 1), Err(DivFault::ZeroInside)),
    ((1, 2), (0, 1), Err(DivFault::ZeroInside)),
    ((1, 2), (-1, 0), Err(DivFault::ZeroInside)),
];

fn quotient_ends(found: Result<Iv<2>, DivFault>) -> Result<Ends, DivFault> {
    found.map(|found| (found.lo, found.hi))
}

fn quotient_of(a: Ends, b: Ends) -> Result<Result<Ends, DivFault>, Overwidth> {
    Ok(quotient_ends(between(a)?.div_to::<0, 2>(&between(b)?)))
}

#[test]
fn bounds_quotients(rt: HostRuntime) {
    for row in QUOTIENTS.iter() {
        let (a, b, want) = *row;
        assert!(rt; quotient_of(a, b) == Ok(want));
    }
}

fn poor_quotient_of(a: Ends, b: Ends) -> Result<Result<Ends, DivFault>, Overwidth> {
    let poor = between((1_000_003, 1_000_033))?.inverses();
    Ok(quotient_ends(between(a)?.div_by::<0, 2>(&between(b)?, &poor)))
}

// From inverses of other numbers each quotient is divided out, to the same ends.
#[test]
fn bounds_quotients_by_poor_inverses(rt: HostRuntime) {
    for row in QUOTIENTS.iter() {
        let (a, b, want) = *row;
        assert!(rt; poor_quotient_of(a, b) == Ok(want));
    }
}

// The scale of the root, the ends of a box and those of its root. A guess that is far off would not end in the time of a test.
static ROOTS: [(u32, Ends, Ends); 13] = [
    (4, (2, 2), (22, 23)),
    (3, (4, 9), (15, 25)),
    (30, (0, MOST), (0, (1 << 61) + 1)),
    (0, (0, 0), (0, 0)),
    (0, (1, 1), (0, 2)),
    (0, (3, 3), (1, 2)),
    (0, (4, 4), (1, 3)),
    (0, (2_000_000, 2_000_000), (1414, 1415)),
    (
        0,
        (999_999_999_999_999_999, 999_999_999_999_999_999),
        (999_999_999, 1_000_000_000),
    ),
    (
        0,
        (1_000_000_000_000_000_000, 1_000_000_000_000_000_000),
        (999_999_999, 1_000_000_001),
    ),
    (30, (2, 2), (1_518_500_249, 1_518_500_250)),
    (
        30,
        (999_999_999_999_999_999, 999_999_999_999_999_999),
        (1_073_741_823_999_999_998, 1_073_741_824_000_000_000),
    ),
    (
        30,
        (1_000_000_000_000_000_000, 1_000_000_000_000_000_000),
        (1_073_741_823_999_999_999, 1_073_741_824_000_000_001),
    ),
];

fn root_of(scale: u32, ends: Ends) -> Option<Ends> {
    let (lo, hi) = ends;
    if lo < 0 || lo > hi || hi > MOST {
        return None;
    }
    let square = Iv::<0>::from_ends(lo, hi);
    match scale {
        0 => ends_of(Ok(square.root_to::<0>())),
        3 => ends_of(Ok(square.root_to::<3>())),
        4 => ends_of(Ok(square.root_to::<4>())),
        30 => ends_of(Ok(square.root_to::<30>())),
        _ => None,
    }
}

#[test]
fn bounds_roots(rt: HostRuntime) {
    for row in ROOTS.iter() {
        let (scale, ends, want) = *row;
        assert!(rt; root_of(scale, ends) == Some(want));
    }
    let largest = Iv::<60>::from_ends(MOST, MOST).root_to::<60>();
    assert!(rt; (largest.lo, largest.hi) == ((1 << 61) - 2, (1 << 61) + 1));
}

#[test]
fn measures_the_widest(rt: HostRuntime) {
    let all = Iv::<0>::from_ends(-MOST, MOST);
    assert!(rt; all.width() == 1 << 63);
}

// The first is of no use, nor are the last two; the others lie near 2^30 times 10^9.
static GUESSES: [u64; 6] = [
    0,
    1_073_741_823_999_900_000,
    1_073_741_823_999_999_999,
    1_073_741_824_000_100_000,
    1 << 60,
    u64::MAX,
];

// The ends do not depend on the guess: one that is far off makes the root be found without it.
#[test]
fn finds_roots_from_guesses(rt: HostRuntime) {
    let squares = Iv::<0>::from_ends(1_000_000_000_000_000_000, 1_000_000_000_000_000_000);
    for guess in GUESSES.iter() {
        let found = squares.root_by::<30>(*guess);
        assert!(rt; (found.lo, found.hi) == (1_073_741_823_999_999_999, 1_073_741_824_000_000_001));
    }
}
