//! The sum of the fronts of pairs, whose power of two is asked of some pairs first.
ghost use Rattle.std.specs.Prelude.{◌<◌};
ghost use Rattle.quadratic_form.specs.declared.sizes.TheConstants.{MOST_FORM_COLUMNS};

use crate::row_numbers::{L1_AND_L2, NoSession, arc, empty_pair, push_row, with_rows};
use lower_form::exponent;
use normal_sum::sum_pair;
use obs_rows::{Arc, PairRows, Row, are_arcs, has_its_arcs};
use quadratic_form::MOST_FORM_COLUMNS;
use std::alloc::Global;
use track_form::{SummedFronts, sum_of_fronts};

fn arcs() -> [Arc; 5] {
    [
        arc(1, true, 9),
        arc(2, false, 9),
        arc(3, false, 9),
        arc(4, false, 9),
        arc(5, false, 9),
    ]
}

// The arc of a row, its code and its direction.
static ROWS: [(u16, i64, [i64; 3]); 5] = [
    (0, 5200, [8000000, 0, 100]),
    (1, -3100, [0, 8000000, 0]),
    (2, 1700, [0, -300, 8000000]),
    (3, 900, [-8000000, 4000000, 0]),
    (4, -4400, [4000000, -4000000, -8000000]),
];

// The row of an arc with this code, and three times as much phase.
fn row_of(arc: u16, code: i64, direction: [i64; 3]) -> Option<Row> {
    let phase = code.wrapping_mul(3);
    let y = [code, phase, phase.wrapping_neg(), code, 0, 0];
    Row::new(arc, y, 700, direction, [32; 3])
}

// A pair whose observations are `times` as large.
fn pair_of(alloc: Global, number: u32, times: i64) -> Result<PairRows, NoSession> {
    let mut pair = empty_pair(alloc, number)?;
    for (arc, code, direction) in ROWS.iter() {
        push_row(
            &mut pair,
            row_of(*arc, times.wrapping_mul(*code), *direction),
        )?;
    }
    with_rows(pair)
}

// The exponent of a pair's front.
fn asked(alloc: Global, times: i64) -> Result<u32, NoSession> {
    let arcs = arcs();
    let pair = pair_of(alloc, 0, times)?;
    if !are_arcs(&arcs) || !has_its_arcs(&arcs, &pair) {
        return Err(NoSession::OutOfRange);
    }
    Ok(exponent(&sum_pair(&arcs, L1_AND_L2, 0, &pair)))
}

// The sum of the fronts of two pairs.
fn summed(alloc: Global, first: i64, second: i64) -> Result<Option<SummedFronts>, NoSession> {
    let arcs = arcs();
    let one = pair_of(alloc, 0, first)?;
    let other = pair_of(alloc, 1, second)?;
    if !are_arcs(&arcs) || !has_its_arcs(&arcs, &one) || !has_its_arcs(&arcs, &other) {
        return Err(NoSession::OutOfRange);
    }
    Ok(sum_of_fronts(alloc, &arcs, L1_AND_L2, &[one, other])?.ok())
}

fn has_same_row(one: &SummedFronts, other: &SummedFronts, r: usize) -> bool
    requires { r < MOST_FORM_COLUMNS }
{
    for c in 0..MOST_FORM_COLUMNS {
        if one.sum.p.at(r, c) != other.sum.p.at(r, c) {
            return false;
        }
    }
    true
}

fn have_same_entries(one: &SummedFronts, other: &SummedFronts) -> bool {
    for r in 0..MOST_FORM_COLUMNS {
        if !has_same_row(one, other, r) {
            return false;
        }
    }
    true
}

// Whether both are one sum of two pairs over 2^h.
fn are_one_sum(one: &SummedFronts, other: &SummedFronts, h: u32) -> bool {
    one.sum.h == h && other.sum.h == h && one.factors.len() == 2 && have_same_entries(one, other)
}

// The pair that isn't asked has the greater exponent in the first sum: its fronts are made twice. A sum doesn't depend on the
// order of the pairs.
#[test]
fn asks_all_where_one_is_over(rt: HostRuntime) -> Result<(), NoSession> {
    let low = asked(rt.alloc(), 1)?;
    let high = asked(rt.alloc(), 1 << 17)?;
    assert!(rt; low < high);
    let rising = summed(rt.alloc(), 1, 1 << 17)?.expect(&rt, "no sum");
    let falling = summed(rt.alloc(), 1 << 17, 1)?.expect(&rt, "no sum");
    // twice two pairs are 2^2
    assert!(rt; are_one_sum(&rising, &falling, high.wrapping_add(2)));
    Ok(())
}
