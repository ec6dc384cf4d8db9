//! Maps of drawn forms.
ghost use Rattle.std.specs.Prelude.{◌+◌, ◌*◌, ◌^◌, ◌<◌, ◌≤◌, unsigned_abs};
ghost use Rattle.quadratic_form.specs.declared.sizes.TheConstants.{MOST_INTEGERS, MOST_COLUMNS, MOST_FACTORS};
ghost use Rattle.quadratic_form.specs.Matrices.{EntriesBelow};
ghost use Rattle.decorrelate.specs.Starts.{AreWeightsBehind};

use crate::decorrelate_cases::{CASES, Case};
use decorrelate::{Unimodular, reduce};
use quadratic_form::{BASELINE_COLUMNS, FactorTable, MOST_FACTORS, MOST_INTEGERS, MapTable};

// The next number of a linear congruential generator.
fn next(state: u64) -> u64 {
    state
        .wrapping_mul(6364136223846793005)
        .wrapping_add(1442695040888963407)
}

// Writes a factor; false where it is too large.
fn set_factor(l: &mut FactorTable, row: usize, column: usize, value: i64) -> bool
    requires row_in { row < MOST_COLUMNS }
    requires column_in { column < MOST_FACTORS }
    requires small { EntriesBelow (2 ^ 52) l.old }
    ensures small { EntriesBelow (2 ^ 52) l.new }
{
    if value.unsigned_abs() >= 1 << 52 {
        return false;
    }
    l.set(row, column, value);
    true
}

// Draws what is kept of the pivots.
fn drawn_weights(size: usize, state: &mut u64) -> [i64; MOST_FACTORS]
    requires { size ≤ MOST_INTEGERS }
    ensures { AreWeightsBehind size result }
{
    let mut d = [1; MOST_FACTORS];
    for i in 0..size {
        *state = next(*state);
        let above = (*state >> 20) % (1 << 44);
        d[BASELINE_COLUMNS + i] = (1 << 36) + above as i64;
    }
    d
}

// Draws the factors of integer i with those before it.
fn draw_row(l: &mut FactorTable, i: usize, state: &mut u64, range: i64)
    requires row_in { i < MOST_INTEGERS }
    requires small { EntriesBelow (2 ^ 52) l.old }
    ensures small { EntriesBelow (2 ^ 52) l.new }
{
    for m in 0..i {
        *state = next(*state);
        let above = ((*state >> 20) % (1 << 44)) as i64;
        let value = (above & range.wrapping_mul(2).wrapping_sub(1)).wrapping_sub(range);
        set_factor(l, BASELINE_COLUMNS + i, BASELINE_COLUMNS + m, value);
    }
}

fn no_factors() -> FactorTable
    ensures { EntriesBelow (2 ^ 52) result }
{
    FactorTable::zeros()
}

fn drawn_factors(size: usize, state: &mut u64, range: i64) -> FactorTable
    requires { size ≤ MOST_INTEGERS }
    ensures { EntriesBelow (2 ^ 52) result }
{
    let mut l = no_factors();
    for i in 0..size {
        draw_row(&mut l, i, state, range);
    }
    l
}

// Whether row i of the map has these entries.
fn has_row(change: &Unimodular, i: usize, entries: &[i64]) -> bool
    requires { i < MOST_INTEGERS }
{
    for (c, entry) in entries.iter().enumerate() {
        if c >= MOST_INTEGERS || change.map.at(i, c) != *entry {
            return false;
        }
    }
    true
}

// Whether the map of the drawn form is that of the case.
fn has_map(case: &Case) -> bool {
    if case.size == 0 || case.size > MOST_INTEGERS {
        return false;
    }
    let mut state = case.seed;
    let d = drawn_weights(case.size, &mut state);
    let l = drawn_factors(case.size, &mut state, case.range);
    let change = reduce(case.size, &d, &l);
    for (i, entries) in case.map.chunks(case.size).enumerate() {
        if i >= MOST_INTEGERS || !has_row(&change, i, entries) {
            return false;
        }
    }
    case.map.len() == case.size * case.size
}

fn corner_of(map: &MapTable) -> [[i64; 2]; 2] {
    [[map.at(0, 0), map.at(0, 1)], [map.at(1, 0), map.at(1, 1)]]
}

#[test]
fn one_turn(rt: HostRuntime) {
    let mut d = [1; MOST_FACTORS];
    d[3] = 1000;
    d[4] = 10;
    let mut l = no_factors();
    assert!(rt; set_factor(&mut l, 4, 3, 3489660928));
    let change = reduce(2, &d, &l);
    assert!(rt; corner_of(&change.map) == [[-3, 1], [1, 0]]);
    assert!(rt; corner_of(&change.back) == [[0, 1], [1, 3]]);
}

#[test]
fn maps_of_drawn_forms(rt: HostRuntime) {
    for case in CASES.iter() {
        assert!(rt; has_map(case));
    }
}
