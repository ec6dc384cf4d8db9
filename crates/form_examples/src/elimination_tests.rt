//! Steps of the elimination, by hand.
ghost use Rattle.std.specs.Prelude.{◌^◌, ◌≤◌, unsigned_abs};

use elimination::{StepFault, take_steps};
use quadratic_form::{FactorTable, MOST_FACTORS, NormalTable};

// Two columns whose own entries are 2^30, and 2^29 between them.
#[test]
fn eliminates_the_first_of_two_columns(rt: HostRuntime) {
    let mut table = NormalTable::zeros();
    table.set(0, 0, 1 << 30);
    table.set(0, 1, 1 << 29);
    table.set(1, 1, 1 << 30);
    let mut factors = FactorTable::zeros();
    let mut kept = [0; MOST_FACTORS];
    assert!(rt; take_steps(&mut table, &mut factors, &mut kept, 0, 1, 2).is_ok());
    assert!(rt; kept[0] == 1073740800 && factors.at(1, 0) == 536870912);
    assert!(rt; table.at(1, 1) == 805306366);
}

// What is kept of one pivot, or where the steps stop.
fn kept_of(pivot: i128) -> Result<i64, (usize, i128, StepFault)>
    requires { unsigned_abs pivot ≤ 2 ^ 52 }
{
    let mut table = NormalTable::zeros();
    table.set(0, 0, pivot);
    let mut factors = FactorTable::zeros();
    let mut kept = [0; MOST_FACTORS];
    match take_steps(&mut table, &mut factors, &mut kept, 0, 1, 2) {
        Ok(()) => Ok(kept[0]),
        Err(e) => Err((e.column, e.pivot, e.stop)),
    }
}

// A pivot below 2^20 is weak, and one at it is not.
#[test]
fn stops_at_a_weak_pivot(rt: HostRuntime) {
    assert!(rt; kept_of(-6) == Err((0, -6, StepFault::Weak)));
    assert!(rt; kept_of(1 << 20) == Ok((1 << 20) - 1));
}

// Three columns, the last two beside each other over a pivot of 2^20: what p · q / a is to the nearest.
fn other_entry(p: i128, q: i128) -> Option<i128> {
    if p.unsigned_abs() > 1 << 52 || q.unsigned_abs() > 1 << 52 {
        return None;
    }
    let mut table = NormalTable::zeros();
    table.set(0, 0, 1 << 20);
    table.set(0, 1, p);
    table.set(0, 2, q);
    table.set(1, 1, 1 << 51);
    table.set(2, 2, 1 << 51);
    let mut factors = FactorTable::zeros();
    let mut kept = [0; MOST_FACTORS];
    take_steps(&mut table, &mut factors, &mut kept, 0, 1, 3).ok()?;
    Some(table.at(1, 2).wrapping_neg())
}

const HALF: i128 = 1 << 19;

// Two entries, and the quotient. The first entry is at most twice the pivot or not, and the quotient lies on either side
// of a half or at it.
static QUOTIENTS: [(i128, i128, i128); 9] = [
    (1, HALF, 1),
    (1, HALF - 1, 0),
    (1, -HALF, 0),
    (1, -HALF - 1, -1),
    (1 << 29, 3, 1536),
    (1 << 30, 3, 3072),
    ((1 << 31) + 1, HALF, 1073741825),
    ((1 << 31) + 1, HALF - 1, 1073739776),
    (-(1 << 31) - 1, HALF, -1073741824),
];

#[test]
fn rounds_to_the_nearest_by_any_quotient(rt: HostRuntime) {
    for row in QUOTIENTS.iter() {
        let (p, q, want) = *row;
        assert!(rt; other_entry(p, q) == Some(want));
    }
}
