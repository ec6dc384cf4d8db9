//! What fronts add to the form of a track, by hand: one, two and three of them over unlike powers of two, with entries as large
//! as they may be.
use integer_form::{FrontForm, is_form_table};
use quadratic_form::FormTable;
use track_form::{least_power, part};

/// The greatest entry of a form.
const GREATEST: i64 = (1 << 52) - 1;

// The matrix of a form of two columns.
fn table_of(first: i64, other: i64, last: i64) -> FormTable {
    let mut table = FormTable::zeros();
    table.set(0, 0, first);
    table.set(0, 1, other);
    table.set(1, 0, other);
    table.set(1, 1, last);
    table
}

// What a front over 2^h with this matrix adds, over 2^shift more: to the first entry, to the one beside it, to the last one.
fn parts_of(table: &FormTable, h: u32, shift: u32) -> Option<[i128; 3]> {
    if h > 127 || shift > 90 || !is_form_table(table, 2) {
        return None;
    }
    let front = FrontForm::of(5, h, table);
    Some([
        part(&front, shift, 0, 0),
        part(&front, shift, 0, 1),
        part(&front, shift, 1, 1),
    ])
}

fn sum_of(first: Option<[i128; 3]>, second: Option<[i128; 3]>) -> Option<[i128; 3]> {
    let ([a, b, c], [d, e, f]) = (first?, second?);
    Some([a.wrapping_add(d), b.wrapping_add(e), c.wrapping_add(f)])
}

// Twice one pair is 2, so the form is over 2^1 more than the front.
#[test]
fn adds_one_front(rt: HostRuntime) {
    let shift = least_power(1);
    let found = parts_of(&table_of(GREATEST, GREATEST, -GREATEST), 10, shift);
    let want = [2251799813685245, 2251799813685248, -2251799813685250];
    assert!(rt; shift == 1 && found == Some(want));
}

// Fronts over 2^10 and 2^13: the form is over 2^15.
#[test]
fn adds_two_fronts(rt: HostRuntime) {
    let shift = least_power(2);
    let first = parts_of(&table_of(GREATEST, -GREATEST, 100), 10, 5);
    let second = parts_of(&table_of(-GREATEST, GREATEST, 7), 13, shift);
    let want = [-985162418487301, 985162418487296, 0];
    assert!(rt; shift == 2 && sum_of(first, second) == Some(want));
}

// Fronts over 1, 2^4 and 2^2: twice three pairs are 6, so the form is over 2^7. Of two nearest numbers the greater is taken.
#[test]
fn adds_three_fronts(rt: HostRuntime) {
    let shift = least_power(3);
    let found = (
        parts_of(&table_of(GREATEST, 64, 0), 0, 7),
        parts_of(&table_of(-1, -4, 0), 4, shift),
        parts_of(&table_of(31, 15, 0), 2, 5),
    );
    let want = (
        Some([35184372088829, 1, -2]),
        Some([-3, 0, -2]),
        Some([-2, 0, -2]),
    );
    assert!(rt; shift == 3 && found == want);
}
