//! Expected values from an independent calculation with exact fractions, rounded to whole units.
ghost use Rattle.std.specs.Prelude.{◌^◌, ◌≤◌, unsigned_abs};

use iv_core::Iv;
use obs_rows::Row;
use row_boxes::{Pseudorange, Sight, first_group, first_shift, observed_row, pseudorange_of};
use signal_travel::Spread;

// What the two receivers show of one satellite: thousandths of a cycle, and millimetres.
const AMOUNTS: [i64; 6] = [
    1_263_761_757,
    -7_631_571_843,
    5_555_256,
    5_555_827,
    -5_000_123_456,
    5_555_640,
];

const GROUP: i64 = 8_950_690;

const SHIFT: [i64; 3] = [1_234_569, -7_654_320, -5_021_923];

// At scales of 2^-36 m and 2^-60 s, without width.
fn pseudorange(range: i64, clock: i64) -> Pseudorange
    requires range { unsigned_abs range ≤ 2 ^ 62 }
    requires clock { unsigned_abs clock ≤ 2 ^ 54 }
{
    pseudorange_of(&Iv::from_ends(range, range), &Iv::from_ends(clock, clock))
}

fn base() -> Pseudorange {
    pseudorange(1_443_109_011_456_012_345, -3_377_699_720_527_865)
}

fn rover() -> Sight {
    let (centre, radius) = (9_686_330, 7);
    Sight {
        direction: [
            Spread { centre, radius },
            Spread {
                centre: -centre,
                radius: 8,
            },
            Spread {
                centre: centre + 1,
                radius,
            },
        ],
        pseudorange: pseudorange(1_443_405_948_993_877_490, -3_377_699_720_526_972),
    }
}

#[test]
fn group_and_shifts(rt: HostRuntime) {
    let (base, rover) = (base(), rover().pseudorange);
    let shifts = [
        first_shift(0, AMOUNTS[0], GROUP, &base, &rover),
        first_shift(1, AMOUNTS[1], GROUP, &base, &rover),
        first_shift(4, AMOUNTS[4], GROUP, &base, &rover),
    ];
    assert!(rt; first_group(AMOUNTS[2], &base, &rover) == GROUP);
    assert!(rt; shifts == SHIFT);
}

// Whether the centres of the row's observations are these, to the radius that boxes have.
fn are_near(found: &Row, want: [i64; 6], radius: u64) -> bool {
    found.ry.unsigned_abs() <= radius
        && found
            .y
            .iter()
            .zip(want)
            .all(|(got, want)| got.abs_diff(want) <= radius)
}

#[test]
fn all_signals(rt: HostRuntime) {
    let signals = [0, 1, 2, 3, 4, 5];
    let found = observed_row(&signals, 3, &AMOUNTS, GROUP, &SHIFT, &base(), &rover(), 0);
    let want: [i64; 6] = [
        -3_509_286, 4_530_236, -1_165, 33_920_783, -7_173_961, 22_811_494,
    ];
    assert!(rt; found.is_some_and(|found| are_near(&found, want, 470)));
    assert!(rt; found.is_some_and(|found| found.arc == 3 && found.ru == [7, 8, 7]));
    assert!(rt; found.is_some_and(|found| found.u == [9_686_330, -9_686_330, 9_686_331]));
}

#[test]
fn without_l2(rt: HostRuntime) {
    let found = observed_row(
        &[0, 2, 4, 5],
        3,
        &AMOUNTS,
        GROUP,
        &SHIFT,
        &base(),
        &rover(),
        0,
    );
    let want: [i64; 6] = [-3_509_286, 0, -1_165, 0, -7_173_961, 22_811_494];
    assert!(rt;
        found.is_some_and(|found| are_near(&found, want, 470) && (found.y[1], found.y[3]) == (0, 0))
    );
}

#[test]
fn coarse_observations(rt: HostRuntime) {
    let found = observed_row(&[2], 3, &AMOUNTS, GROUP - 10, &SHIFT, &base(), &rover(), 14);
    assert!(rt; found.is_some_and(|found| are_near(&found, [0, 0, 5, 0, 0, 0], 1)));
}
