//! Boxes of numbers in decimals.
use decimal_text::Dec;
use sv_orbit::decimal_box;

const HALF: u64 = 1 << 59;

const LENGTH: u64 = 6000 << 48;

#[test]
fn rounds_outward(rt: HostRuntime) {
    let half = decimal_box::<60, 5, 1, 0, HALF>(Dec { mant: -5, exp: -1 });
    assert!(rt; (half.held.lo, half.held.hi) == (-(1 << 59), -(1 << 59)));
    let third = decimal_box::<60, 5, 1, 0, HALF>(Dec {
        mant: 333_333_333_333_333_333,
        exp: -18,
    });
    assert!(rt; (third.held.lo, third.held.hi) == (384307168202282324, 384307168202282325));
    let rate = decimal_box::<60, 1, 7, 4, HALF>(Dec { mant: 3, exp: -8 });
    assert!(rt; (rate.held.lo, rate.held.hi) == (345876451382054, 345876451382055));
}

#[test]
fn cuts_powers(rt: HostRuntime) {
    let deep = decimal_box::<60, 5, 1, 0, HALF>(Dec { mant: -7, exp: -60 });
    assert!(rt; (deep.held.lo, deep.held.hi) == (-1, 0));
    let none = decimal_box::<60, 5, 1, 0, HALF>(Dec { mant: 0, exp: 60 });
    assert!(rt; (none.held.lo, none.held.hi) == (0, 0));
    let length = decimal_box::<48, 6000, 0, 0, LENGTH>(Dec { mant: 5, exp: 3 });
    assert!(rt; (length.held.lo, length.held.hi) == (5000 << 48, 5000 << 48));
    let longest = decimal_box::<60, 5, 1, 0, HALF>(Dec {
        mant: i64::MIN,
        exp: -20,
    });
    assert!(rt; (longest.held.lo, longest.held.hi) == (-106338239662793270, -106338239662793269));
}
