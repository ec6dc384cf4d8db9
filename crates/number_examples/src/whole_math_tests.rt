//! Quotients rounded down, up and to the nearest.
use whole_math::{ceil, ceil_shift, floor, floor_shift, nearest, remainder};

#[test]
fn rounds(rt: HostRuntime) {
    assert!(rt; floor(7, 2) == 3 && ceil(7, 2) == 4 && nearest(7, 2) == 4);
    assert!(rt; floor(-7, 2) == -4 && ceil(-7, 2) == -3 && nearest(-7, 2) == -3);
    assert!(rt; floor(5, 3) == 1 && ceil(5, 3) == 2 && nearest(5, 3) == 2);
    assert!(rt; floor(-5, 3) == -2 && remainder(-5, 3) == 1);
    assert!(rt; nearest(i128::MAX, 2) == 85070591730234615865843651857942052864);
    // Three times the quotient alone would not fit.
    assert!(rt; ceil(i128::MIN, 3) == -56713727820156410577229101238628035242);
    assert!(rt; nearest(i128::MIN, 3) == -56713727820156410577229101238628035243);
    assert!(rt; floor_shift(-7, 1) == -4 && ceil_shift(-7, 1) == -3);
}
