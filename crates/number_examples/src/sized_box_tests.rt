//! Sums and products of boxes with limits.
use iv_core::Iv;
use sized_box::SizedBox;

const ONE: u64 = 1 << 60;

const TWO: u64 = 1 << 61;

#[test]
fn keeps_limits(rt: HostRuntime) {
    let half: SizedBox<60, ONE, 1> = SizedBox::new(Iv::from_ends(1 << 59, (1 << 59) + 1));
    let three: SizedBox<0, 3, 1> = SizedBox::new(Iv::from_ends(2, 3));
    let product: SizedBox<56, ONE, ONE> = half.mul(&three);
    assert!(rt; (product.held.lo, product.held.hi) == (1 << 56, (3 << 55) + 1));
    let sum: SizedBox<60, TWO, 2> = half.add(&half);
    assert!(rt; (sum.held.lo, sum.held.hi) == (1 << 60, (1 << 60) + 2));
    let square: SizedBox<60, ONE, 4> = half.square();
    assert!(rt; (square.held.lo, square.held.hi) == (1 << 58, (1 << 58) + 2));
}
