//! About the inverses of numbers. Nothing is claimed of them: what is guessed by them is tested.
use crate::halves::upper_half;

// About 2^127 over what is at least 2^63: one division of 64 bits, and a step of Newton's rule
fn inverse_of(moved: u64) -> u64 {
    let rough = (u64::MAX >> 1) / (moved >> 32).max(1) << 32;
    upper_half(rough, upper_half(rough, moved).wrapping_neg()) << 1
}

// About the inverse of what is greater by `more`
fn lowered(inverse: u64, more: u64) -> u64 {
    inverse.wrapping_sub(upper_half(inverse, upper_half(inverse, more)) << 1)
}

// The upper half of a product with an inverse
fn share(a: i64, inverse: u64) -> i64 {
    (a as i128 * inverse as i128 >> 64) as i64
}

/// About the inverse of a number: 2^127 over it, where it is moved up by `bits`.
#[derive(Clone, Copy, Debug)]
pub struct Inverse {
    bits: u32,
    value: u64,
}

impl Inverse {
    /// About a · 2^shift over the number, if that isn't too large.
    /// Nothing is claimed of the result: it is a guess, which `floor_near` tests at run time.
    pub fn quotient(&self, a: i64, shift: u32) -> i64 {
        let down = 64u32.wrapping_sub(shift).wrapping_sub(self.bits);
        share(a << 1, self.value) >> down % 64
    }
}

/// About the inverses of the ends of a box: of the end nearer to 0, and of the other.
#[derive(Clone, Copy, Debug)]
pub struct Inverses {
    pub near: Inverse,
    pub far: Inverse,
}

impl Inverses {
    /// About the inverses of two numbers of the same sign.
    /// Nothing is claimed of the result: it only leads to guesses, which are tested at run time.
    pub fn of(lo: i64, hi: i64) -> Inverses {
        let near = lo.unsigned_abs().min(hi.unsigned_abs());
        let far = lo.unsigned_abs().max(hi.unsigned_abs());
        let bits = near.leading_zeros().min(63);
        let value = inverse_of(near << bits);
        Inverses {
            near: Inverse { bits, value },
            far: Inverse {
                bits,
                value: lowered(value, far.wrapping_sub(near) << bits),
            },
        }
    }
}
