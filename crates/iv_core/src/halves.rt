//! The upper halves of products of two numbers of 64 bits.
ghost use Rattle.std.specs.Prelude.{◌≡◌, ◌*◌, ◌/◌, ◌^◌, ◌*ℤ◌};
ghost use Rattle.whole_math.specs.Rounding.{floor_div};

/// ⌊a · b / 2^64⌋
#[inline]
pub fn upper_half(a: u64, b: u64) -> u64
    ensures { result ≡ a * b / 2 ^ 64 }
{
    (a as u128 * b as u128 >> 64) as u64
}

/// ⌊a · b / 2^64⌋ of numbers with signs
#[inline]
pub fn signed_upper_half(a: i64, b: i64) -> i64
    ensures { result ≡ floor_div (a *ℤ b) (2 ^ 64) }
{
    (a as i128 * b as i128 >> 64) as i64
}
