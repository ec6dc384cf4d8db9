//! Products of 256 bits, as two numbers of 128.
ghost use Rattle.std.specs.Prelude.{◌≡◌, ◌+◌, ◌*◌, ◌^◌, ◌<◌, ◌≤◌, ◌↔◌, IsTrue};

const LIMB: u128 = 1 << 64;

fn limb_product(x: u128, y: u128) -> u128
    requires x_limb { x < 2 ^ 64 }
    requires y_limb { y < 2 ^ 64 }
    ensures value { result ≡ x * y }
    ensures size { result ≤ 340282366920938463426481119284349108225 }
{
    x * y
}

/// `high` · 2^128 + `low`
#[derive(Clone, Copy)]
pub struct Wide {
    pub high: u128,
    pub low: u128,
}

// The sum of the four products of limbs, each at its place
fn sum_of_limbs(low: u128, left: u128, right: u128, high: u128) -> Wide
    requires low_size { low ≤ 340282366920938463426481119284349108225 }
    requires left_size { left ≤ 340282366920938463426481119284349108225 }
    requires right_size { right ≤ 340282366920938463426481119284349108225 }
    requires high_size { high < 2 ^ 127 }
    ensures value { result.high * 2 ^ 128 + result.low
        ≡ high * 2 ^ 128 + (left + right) * 2 ^ 64 + low }
{
    let middle = low / LIMB + left % LIMB + right % LIMB;
    Wide {
        high: high + left / LIMB + right / LIMB + middle / LIMB,
        low: middle % LIMB * LIMB + low % LIMB,
    }
}

/// a · b
pub fn wide_product(a: u128, b: u128) -> Wide
    requires a_size { a < 2 ^ 127 }
    requires b_size { b < 2 ^ 127 }
    ensures value { result.high * 2 ^ 128 + result.low ≡ a * b }
{
    let low = limb_product(a % LIMB, b % LIMB);
    let left = limb_product(a % LIMB, b / LIMB);
    let right = limb_product(a / LIMB, b % LIMB);
    let high = limb_product(a / LIMB, b / LIMB);
    sum_of_limbs(low, left, right, high)
}

/// Whether c · d ≤ a · b
pub fn is_at_least(a: u128, b: u128, c: u128, d: u128) -> bool
    requires a_size { a < 2 ^ 127 }
    requires b_size { b < 2 ^ 127 }
    requires c_size { c < 2 ^ 127 }
    requires d_size { d < 2 ^ 127 }
    ensures { IsTrue result ↔ (c * d ≤ a * b) }
{
    let first = wide_product(a, b);
    let second = wide_product(c, d);
    first.high > second.high || (first.high == second.high && first.low >= second.low)
}
