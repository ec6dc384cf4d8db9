//! Numbers in 19 columns.
ghost use Rattle.std.specs.Prelude.{◌≡◌, ◌+◌, ◌<◌, ◌≤◌, ◌++◌, OnOk, pos, ◌+ℤ◌, unsigned_abs};
ghost use Rattle.decimal_text.specs.Whole.{size_of};
ghost use Rattle.whole_math.specs.Rational.{◌≈◌};
ghost use Rattle.eph_store.specs.Decimals.{decimal, value_of};
ghost use Rattle.sim_session.specs.Numbers.{IsNormal, sign_or, number_text};

use decimal_text::{Dec, push_digits};
use std::alloc::AllocError;

const TEN_TO_TWELVE: u64 = 1_000_000_000_000;

/// n / 10^places with 13 digits.
pub fn normal(n: i64, places: u32) -> Dec
    requires size { unsigned_abs n < 1000 }
    requires places { places ≤ 20 }
    ensures value { value_of result ≈ decimal n places }
    ensures normal { IsNormal result }
{
    let size = n.unsigned_abs();
    if size >= 100 {
        return Dec {
            mant: n * 10_000_000_000,
            exp: -(places as i32 + 10),
        };
    }
    if size >= 10 {
        return Dec {
            mant: n * 100_000_000_000,
            exp: -(places as i32 + 11),
        };
    }
    if size >= 1 {
        return Dec {
            mant: n * 1_000_000_000_000,
            exp: -(places as i32 + 12),
        };
    }
    Dec { mant: 0, exp: -12 }
}

fn sign_of(value: i64, other: u8) -> u8
    ensures { result ≡ sign_or other value }
{
    if value < 0 { b'-' } else { other }
}

fn size_of(value: i64) -> u64
    ensures { result ≡ size_of value }
{
    value.unsigned_abs()
}

// The exponent after the first digit
fn exponent_of(d: Dec) -> i64
    ensures { result ≡ d.exp +ℤ pos 12 }
{
    d.exp as i64 + 12
}

/// Appends a number: a blank or `-`, a digit, a point, twelve digits, `E`, a sign and two digits.
pub fn push_number(out: &mut Vec<u8>, d: Dec) -> Result<(), AllocError>
    ensures { OnOk result (out.new.items ≡ out.old.items ++ number_text d) }
{
    let size = size_of(d.mant);
    let exponent = exponent_of(d);
    out.push(sign_of(d.mant, b' '))?;
    push_digits(out, size / TEN_TO_TWELVE, 1)?;
    out.push(b'.')?;
    push_digits(out, size, 12)?;
    out.push(b'E')?;
    out.push(sign_of(exponent, b'+'))?;
    push_digits(out, size_of(exponent), 2)?;
    Ok(())
}
