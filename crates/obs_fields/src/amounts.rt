//! Amounts in the usual spelling: blanks, `-` or no sign, digits, and a point with three digits after it. They are read in one pass.
//! Eight digits of a long one, which nearly all codes and phases are, are read at once.
ghost use Rattle.std.specs.Prelude.{◌≡◌, ◌<◌, ◌≤◌, ◌^◌, length, IfSome, Ok};
ghost use Rattle.decimal_text.specs.Fixed.{fixed_of};
ghost use Rattle.obs_fields.specs.Amounts.{after_sign, AreDigitsOf};

use crate::sat_fields::digit;
use decimal_text::{is_digit_byte, with_sign, without_blanks};

// The high half of each byte of a word, eight bytes `0`, and eight bytes 6.
const HIGHS: u64 = 0xf0f0_f0f0_f0f0_f0f0;

const ZEROS: u64 = 0x3030_3030_3030_3030;

const SIXES: u64 = 0x0606_0606_0606_0606;

#[tactic(auto, using(crate::proofs::AmountLaws::room_first, crate::proofs::AmountLaws::room_small))]
fn digits(text: &[u8]) -> Option<u64>
    requires { length text.now ≤ 10 }
    ensures digits { IfSome result (λ n. AreDigitsOf text.now n) }
    ensures small { IfSome result (λ n. n < 10 ^ 10) }
{
    let mut number: u64 = 0;
    let mut rest = text;
    while let [b, after @ ..] = rest {
        if *b < b'0' || *b > b'9' {
            return None;
        }
        number = 10 * number + (*b - b'0') as u64;
        rest = after;
    }
    Some(number)
}

// Whether the text has `-` before it, and the text without it.
fn without_sign(text: &[u8]) -> (bool, &[u8])
    ensures value { text.now ≡ after_sign result.0 result.1.now }
    ensures shorter { length result.1.now ≤ length text.now }
{
    match text {
        [b'-', whole @ ..] => (true, whole),
        _ => (false, text),
    }
}

// What eight digits stand for, as the bytes of one word. Each byte is `0` to `?`, and 6 more than a digit doesn't reach the
// high half; then sums of two digits stand in the bytes.
fn eight_digits(text: &[u8]) -> Option<u64>
    requires { length text.now ≡ 8 }
    ensures digits { IfSome result (λ n. AreDigitsOf text.now n) }
    ensures small { IfSome result (λ n. n < 10 ^ 8) }
{
    let word = u64::from_le_bytes([
        text[0], text[1], text[2], text[3], text[4], text[5], text[6], text[7],
    ]);
    let halves = word & HIGHS;
    if halves != ZEROS {
        return None;
    }
    let digits = word - ZEROS;
    let more = digits + SIXES;
    let above = more & HIGHS;
    if above != 0 {
        return None;
    }
    let tens = 10 * digits;
    let pairs = tens + (digits >> 8);
    let front = 100 * (pairs % 256) + (pairs >> 16) % 256;
    let end = 100 * ((pairs >> 32) % 256) + (pairs >> 48) % 256;
    Some(10_000 * front + end)
}

fn three_digits(text: &[u8]) -> Option<u64>
    requires { length text.now ≡ 3 }
    ensures digits { IfSome result (λ n. AreDigitsOf text.now n) }
    ensures small { IfSome result (λ n. n < 1000) }
{
    if !is_digit_byte(text[0]) {
        return None;
    }
    if !is_digit_byte(text[1]) {
        return None;
    }
    if !is_digit_byte(text[2]) {
        return None;
    }
    let tens = 10 * (text[0] - b'0') as u64 + (text[1] - b'0') as u64;
    Some(10 * tens + (text[2] - b'0') as u64)
}

// The number of a blank, a digit or a second blank, eight digits, a point and three digits.
fn long_amount(text: &[u8]) -> Option<i64>
    requires { length text.now ≡ 14 }
    ensures { IfSome result (λ z. fixed_of text.now 3 ≡ Ok z) }
{
    if text[0] != b' ' {
        return None;
    }
    if text[10] != b'.' {
        return None;
    }
    let high = digit(text[1])?;
    let low = eight_digits(&text[2..10])?;
    let part = three_digits(&text[11..])?;
    let whole = 100_000_000 * high as u64 + low;
    let size = 1000 * whole + part;
    Some(size as i64)
}

// The number of one of fewer digits, or with a sign.
fn short_amount(text: &[u8]) -> Option<i64>
    requires { length text.now ≡ 14 }
    ensures { IfSome result (λ z. fixed_of text.now 3 ≡ Ok z) }
{
    if text[10] != b'.' {
        return None;
    }
    let (negative, whole) = without_sign(without_blanks(&text[..10]));
    let size = 1000 * digits(whole)? + digits(&text[11..])?;
    Some(with_sign(negative, size))
}

/// The number in thousandths that 14 columns spell in the usual way.
pub fn usual_amount(text: &[u8]) -> Option<i64>
    requires { length text.now ≡ 14 }
    ensures { IfSome result (λ z. fixed_of text.now 3 ≡ Ok z) }
{
    match long_amount(text) {
        Some(amount) => Some(amount),
        None => short_amount(text),
    }
}
