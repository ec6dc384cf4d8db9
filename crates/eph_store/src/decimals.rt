//! Numbers with an exponent against bounds, exactly.
ghost use Rattle.std.specs.Prelude.{◌≡◌, ℕ, pos, ◌*◌, ◌^◌, ◌<◌, ◌≤◌, ◌≤ℤ◌, ◌↔◌, IsTrue, IfNone, IfSome, MatchOption, Option};
ghost use Rattle.whole_math.specs.Rational.{◌≤ʳ◌};
ghost use Rattle.eph_store.specs.Decimals.{decimal, size_of, IsFromTo, IsWithin, IsWhole};

use decimal_text::Dec;

// 10^exponent, or 10^most where the exponent is larger.
fn cut_power(exponent: u64, most: u32) -> u128
    requires { most ≤ 20 }
    ensures short { exponent ≤ most → result ≡ 10 ^ exponent }
    ensures long { most < exponent → result ≡ 10 ^ most }
    ensures positive { 0 < result }
    ensures bound { result ≤ 10 ^ most }
{
    if exponent <= most as u64 {
        10u128.pow(exponent as u32)
    } else {
        10u128.pow(most)
    }
}

// The size of the number and bound / 10^places, as whole numbers in the same order. Past 10^10, and below 10^-20,
// the exponent alone decides, so it may be cut there.
fn on_one_scale(d: Dec, bound: u32, places: u32) -> (u128, u128)
    requires { places ≤ 12 }
    ensures below { (result.0 ≤ result.1) ↔ (size_of d ≤ʳ decimal (pos bound) places) }
    ensures above { (result.1 ≤ result.0) ↔ (decimal (pos bound) places ≤ʳ size_of d) }
{
    let size = d.mant.unsigned_abs() as u128;
    let shift = d.exp as i64 + places as i64;
    if shift >= 0 {
        (size * cut_power(shift as u64, 10), bound as u128)
    } else {
        (size, bound as u128 * cut_power(shift.unsigned_abs(), 20))
    }
}

// Whether the number is at most bound / 10^places in size.
pub fn is_within(d: Dec, bound: u32, places: u32) -> bool
    requires { places ≤ 12 }
    ensures { IsTrue result ↔ IsWithin bound places d }
{
    let (size, most) = on_one_scale(d, bound, places);
    size <= most
}

// Whether the number lies from least / 10^places to most / 10^places.
pub fn is_from_to(d: Dec, least: u32, most: u32, places: u32) -> bool
    requires { places ≤ 12 }
    ensures { IsTrue result ↔ IsFromTo (pos least) (pos most) places d }
{
    if d.mant < 0 {
        return false;
    }
    let (size, low) = on_one_scale(d, least, places);
    let (again, high) = on_one_scale(d, most, places);
    low <= size && again <= high
}

// The number, if it is a whole one from 0 to `most`.
pub fn whole_up_to(d: Dec, most: u32) -> Option<u32>
    ensures { MatchOption result ((n : ℕ) → n ≤ most → IsWhole d n →
        ⊥) (λ n. (n ≤ most) × IsWhole d n) }
{
    if d.mant < 0 {
        return None;
    }
    let number = whole_number(d)?;
    if number > most as u128 {
        return None;
    }
    Some(number as u32)
}

// A whole number, right wherever it is below 2^32; a larger one may be cut.
fn whole_number(d: Dec) -> Option<u128>
    requires { pos 0 ≤ℤ d.mant }
    ensures none { IfNone result ((n : ℕ) → n < 2 ^ 32 → IsWhole d n → ⊥) }
    ensures some { IfSome result (λ m. (n : ℕ) → n < 2 ^ 32 → (m ≡ n) ↔ IsWhole d n) }
{
    let size = d.mant.unsigned_abs() as u128;
    if d.exp >= 0 {
        Some(size * cut_power(d.exp as u64, 10))
    } else {
        quotient(size, cut_power(d.exp.unsigned_abs() as u64, 20))
    }
}

// size / unit, if it is a whole number.
fn quotient(size: u128, unit: u128) -> Option<u128>
    requires { 0 < unit }
    ensures { MatchOption result ((n : ℕ) → n * unit ≡ size → ⊥) (λ n. n * unit ≡ size) }
{
    if size % unit != 0 {
        return None;
    }
    Some(size / unit)
}
