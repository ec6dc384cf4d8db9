//! Fields of the lines of satellites: names, values and their loss-of-lock digits.
ghost use Rattle.std.specs.Prelude.{◌≡◌, ◌+◌, ◌≤◌, IfOk, IfSome, IfErr, OnOk, Ok, Err};
ghost use Rattle.decimal_text.specs.Fixed.{fixed_of};
ghost use Rattle.rinex_head.specs.Columns.{columns};
ghost use Rattle.rinex_head.specs.Systems.{last_number_of};
ghost use Rattle.obs_fields.specs.SatFields.{is_letter, digit_of, number_at, letter_at, satellite_at, has_no_digit_above_0, unless_zero, amount_in, lock_of, with_amount, set_in, values_in};

use crate::amounts::usual_amount;
use crate::{KeptType, Layout};
use decimal_text::NumberFault;
use obs_store::{ObsType, SatValues, Value};
use rinex_head::{Flaw, System, What, bad_field, byte_in, field, fixed};

fn bad_satellite(column: u32) -> Flaw
    ensures { result ≡ record { column = column; what = What.BadSat } }
{
    Flaw {
        column,
        what: What::BadSat,
    }
}

fn is_letter_byte(b: u8) -> bool
    ensures { result ≡ is_letter b }
{
    (b >= b'A' && b <= b'Z') || (b >= b'a' && b <= b'z')
}

// A digit of a number; a blank counts as 0.
pub(crate) fn digit(b: u8) -> Option<u8>
    ensures value { result ≡ digit_of b }
    ensures small { IfSome result (λ d. d ≤ 9) }
{
    if b == b' ' {
        return Some(0);
    }
    if b >= b'0' && b <= b'9' {
        return Some(b - b'0');
    }
    None
}

// The number in the two columns after this one, or 0 where there is none.
fn number(line: &[u8], first: u32) -> u8
    requires from_one { 1 ≤ first }
    requires near { first ≤ 4900 }
    ensures value { result ≡ number_at line.now first }
    ensures small { result ≤ 99 }
{
    let at = first as usize;
    match (digit(byte_in(line, at + 1)), digit(byte_in(line, at + 2))) {
        (Some(tens), Some(ones)) => 10 * tens + ones,
        _ => 0,
    }
}

fn letter(system: System, blank: bool, line: &[u8], first: u32) -> u8
    requires { 1 ≤ first }
    ensures { result ≡ letter_at system blank line.now first }
{
    let letter = byte_in(line, first as usize);
    if blank && letter == b' ' {
        return system.letter();
    }
    letter
}

/// The number of a satellite of the system whose name begins at this column, or nothing at one of another system. Where a
/// letter may be blank, it stands for the system's.
#[tactic(auto, unfolding(crate::specs::SatFields::satellite_at))]
pub fn satellite(system: System, blank: bool, line: &[u8], first: u32) -> Result<Option<u8>, Flaw>
    requires from_one { 1 ≤ first }
    requires near { first ≤ 4900 }
    ensures value { result ≡ satellite_at system blank line.now first }
    ensures from_one { IfOk result (λ found. IfSome found (λ n. 1 ≤ n)) }
    ensures to_last { IfOk result (λ found. IfSome found (λ n. n ≤ last_number_of system)) }
{
    let letter = letter(system, blank, line, first);
    let number = number(line, first);
    if !is_letter_byte(letter) || number < 1 {
        return Err(bad_satellite(first));
    }
    if letter != system.letter() {
        return Ok(None);
    }
    if number > system.last_number() {
        return Err(bad_satellite(first));
    }
    Ok(Some(number))
}

fn is_all_zero(text: &[u8]) -> bool
    ensures { result ≡ has_no_digit_above_0 text.now }
{
    text.iter().all(|b| !(*b >= b'1' && *b <= b'9'))
}

// The amount in these columns, where the line has them all and it is spelled in the usual way.
fn usual_amount_at(line: &[u8], first: usize) -> Option<i64>
    requires from_one { 1 ≤ first }
    requires near { first ≤ 4900 }
    ensures { IfSome result (λ z. fixed_of (columns line.now first 14) 3 ≡ Ok z) }
{
    if line.len() < first + 13 {
        return None;
    }
    usual_amount(&line[first - 1..first + 13])
}

// One that is 0 is missing.
fn unless_zero(amount: i64) -> Option<i64>
    ensures { result ≡ unless_zero amount }
{
    if amount == 0 { None } else { Some(amount) }
}

// However it is spelled.
#[inline(never)]
#[tactic(auto, unfolding(crate::specs::SatFields::amount_in))]
fn amount(line: &[u8], first: u32) -> Result<Option<i64>, Flaw>
    requires from_one { 1 ≤ first }
    requires near { first ≤ 4900 }
    ensures { result ≡ amount_in line.now first }
{
    let text = field::<14>(line, first as usize);
    match fixed(&text, 3) {
        Ok(amount) => Ok(unless_zero(amount)),
        Err(NumberFault::Blank) => Ok(None),
        Err(NumberFault::TooManyPlaces) if is_all_zero(&text) => Ok(None),
        Err(_) => Err(bad_field(first)),
    }
}

fn lock_digit(b: u8, at: u32) -> Result<u8, Flaw>
    ensures { result ≡ lock_of at b }
{
    match b {
        b' ' => Ok(0),
        b'0'..=b'7' => Ok(b - b'0'),
        _ => Err(bad_field(at)),
    }
}

// Sets the value of a type to an amount with the digit after it, which isn't looked at where the amount is missing. Each part goes
// where it is stored: an answer in memory would be read again right after its parts were written.
#[inline(always)]
fn set_amount(
    line: &[u8],
    first: u32,
    kind: ObsType,
    amount: Option<i64>,
    values: &mut SatValues,
) -> Result<(), Flaw>
    requires { first ≤ 4900 }
    ensures ok { OnOk result (with_amount line.now first kind values.old amount ≡ Ok values.new) }
    ensures err { IfErr result (λ flaw.
        with_amount line.now first kind values.old amount ≡ Err flaw) }
{
    match amount {
        None => values.set(kind, None),
        Some(amount) => {
            let at = first + 14;
            let lock = lock_digit(byte_in(line, at as usize), at)?;
            values.set(kind, Some(Value { amount, lock }));
        }
    }
    Ok(())
}

// Sets the value of a type to that in the 14 columns from this one on, with the digit after it.
#[inline(always)]
#[tactic(auto, unfolding(crate::specs::SatFields::amount_in, crate::specs::SatFields::value_in))]
fn set_value(line: &[u8], first: u32, kind: ObsType, values: &mut SatValues) -> Result<(), Flaw>
    requires from_one { 1 ≤ first }
    requires near { first ≤ 4900 }
    ensures ok { OnOk result (set_in line.now kind values.old (Some first) ≡ Ok values.new) }
    ensures err { IfErr result (λ flaw. set_in line.now kind values.old (Some first) ≡ Err flaw) }
{
    if let Some(usual) = usual_amount_at(line, first as usize) {
        return set_amount(line, first, kind, unless_zero(usual), values);
    }
    let amount = amount(line, first)?;
    set_amount(line, first, kind, amount, values)
}

/// Sets the values of the kept types that line number `at` of a satellite has, from 0. After an `Err` some of them may be set.
#[tactic(auto, unfolding(crate::specs::SatFields::values_in))]
pub fn set_values(
    layout: Layout,
    at: u8,
    line: &[u8],
    kept: &[KeptType],
    values: &mut SatValues,
) -> Result<(), Flaw>
    ensures ok { OnOk result (values_in layout at kept.now line.now values.old ≡ Ok values.new) }
    ensures err { IfErr result (λ flaw.
        values_in layout at kept.now line.now values.old ≡ Err flaw) }
{
    for one in kept {
        match layout.value_column(at, one.number) {
            Some(column) => set_value(line, column, one.kind, values)?,
            None => {}
        }
    }
    Ok(())
}
