//! Numbers in the fields of a line.
ghost use Rattle.std.specs.Prelude.{◌≡◌, ◌+◌, ◌<◌, ◌≤◌, length, IfOk, IfSome, true};
ghost use Rattle.decimal_text.specs.Whole.{are_digits, number_from};
ghost use Rattle.decimal_text.specs.Fixed.{fixed_of};
ghost use Rattle.decimal_text.specs.Exp.{dec_of};
ghost use Rattle.rinex_head.specs.Columns.{column, columns};
ghost use Rattle.rinex_head.specs.Fields.{whole_of, filled_of, readable};

use crate::columns::field;
use crate::place::{Flaw, What};
use decimal_text::{Dec, all_digits, read_exp, read_fixed, without_blanks};

fn number_of(digits: &[u8]) -> u32
    requires few { length digits.now ≤ 6 }
    requires digits { are_digits digits.now ≡ true }
    ensures value { result ≡ number_from 0 digits.now }
    ensures small { result ≤ 999_999 }
    ensures of_four { length digits.now ≤ 4 → result ≤ 9999 }
    ensures of_two { length digits.now ≤ 2 → result ≤ 99 }
{
    let mut number: u32 = 0;
    let mut rest = digits;
    while let [b, after @ ..] = rest {
        number = 10 * number + (*b - b'0') as u32;
        rest = after;
    }
    number
}

/// The whole number in a field of at most six columns that begins at this one, if they aren't all blank.
pub fn wide_number(field: &[u8], first: u32) -> Result<Option<u32>, Flaw>
    requires { length field.now ≤ 6 }
    ensures value { result ≡ whole_of first field.now }
    ensures of_four { length field.now ≤ 4 → IfOk result (λ found. IfSome found (λ n. n ≤ 9999)) }
    ensures of_two { length field.now ≤ 2 → IfOk result (λ found. IfSome found (λ n. n ≤ 99)) }
{
    let digits = without_blanks(field);
    if digits.is_empty() {
        return Ok(None);
    }
    if !all_digits(digits) {
        return Err(bad_field(first));
    }
    Ok(Some(number_of(digits)))
}

/// The whole number in at most four columns, or none where they are blank.
pub fn whole_number(field: &[u8], first: u32) -> Result<Option<u16>, Flaw>
    requires { length field.now ≤ 4 }
    ensures value { result ≡ whole_of first field.now }
    ensures small { IfOk result (λ found. IfSome found (λ n. n ≤ 9999)) }
    ensures of_two { length field.now ≤ 2 → IfOk result (λ found. IfSome found (λ n. n ≤ 99)) }
{
    match wide_number(field, first)? {
        Some(number) => Ok(Some(number as u16)),
        None => Ok(None),
    }
}

/// The whole number in at most four columns that must have one.
pub fn filled_number(field: &[u8], first: u32) -> Result<u16, Flaw>
    requires { length field.now ≤ 4 }
    ensures value { result ≡ filled_of first field.now }
    ensures small { IfOk result (λ n. n ≤ 9999) }
    ensures of_two { length field.now ≤ 2 → IfOk result (λ n. n ≤ 99) }
{
    match whole_number(field, first)? {
        Some(number) => Ok(number),
        None => Err(bad_field(first)),
    }
}

/// The number in the two columns from this one on, which must have one.
pub fn two_digits(line: &[u8], first: u32) -> Result<u8, Flaw>
    requires from_one { 1 ≤ first }
    requires near { first ≤ 100 }
    ensures value { result ≡ filled_of first (columns line.now first 2) }
    ensures small { IfOk result (λ n. n ≤ 99) }
{
    let number = filled_number(&field::<2>(line, first as usize), first)?;
    Ok(number as u8)
}

/// The number with a point, times 10^places, in a field that begins at this column, where it must be there.
pub fn fixed_number(field: &[u8], first: u32, places: u32) -> Result<i64, Flaw>
    requires { places ≤ 9 }
    ensures { result ≡ readable first (fixed_of field.now places) }
{
    match read_fixed(field, places) {
        Ok(number) => Ok(number),
        Err(_) => Err(bad_field(first)),
    }
}

/// The number with an exponent in a field that begins at this column, where it must be there.
pub fn exponent_number(field: &[u8], first: u32) -> Result<Dec, Flaw>
    requires { length field.now ≤ 4096 }
    ensures { result ≡ readable first (dec_of field.now) }
{
    match read_exp(field) {
        Ok(number) => Ok(number),
        Err(_) => Err(bad_field(first)),
    }
}

/// What is wrong, from that column on.
pub fn flaw(column: u32, what: What) -> Flaw
    ensures { result ≡ record { column = column; what = what } }
{
    Flaw { column, what }
}

/// The field that begins at this column can't be read.
pub fn bad_field(column: u32) -> Flaw
    ensures { result ≡ record { column = column; what = What.BadField } }
{
    Flaw {
        column,
        what: What::BadField,
    }
}
