//! Numbers with an exponent.
ghost use Rattle.std.specs.Prelude.{◌≡◌, ◌+◌, ◌*◌, ◌≤◌, ◌<◌, length, Ok, Err, Result, MatchOption, IfOk, IfErr, None};
ghost use Rattle.decimal_text.specs.declared.exponent.Dec.{Dec};
ghost use Rattle.decimal_text.specs.declared.fixed.NumberFault.{NumberFault};
ghost use Rattle.decimal_text.specs.Whole.{size_of};
ghost use Rattle.decimal_text.specs.Fixed.{Ends};
ghost use Rattle.decimal_text.specs.ExpForm.{IsReadAsDec};
ghost use Rattle.decimal_text.specs.Exp.{is_mark, behind_mark, ends_blank, only_blanks, power_digits, power_of, dec_from, dec_of, IsMarkAt};

use crate::blanks::{all_blank, is_blank_byte};
use crate::fixed::{LIMIT, NumberFault, Scan, scan_text, with_sign};
use crate::whole::is_digit_byte;

/// The number mant · 10^exp, where exp is the written exponent less the count of digits after the point.
#[derive(Clone, Copy, Debug, PartialEq, Eq)]
pub struct Dec {
    pub mant: i64,
    pub exp: i32,
}

fn is_mark_byte(b: u8) -> bool
    ensures { result ≡ is_mark b }
{
    b == b'D' || b == b'd' || b == b'E' || b == b'e'
}

// The place of the first mark.
fn mark_place(text: &[u8]) -> Option<usize>
    ensures { MatchOption result (behind_mark text.now ≡ None) (λ at. IsMarkAt text.now at) }
{
    for at in 0..text.len() {
        if is_mark_byte(text[at]) {
            return Some(at);
        }
    }
    None
}

fn ends_with_blank(text: &[u8]) -> bool
    ensures { result ≡ ends_blank text.now }
{
    match text {
        [] => false,
        [.., last] => is_blank_byte(*last),
    }
}

fn scan_blanks(text: &[u8], from: usize, number: u16) -> Result<u16, usize>
    requires { from + length text.now ≤ 4096 }
    ensures value { result ≡ only_blanks text.now from number }
    ensures same { IfOk result (λ n. n ≡ number) }
    ensures place { IfErr result (λ at. at ≤ 4096) }
{
    let mut at = from;
    let mut rest = text;
    while let [b, after @ ..] = rest {
        if !is_blank_byte(*b) {
            return Err(at);
        }
        at += 1;
        rest = after;
    }
    Ok(number)
}

// One to three digits, and blanks.
fn scan_digits(text: &[u8], from: usize) -> Result<u16, usize>
    requires { from + length text.now ≤ 4096 }
    ensures value { result ≡ power_digits text.now from 0 0 }
    ensures bound { IfOk result (λ n. n ≤ 999) }
    ensures place { IfErr result (λ at. at ≤ 4096) }
{
    let mut number: u16 = 0;
    let mut count: u32 = 0;
    let mut at = from;
    let mut rest = text;
    while let [b, after @ ..] = rest {
        if !is_digit_byte(*b) {
            return if count == 0 {
                Err(at)
            } else {
                scan_blanks(rest, at, number)
            };
        }
        if count == 3 {
            return Err(at);
        }
        number = 10 * number + (*b - b'0') as u16;
        count += 1;
        at += 1;
        rest = after;
    }
    if count == 0 { Err(at) } else { Ok(number) }
}

// Reads what stands after the mark.
fn scan_power(text: &[u8]) -> Result<i32, usize>
    requires { length text.now ≤ 4096 }
    ensures value { result ≡ power_of text.now }
    ensures bound { IfOk result (λ z. size_of z ≤ 999) }
    ensures place { IfErr result (λ at. at ≤ 4096) }
{
    match text {
        [b'+', digits @ ..] => {
            let number = scan_digits(digits, 1)?;
            Ok(number as i32)
        }
        [b'-', digits @ ..] => {
            let number = scan_digits(digits, 1)?;
            Ok(-(number as i32))
        }
        _ => {
            let number = scan_digits(text, 0)?;
            Ok(number as i32)
        }
    }
}

fn scanned_dec(read: Scan, power: i32) -> Result<Dec, NumberFault>
    requires number { read.number ≤ 1_000_000_000_000_000_000 }
    requires places { read.places ≤ 4096 }
    requires power { size_of power ≤ 999 }
    ensures { result ≡ dec_from (Ends read.negative read.number read.places) power }
{
    if read.number >= LIMIT {
        return Err(NumberFault::TooLong);
    }
    Ok(Dec {
        mant: with_sign(read.negative, read.number),
        exp: power - read.places as i32,
    })
}

// What the text gives, by the definition that walks over it. The form's clauses of `read_exp` follow from this one, once
// and not at each of its answers.
fn read_marked(text: &[u8]) -> Result<Dec, NumberFault>
    requires { length text.now ≤ 4096 }
    ensures { result ≡ dec_of text.now }
{
    if all_blank(text) {
        return Err(NumberFault::Blank);
    }
    let Some(mark) = mark_place(text) else {
        return match scan_text(text) {
            Ok(read) => scanned_dec(read, 0),
            Err(at) => Err(NumberFault::BadChar { at }),
        };
    };
    let front = &text[..mark];
    let read = match scan_text(front) {
        Ok(read) => read,
        Err(at) => return Err(NumberFault::BadChar { at }),
    };
    if ends_with_blank(front) {
        return Err(NumberFault::BadChar { at: mark });
    }
    match scan_power(&text[mark + 1..]) {
        Ok(power) => scanned_dec(read, power),
        Err(at) => Err(NumberFault::BadChar { at: mark + 1 + at }),
    }
}

/// The number that the text spells, of at most 4,096 bytes: a number with a point, and next to it, before the blanks at
/// its end, at most one exponent: one of `D`, `d`, `E` and `e`, a sign or none, one to three digits (RINEX 3, navigation
/// record). `TooManyPlaces` never comes. It takes no memory.
pub fn read_exp(text: &[u8]) -> Result<Dec, NumberFault>
    requires { length text.now ≤ 4096 }
    ensures value { result ≡ dec_of text.now }
    ensures form { IsReadAsDec text.now result }
    ensures small { IfOk result (λ d. size_of d.mant < 1_000_000_000_000_000_000) }
    ensures only { (other : Result Dec NumberFault) → IsReadAsDec text.now other → other ≡ result }
{
    read_marked(text)
}
