//! Numbers of at most 18 digits at the head of a text, which nearly all numbers of a certificate are. They are read in 64
//! bits, straight into an array and with no column. Where a text begins otherwise nothing is said of it.
ghost use Rattle.std.specs.Prelude.{◌≡◌, ◌-◌, ◌<◌, ◌≤◌, ◌∷◌, ◌++◌, ◌^◌, length, take, IfSome};
ghost use Rattle.std.specs.Fmt.{decimal, signed_decimal};
ghost use Rattle.decimal_text.specs.Whole.{size_of};
ghost use Rattle.cert_words.specs.Spelling.{behind_blanks};
ghost use Rattle.cert_words.specs.declared.short.TheConstants.{MOST_AHEAD};

use decimal_text::is_digit_byte;

// After a number up to this one there is room for one more digit in 63 bits.
const LAST_SHORT: u64 = 900_000_000_000_000_000;

// How many bytes after a number's first digit are read with no look at where the text ends, if it is far enough.
const MOST_AHEAD: usize = 7;

/// The numbers at the head of a text, by their count and each after one blank, at the head of an array; and the text after
/// them.
#[inline(always)]
pub fn leading_numbers<const N: usize>(text: &[u8], count: usize) -> Option<([i64; N], &[u8])>
    requires { count ≤ N }
    ensures count { IfSome result (λ r. length r.0 ≡ N) }
    ensures spelled { IfSome result (λ r. text.now ≡ behind_blanks (take count r.0) ++ r.1.now) }
{
    let mut values = [0i64; N];
    let mut left = text;
    for k in 0..count {
        let (value, behind) = leading_number(left)?;
        values[k] = value;
        left = behind;
    }
    Some((values, left))
}

/// The number after a blank at the head of a text, and the text after it.
#[inline(always)]
pub fn leading_number(text: &[u8]) -> Option<(i64, &[u8])>
    ensures small { IfSome result (λ r. size_of r.0 < 2 ^ 63) }
    ensures spelled { IfSome result (λ r. text.now ≡ 32 ∷ (signed_decimal r.0 ++ r.1.now)) }
{
    if text.len() < MOST_AHEAD + 3 {
        blank_and_number::<0>(text)
    } else {
        blank_and_number::<MOST_AHEAD>(text)
    }
}

// The same, where as many bytes as a blank, a sign, a digit and `AHEAD` more are there, or `AHEAD` is 0: one look at the length
// saves those on the way.
#[inline(always)]
fn blank_and_number<const AHEAD: usize>(text: &[u8]) -> Option<(i64, &[u8])>
    requires few { AHEAD ≤ MOST_AHEAD }
    requires there { AHEAD ≤ length text.now - 3 }
    ensures small { IfSome result (λ r. size_of r.0 < 2 ^ 63) }
    ensures spelled { IfSome result (λ r. text.now ≡ 32 ∷ (signed_decimal r.0 ++ r.1.now)) }
{
    let [b' ', word @ ..] = text else {
        return None;
    };
    leading_whole::<AHEAD>(word)
}

// The number at the head of a text, with its sign, and the text after it.
//
// It and its neighbours stand in their callers' code: a call with its answer costs as much as four digits.
#[inline(always)]
pub(crate) fn leading_whole<const AHEAD: usize>(text: &[u8]) -> Option<(i64, &[u8])>
    requires few { AHEAD ≤ MOST_AHEAD }
    requires there { AHEAD ≤ length text.now - 2 }
    ensures spelled { IfSome result (λ r. text.now ≡ signed_decimal r.0 ++ r.1.now) }
    ensures small { IfSome result (λ r. size_of r.0 < 2 ^ 63) }
{
    match text {
        [b'-', digits @ ..] => {
            let (number, behind) = leading_natural::<AHEAD>(digits)?;
            if number == 0 {
                return None;
            }
            Some((-(number as i64), behind))
        }
        _ => {
            let (number, behind) = leading_natural::<AHEAD>(text)?;
            Some((number as i64, behind))
        }
    }
}

// The number without a sign at the head of a text, and what follows it.
#[inline(always)]
fn leading_natural<const AHEAD: usize>(text: &[u8]) -> Option<(u64, &[u8])>
    requires few { AHEAD ≤ MOST_AHEAD }
    requires there { AHEAD ≤ length text.now - 1 }
    ensures spelled { IfSome result (λ r. text.now ≡ decimal r.0 ++ r.1.now) }
    ensures small { IfSome result (λ r. r.0 < 2 ^ 63) }
{
    let [b, rest @ ..] = text else {
        return None;
    };
    if *b == b'0' {
        return Some((0, rest));
    }
    if !is_digit_byte(*b) {
        return None;
    }
    further_digits::<AHEAD>((*b - b'0') as u64, rest)
}

// The number that begins with this digit and goes on at the head of a text, and the text after it.
//
// What is read of the next `AHEAD` bytes fits its word, whatever they are.
#[inline(always)]
fn further_digits<const AHEAD: usize>(first: u64, text: &[u8]) -> Option<(u64, &[u8])>
    requires few { AHEAD ≤ MOST_AHEAD }
    requires there { AHEAD ≤ length text.now }
    requires from { 0 < first }
    requires to { first < 10 }
    ensures spelled { IfSome result (λ r. decimal first ++ text.now ≡ decimal r.0 ++ r.1.now) }
    ensures small { IfSome result (λ r. r.0 < 2 ^ 63) }
{
    let mut number = first;
    for k in 0..AHEAD {
        let b = text[k];
        if !is_digit_byte(b) {
            return Some((number, &text[k..]));
        }
        number = 10 * number + (b - b'0') as u64;
    }
    last_digits(number, &text[AHEAD..])
}

// The number that begins with this one and goes on at the head of a text, however near its end, and the text after it.
#[inline(always)]
fn last_digits(begun: u64, text: &[u8]) -> Option<(u64, &[u8])>
    requires from { 0 < begun }
    requires to { begun < 2 ^ 63 }
    ensures spelled { IfSome result (λ r. decimal begun ++ text.now ≡ decimal r.0 ++ r.1.now) }
    ensures small { IfSome result (λ r. r.0 < 2 ^ 63) }
{
    let mut number = begun;
    let mut rest = text;
    while let [b, after @ ..] = rest {
        if !is_digit_byte(*b) {
            return Some((number, rest));
        }
        if number > LAST_SHORT {
            return None;
        }
        number = 10 * number + (*b - b'0') as u64;
        rest = after;
    }
    Some((number, rest))
}
