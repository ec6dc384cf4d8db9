//! The lines of a tail, each by itself.
ghost use Rattle.std.specs.Prelude.{◌≡◌, ◌≤◌, ◌<◌, ◌^◌, ◌++◌, ◌∷◌, [], length, IfOk, MatchResult, Ok, Err, OnOk};
ghost use Rattle.obs_rows.specs.Ranges.{IsBelow};
ghost use Rattle.cert_words.specs.Spelling.{text_of_lines};
ghost use Rattle.cert_lines.specs.Lines.{values_line, weak_line, named_line, decision_line};
ghost use Rattle.cert_lines.specs.TailForms.{begins, weak_in, name_in, value_within, values_in, decision_line_in};

use crate::ranges::{PIVOTS, VALUE_LIMIT};
use cert_words::{BAD_LINE, Number, number_at, numbers_behind, push_number};
use rinex_head::Flaw;
use std::alloc::AllocError;

/// A pivot that is too small, and its column.
#[derive(Clone, Copy, Debug, PartialEq, Eq)]
pub struct WeakPivot {
    pub column: u32,
    pub pivot: i64,
}

/// The values of the form at the two integer vectors, and the upper sum at the first, in units of 2^h.
#[derive(Clone, Copy, Debug, PartialEq, Eq)]
pub struct FormValues {
    pub h: u32,
    pub p1: i128,
    pub p2: i128,
    pub top: i128,
}

/// Whether the line begins so.
pub fn begins(word: &[u8], line: &[u8]) -> bool
    ensures { result ≡ begins word.now line.now }
{
    line.starts_with(word)
}

/// The line of these words, a column from 0 to `last_column` and its pivot.
pub fn weak_in(words: &[u8], last_column: u64, line: &[u8]) -> Result<WeakPivot, Flaw>
    requires few { last_column < 2 ^ 32 }
    requires short { length line.now ≤ 4096 }
    ensures value { result ≡ weak_in words.now last_column line.now }
    ensures spelled { IfOk result (λ w. line.now ≡ weak_line words.now w.column w.pivot) }
    ensures column { IfOk result (λ w. w.column ≤ last_column) }
    ensures pivot { IfOk result (λ w. IsBelow (2 ^ 52) w.pivot) }
{
    let numbers = numbers_behind(words, 2, line)?;
    let numbers = numbers.as_slice();
    let column = number_at(numbers, 0).natural(0, last_column)?;
    let pivot = number_at(numbers, 1).within_range(&PIVOTS)?;
    Ok(WeakPivot {
        column: column as u32,
        pivot,
    })
}

/// What stands in a line after these words, which end with a blank.
pub fn name_in<'a>(words: &[u8], line: &'a [u8]) -> Result<&'a [u8], Flaw>
    ensures value { MatchResult result
        (λ name. name_in words.now line.now ≡ Ok name.now)
        (λ flaw. name_in words.now line.now ≡ Err flaw) }
    ensures spelled { IfOk result (λ name. line.now ≡ named_line words.now name.now) }
{
    match line.strip_prefix(words) {
        Some(name) => Ok(name),
        None => Err(BAD_LINE),
    }
}

fn value_within(number: Number) -> Result<i128, Flaw>
    ensures value { result ≡ value_within number }
    ensures below { IfOk result (IsBelow (2 ^ 126)) }
    ensures exact { IfOk result (λ z. z ≡ number.value) }
{
    number.within(-VALUE_LIMIT, VALUE_LIMIT)
}

/// The line of the values.
pub fn values_in(line: &[u8]) -> Result<FormValues, Flaw>
    requires { length line.now ≤ 4096 }
    ensures value { result ≡ values_in line.now }
    ensures spelled { IfOk result (λ v. line.now ≡ values_line v.h v.p1 v.p2 v.top) }
    ensures h { IfOk result (λ v. v.h ≤ 127) }
    ensures p1 { IfOk result (λ v. IsBelow (2 ^ 126) v.p1) }
    ensures p2 { IfOk result (λ v. IsBelow (2 ^ 126) v.p2) }
    ensures top { IfOk result (λ v. IsBelow (2 ^ 126) v.top) }
{
    let numbers = numbers_behind(b"values", 4, line)?;
    let numbers = numbers.as_slice();
    let h = number_at(numbers, 0).natural(0, 127)?;
    let p1 = value_within(number_at(numbers, 1))?;
    let p2 = value_within(number_at(numbers, 2))?;
    let top = value_within(number_at(numbers, 3))?;
    Ok(FormValues {
        h: h as u32,
        p1,
        p2,
        top,
    })
}

/// Whether the integers are fixed, by the last line after the vectors.
pub fn decision_line_in(line: &[u8]) -> Result<bool, Flaw>
    ensures value { result ≡ decision_line_in line.now }
    ensures spelled { IfOk result (λ fixed. line.now ≡ decision_line fixed) }
{
    if line == b"fixed".as_slice() {
        return Ok(true);
    }
    if line == b"declined unseparated".as_slice() {
        return Ok(false);
    }
    Err(BAD_LINE)
}

/// Appends the line of these words, a column and its pivot.
pub fn push_weak_line(
    out: &mut Vec<u8>,
    words: &[u8],
    column: u32,
    pivot: i64,
) -> Result<(), AllocError>
    ensures { OnOk result
        (out.new.items ≡ out.old.items ++ text_of_lines (weak_line words.now column pivot ∷ [])) }
{
    out.extend_from_slice(words)?;
    push_number(out, column)?;
    push_number(out, pivot)?;
    out.push(b'\n')?;
    Ok(())
}

/// Appends the line of these words, which end with a blank, and a name.
pub fn push_named_line(out: &mut Vec<u8>, words: &[u8], name: &[u8]) -> Result<(), AllocError>
    ensures { OnOk result
        (out.new.items ≡ out.old.items ++ text_of_lines (named_line words.now name.now ∷ [])) }
{
    out.extend_from_slice(words)?;
    out.extend_from_slice(name)?;
    out.push(b'\n')?;
    Ok(())
}

/// Appends the line of the values.
pub fn push_values_line(out: &mut Vec<u8>, values: FormValues) -> Result<(), AllocError>
    ensures { OnOk result (out.new.items ≡ out.old.items
        ++ text_of_lines (values_line values.h values.p1 values.p2 values.top ∷ [])) }
{
    out.extend_from_slice(b"values")?;
    push_number(out, values.h)?;
    push_number(out, values.p1)?;
    push_number(out, values.p2)?;
    push_number(out, values.top)?;
    out.push(b'\n')?;
    Ok(())
}

fn decision_text(fixed: bool) -> &'static [u8]
    ensures { result.now ≡ decision_line fixed }
{
    if fixed {
        b"fixed"
    } else {
        b"declined unseparated"
    }
}

/// Appends the last line after two vectors.
pub fn push_decision_line(out: &mut Vec<u8>, fixed: bool) -> Result<(), AllocError>
    ensures { OnOk result
        (out.new.items ≡ out.old.items ++ text_of_lines (decision_line fixed ∷ [])) }
{
    out.extend_from_slice(decision_text(fixed))?;
    out.push(b'\n')?;
    Ok(())
}
