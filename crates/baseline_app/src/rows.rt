//! Rows of tables: runs on the file F, whose text is written out, and what they end with.
use crate::tests::{Fails, Ran, USAGE, ended_with, run_on};
use job_answers::Status;
use std::alloc::{AllocError, Global};
use std::str;

/// A run on the file F, and what it ends with.
pub(crate) struct Row {
    /// The words after the program's name.
    pub(crate) words: &'static [&'static str],
    /// The lines of F: those that it begins with, as other rows do, and its own.
    pub(crate) head: &'static [&'static str],
    pub(crate) lines: &'static [&'static str],
    pub(crate) ends: Ends,
}

/// The ways in which such a run ends.
pub(crate) enum Ends {
    /// Status 0, with these lines on standard output alone.
    Done(&'static [&'static str]),
    /// Status 0, with a line on standard output for each of these alone: the word, and two numbers at most 5 apart, with this one
    /// between them.
    Held(&'static [(&'static str, i64)]),
    /// Status 1, with these lines on standard output alone.
    Declined(&'static [&'static str]),
    /// Status 3, with this after `refused: ` on standard error alone.
    Refused(&'static str),
    /// Status 2, with the usage line on standard error alone.
    Usage,
}

/// Appends lines, each with its end.
pub(crate) fn push_lines(text: &mut Vec<u8>, lines: &[&str]) -> Result<(), AllocError> {
    for line in lines {
        text.extend_from_slice(line.as_bytes())?;
        text.push(b'\n')?;
    }
    Ok(())
}

// Whether these lines alone came, with this status.
fn says(alloc: Global, ran: &Ran, status: Status, lines: &[&str]) -> Result<bool, AllocError> {
    let mut text = Vec::new(alloc);
    push_lines(&mut text, lines)?;
    Ok(ended_with(ran, status, &text, b""))
}

fn is_refused(alloc: Global, ran: &Ran, place: &str) -> Result<bool, AllocError> {
    let line = format!(in alloc; "refused: {place}\n")?;
    Ok(ended_with(ran, Status::Refused, b"", line.as_bytes()))
}

// Whether the line is this word and two numbers that are at most 5 apart, with the wanted one between them.
fn holds(line: &str, word: &str, wanted: i64) -> bool {
    let mut words = line.split_whitespace();
    let is_named = words.next().unwrap_or("") == word;
    let low = words.next().unwrap_or("").parse::<i64>().unwrap_or(1);
    let high = words.next().unwrap_or("").parse::<i64>().unwrap_or(0);
    let is_held = low <= wanted && wanted <= high && low.abs_diff(high) <= 5;
    is_named && is_held && words.next().is_none()
}

fn are_held(text: &str, held: &[(&str, i64)]) -> bool {
    let mut lines = text.lines();
    for row in held.iter() {
        let (word, wanted) = *row;
        if !holds(lines.next().unwrap_or(""), word, wanted) {
            return false;
        }
    }
    lines.next().is_none()
}

fn has_held(ran: &Ran, held: &[(&str, i64)]) -> bool {
    let text = str::from_utf8(ran.out.bytes()).unwrap_or("");
    ran.status == Status::Done && ran.err.bytes().is_empty() && are_held(text, held)
}

/// Whether a run on F with this text ends so.
pub(crate) fn ends_so(
    alloc: Global,
    words: &[&str],
    text: &[u8],
    ends: &Ends,
) -> Result<bool, AllocError> {
    let ran = run_on(alloc, words, text, 8_000, Fails::none(alloc))?;
    match ends {
        Ends::Done(lines) => says(alloc, &ran, Status::Done, *lines),
        Ends::Held(held) => Ok(has_held(&ran, *held)),
        Ends::Declined(lines) => says(alloc, &ran, Status::Declined, *lines),
        Ends::Refused(place) => is_refused(alloc, &ran, *place),
        Ends::Usage => Ok(ended_with(&ran, Status::Usage, b"", USAGE)),
    }
}

// Whether the row's run ends as it says.
fn is_right(alloc: Global, row: &Row) -> Result<bool, AllocError> {
    let mut text = Vec::new(alloc);
    push_lines(&mut text, row.head)?;
    push_lines(&mut text, row.lines)?;
    ends_so(alloc, row.words, &text, &row.ends)
}

/// The first row whose run ends otherwise.
pub(crate) fn first_fault(alloc: Global, rows: &[Row]) -> Option<usize> {
    for (at, row) in rows.iter().enumerate() {
        if !matches!(is_right(alloc, row), Ok(true)) {
            return Some(at);
        }
    }
    None
}
