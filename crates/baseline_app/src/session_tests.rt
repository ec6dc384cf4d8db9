//! Runs on the files of simulated sessions, each with what it ends with.
use crate::session_rows::{Near, SESSION_ROWS, SessionRow, Text, Wanted};
use crate::session_texts::{ROOM, in_last_places, simulated, text_of};
use crate::tests::{Fails, Ran, named, run_on, run_over};
use job_answers::Status;
use line_source::MemFiles;
use std::alloc::{AllocError, Global};
use std::str;

/// The session of most rows, as words of `sim`.
pub(crate) const SEED_1: &[&str] = &["1", "60", "8"];

/// The words of `fix` on the three files.
pub(crate) const FIX: &[&str] = &["fix", "B", "R", "N"];

/// A run on the three files of a simulated session.
pub(crate) fn run_of(
    alloc: Global,
    session: &'static [&'static str],
    base: Text,
    rover: Text,
    words: &[&str],
) -> Result<Ran, AllocError> {
    let base = text_of(alloc, base, session)?;
    let rover = text_of(alloc, rover, session)?;
    let nav = simulated(alloc, "nav", session)?;
    let list = vec![in alloc;
        named(alloc, "B", base.as_bytes())?,
        named(alloc, "R", rover.as_bytes())?,
        named(alloc, "N", nav.as_bytes())?,
    ]?;
    let mut files = MemFiles::new(list, Vec::new(alloc));
    run_over(
        alloc,
        words,
        &mut files,
        ROOM,
        4096,
        Vec::new(alloc),
        Vec::new(alloc),
    )
}

fn has_all(text: &str, parts: &[&str]) -> bool {
    for part in parts.iter() {
        if !text.contains(*part) {
            return false;
        }
    }
    true
}

/// Whether the text is as wanted.
pub(crate) fn is_wanted(text: &[u8], wanted: &Wanted) -> bool {
    match wanted {
        Wanted::Whole(whole) => text == whole.as_bytes(),
        Wanted::Parts { begin, within, end } => {
            let text = str::from_utf8(text).unwrap_or("");
            text.starts_with(*begin) && text.ends_with(*end) && has_all(text, *within)
        }
    }
}

// The number at that place among the words of a line, which has four places, in units of the last.
fn number_at(line: &str, place: usize) -> Option<i64> {
    in_last_places(line.split_whitespace().nth(place)?, 10_000)
}

// Whether the line's coordinates are near those of the offset.
fn is_near(line: &str, near: &Near) -> bool {
    for (at, wanted) in near.offset.iter().enumerate() {
        let Some(found) = number_at(line, near.skipped.saturating_add(at)) else {
            return false;
        };
        if found.abs_diff(*wanted) > near.most {
            return false;
        }
    }
    true
}

// Whether as many lines as wanted begin with the word, each of them near.
fn are_near(text: &str, near: &Near) -> bool {
    let mut lines: usize = 0;
    for line in text.lines() {
        if line.starts_with(near.word) {
            if !is_near(line, near) {
                return false;
            }
            lines = lines.saturating_add(1);
        }
    }
    lines == near.lines
}

/// Whether the command says of the text that it is certified.
pub(crate) fn is_certified(
    alloc: Global,
    command: &'static str,
    text: &[u8],
) -> Result<bool, AllocError> {
    let ran = run_on(alloc, &[command, "F"], text, 1000, Fails::none(alloc))?;
    Ok(ran.status == Status::Done && ran.out.bytes() == b"certified\n".as_slice())
}

// What else a row says of what came: of the places, and of the certificate.
fn is_further(alloc: Global, row: &SessionRow, ran: &Ran) -> Result<bool, AllocError> {
    let err = str::from_utf8(ran.err.bytes()).unwrap_or("");
    if let Some(near) = &row.near
        && !are_near(err, near)
    {
        return Ok(false);
    }
    match row.certified_by {
        Some(command) => is_certified(alloc, command, ran.out.bytes()),
        None => Ok(true),
    }
}

// Whether the row's run ends as it says.
fn is_right(alloc: Global, row: &SessionRow) -> Result<bool, AllocError> {
    let ran = run_of(alloc, row.simulated, row.base, row.rover, row.words)?;
    if ran.status != row.status
        || !is_wanted(ran.out.bytes(), &row.out)
        || !is_wanted(ran.err.bytes(), &row.err)
    {
        return Ok(false);
    }
    is_further(alloc, row, &ran)
}

// The first row whose run ends otherwise.
fn first_fault(alloc: Global) -> Option<usize> {
    for (at, row) in SESSION_ROWS.iter().enumerate() {
        if !matches!(is_right(alloc, row), Ok(true)) {
            return Some(at);
        }
    }
    None
}

#[test]
fn simulated_sessions(rt: HostRuntime) {
    assert_eq!(rt; first_fault(rt.alloc()), None);
}

// Whether `fix` writes the same, byte for byte, of the observations in RINEX 2.11.
fn is_same_of_rinex_2(alloc: Global) -> Result<bool, AllocError> {
    let plain = run_of(alloc, SEED_1, Text::Base, Text::Rover, FIX)?;
    let other = run_of(alloc, SEED_1, Text::BaseOfRinex2, Text::RoverOfRinex2, FIX)?;
    let is_same = other.out.bytes() == plain.out.bytes() && other.err.bytes() == plain.err.bytes();
    Ok(other.status == Status::Done && is_same)
}

#[test]
fn fixes_observations_of_rinex_2(rt: HostRuntime) {
    assert!(rt; matches!(is_same_of_rinex_2(rt.alloc()), Ok(true)));
}
