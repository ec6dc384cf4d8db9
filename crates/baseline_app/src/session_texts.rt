//! The texts of simulated sessions, as `sim` writes them, and what they are changed to.
use crate::session_rows::Text;
use crate::tests::run_over;
use line_source::MemFiles;
use std::alloc::{AllocError, Global};
use std::str;

/// Enough for any text that these runs write.
pub(crate) const ROOM: usize = 200_000;

/// A text of a simulated session.
pub(crate) fn simulated(
    alloc: Global,
    part: &'static str,
    words: &'static [&'static str],
) -> Result<String, AllocError> {
    let mut all = vec![in alloc; "sim", part]?;
    all.extend_from_slice(words)?;
    let mut files = MemFiles::new(Vec::new(alloc), Vec::new(alloc));
    let ran = run_over(
        alloc,
        &all,
        &mut files,
        ROOM,
        4096,
        Vec::new(alloc),
        Vec::new(alloc),
    )?;
    String::from_str(alloc, str::from_utf8(ran.out.bytes()).unwrap_or(""))
}

/// A number in units of its last place, of which `units` make one.
pub(crate) fn in_last_places(number: &str, units: i64) -> Option<i64> {
    let digits = number.strip_prefix("-").unwrap_or(number);
    let (whole, places) = digits.split_once(".")?;
    let whole = whole.parse::<i64>().ok()?;
    let places = places.parse::<i64>().ok()?;
    let size = whole.saturating_mul(units).saturating_add(places);
    if digits.len() < number.len() {
        Some(0_i64.saturating_sub(size))
    } else {
        Some(size)
    }
}

// The line of a satellite with half a cycle more in its second number.
fn with_half_a_cycle(alloc: Global, line: &str) -> Result<String, AllocError> {
    let phase = line.split_whitespace().nth(2).unwrap_or("");
    let Some((before, after)) = line.split_once(phase) else {
        return String::from_str(alloc, line);
    };
    let thousandths = in_last_places(phase, 1000).unwrap_or(0);
    let sum = thousandths.saturating_add(500).unsigned_abs();
    format!(in alloc; "{before}{}.{:03}{after}", sum / 1000, sum % 1000)
}

fn half_cycle(alloc: Global, text: &str) -> Result<String, AllocError> {
    let mut out = String::new(alloc);
    for line in text.lines() {
        if line.starts_with("G03") {
            let changed = with_half_a_cycle(alloc, line)?;
            out.push_str(changed.as_str())?;
        } else {
            out.push_str(line)?;
        }
        out.push('\n')?;
    }
    Ok(out)
}

// Of epoch 7, whose line is the seventieth, the first three of eight satellites are left.
fn with_three(alloc: Global, text: &str) -> Result<String, AllocError> {
    let mut out = String::new(alloc);
    for (at, line) in text.lines().enumerate() {
        if at == 69 {
            out.push_str(line.strip_suffix("8").unwrap_or(""))?;
            out.push_str("3\n")?;
        } else if at < 73 || at > 77 {
            out.push_str(line)?;
            out.push('\n')?;
        }
    }
    Ok(out)
}

const VERSION_OF_RINEX_2: &str =
    "     2.11           OBSERVATION DATA    G (GPS)             RINEX VERSION / TYPE";

const TYPES_OF_RINEX_2: &str =
    "     7    C1    L1    D1    S1    S2    P2    L2            # / TYPES OF OBSERV";

// What a line of a satellite says of L1, and what of L2.
fn values_of(line: &str) -> Option<(&str, &str)> {
    if line.starts_with("G0") {
        line.get(3..)?.split_at_checked(32)
    } else {
        None
    }
}

// Code and phase on L1 stand in the first line of a satellite; those on L2 are the sixth and the seventh type, in the second.
fn push_of_rinex_2(out: &mut String, line: &str) -> Result<(), AllocError> {
    if line.ends_with("RINEX VERSION / TYPE") {
        out.push_str(VERSION_OF_RINEX_2)?;
    } else if line.ends_with("SYS / # / OBS TYPES") {
        out.push_str(TYPES_OF_RINEX_2)?;
    } else if let Some(epoch) = line.strip_prefix("> 20") {
        out.push(' ')?;
        out.push_str(epoch)?;
        out.push_str("G01G02G03G04G05G06G07G08")?;
    } else if let Some((first, second)) = values_of(line) {
        out.push_str(first)?;
        out.push('\n')?;
        out.push_str(second)?;
    } else {
        out.push_str(line)?;
    }
    out.push('\n')
}

// A text of eight satellites in RINEX 2.11.
fn of_rinex_2(alloc: Global, text: &str) -> Result<String, AllocError> {
    let mut out = String::new(alloc);
    for line in text.lines() {
        push_of_rinex_2(&mut out, line)?;
    }
    Ok(out)
}

/// What stands in the place of an observation file.
pub(crate) fn text_of(
    alloc: Global,
    text: Text,
    words: &'static [&'static str],
) -> Result<String, AllocError> {
    let part = match text {
        Text::Base | Text::BaseOfRinex2 => "base",
        Text::Rover | Text::HalfCycle | Text::Three | Text::RoverOfRinex2 => "rover",
        Text::Empty => return Ok(String::new(alloc)),
    };
    let plain = simulated(alloc, part, words)?;
    match text {
        Text::HalfCycle => half_cycle(alloc, plain.as_str()),
        Text::Three => with_three(alloc, plain.as_str()),
        Text::BaseOfRinex2 | Text::RoverOfRinex2 => of_rinex_2(alloc, plain.as_str()),
        Text::Base | Text::Rover | Text::Empty => Ok(plain),
    }
}
