//! The lines of the body (RINEX 3, navigation message records).
ghost use Rattle.std.specs.Prelude.{◌≡◌, ◌≤◌, Ok};
ghost use Rattle.rinex_nav.specs.RecordLines.{number_in, satellite_in, moment_of, toc_in, start_in, record_line_of, body_line_of, number_if, quad_in, continuation_of};

use decimal_text::{Dec, all_blank};
use gps_time::{TICKS_IN_SECOND, Tick, tick_of};
use rinex_head::{
    Flaw, System, What, bad_field, byte_in, exponent_number, field, filled_number, flaw,
    two_digits, whole_number,
};

/// How many records a file may have.
pub const MOST: usize = 4_096;

/// What the first line of a record says: the satellite, the clock's time and its polynomial.
#[derive(Clone, Copy, Debug)]
pub struct Start {
    pub sat: u8,
    pub toc: Tick,
    pub af0: Dec,
    pub af1: Dec,
    pub af2: Dec,
}

/// The four numbers of a further line; one that isn't read is 0.
#[derive(Clone, Copy, Debug)]
pub struct Quad {
    pub first: Dec,
    pub second: Dec,
    pub third: Dec,
    pub fourth: Dec,
}

/// What stands where a record may begin.
#[derive(Clone, Copy, Debug)]
pub enum BodyLine {
    /// A blank line, or a further line of a record of another system.
    Passed,
    /// The first line of a record of another system.
    Other,
    /// The first line of a record of the system.
    Record(Start),
}

// The number with an exponent in the 19 columns from this one on.
#[tactic(auto, unfolding(crate::specs::RecordLines::number_in, rinex_head::specs::Fields::exponent_in))]
fn number(line: &[u8], first: u32) -> Result<Dec, Flaw>
    requires from_one { 1 ≤ first }
    requires near { first ≤ 100 }
    ensures { result ≡ number_in line.now first }
{
    exponent_number(&field::<19>(line, first as usize), first)
}

#[tactic(auto, unfolding(crate::specs::RecordLines::satellite_in))]
fn satellite(system: System, line: &[u8]) -> Result<u8, Flaw>
    ensures { result ≡ satellite_in system line.now }
{
    match whole_number(&field::<2>(line, 2), 2) {
        Ok(Some(number)) if number >= 1 && number <= system.last_number() as u16 => Ok(
            number as u8,
        ),
        _ => Err(flaw(1, What::BadSat)),
    }
}

#[tactic(auto, unfolding(crate::specs::RecordLines::moment_of))]
fn moment(year: u16, month: u8, day: u8, hour: u8, minute: u8, second: u8) -> Result<Tick, Flaw>
    requires { second ≤ 99 }
    ensures { result ≡ moment_of year month day hour minute second }
{
    match tick_of(
        year,
        month,
        day,
        hour,
        minute,
        second as u32 * TICKS_IN_SECOND as u32,
    ) {
        Ok(tick) => Ok(tick),
        Err(_) => Err(Flaw {
            column: 5,
            what: What::BadDate,
        }),
    }
}

#[tactic(auto, unfolding(crate::specs::RecordLines::toc_in))]
fn toc(line: &[u8]) -> Result<Tick, Flaw>
    ensures { result ≡ toc_in line.now }
{
    let year = filled_number(&field::<4>(line, 5), 5)?;
    let month = two_digits(line, 10)?;
    let day = two_digits(line, 13)?;
    let hour = two_digits(line, 16)?;
    let minute = two_digits(line, 19)?;
    let second = two_digits(line, 22)?;
    moment(year, month, day, hour, minute, second)
}

#[tactic(auto, unfolding(crate::specs::RecordLines::start_in))]
fn first_part(system: System, line: &[u8]) -> Result<Start, Flaw>
    ensures { result ≡ start_in system line.now }
{
    let sat = satellite(system, line)?;
    let toc = toc(line)?;
    let af0 = number(line, 24)?;
    let af1 = number(line, 43)?;
    let af2 = number(line, 62)?;
    Ok(Start {
        sat,
        toc,
        af0,
        af1,
        af2,
    })
}

fn first_line(system: System, line: &[u8], count: usize) -> Result<BodyLine, Flaw>
    ensures { result ≡ record_line_of system count line.now }
{
    if count >= MOST {
        return Err(flaw(1, What::TooMany));
    }
    Ok(BodyLine::Record(first_part(system, line)?))
}

/// What a line says where a record may begin after a number of records of the system, the last record of another system or not.
#[tactic(auto, unfolding(crate::specs::RecordLines::body_line_of))]
pub fn body_line(
    system: System,
    line: &[u8],
    skipping: bool,
    count: usize,
) -> Result<BodyLine, Flaw>
    ensures { result ≡ body_line_of system count skipping line.now }
{
    let letter = byte_in(line, 1);
    if letter == b' ' {
        if skipping || all_blank(line) {
            return Ok(BodyLine::Passed);
        }
        return Err(bad_field(1));
    }
    if letter == system.letter() {
        return first_line(system, line, count);
    }
    Ok(BodyLine::Other)
}

// The number from this column on, where it is read.
fn number_where(read: bool, line: &[u8], first: u32) -> Result<Dec, Flaw>
    requires from_one { 1 ≤ first }
    requires near { first ≤ 100 }
    ensures { result ≡ number_if read line.now first }
{
    if read {
        number(line, first)
    } else {
        Ok(Dec { mant: 0, exp: 0 })
    }
}

#[tactic(auto, unfolding(crate::specs::RecordLines::quad_in))]
fn four_numbers(line: &[u8], place: u8) -> Result<Quad, Flaw>
    ensures { result ≡ quad_in place line.now }
{
    let first = number_where(place >= 1 && place <= 4, line, 5)?;
    let second = number_where(place <= 3 || place == 5, line, 24)?;
    let third = number_where(place <= 4, line, 43)?;
    let fourth = number_where(place <= 3, line, 62)?;
    Ok(Quad {
        first,
        second,
        third,
        fourth,
    })
}

/// The numbers of the further line at that place, from 0 on, of a record.
#[tactic(auto, unfolding(crate::specs::RecordLines::continuation_of))]
pub fn continuation(line: &[u8], place: u8) -> Result<Quad, Flaw>
    ensures { result ≡ continuation_of place line.now }
{
    if byte_in(line, 1) != b' ' {
        return Err(flaw(1, What::Truncated));
    }
    four_numbers(line, place)
}
