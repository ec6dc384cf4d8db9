//! What a line of a header says after its first one (RINEX 3, observation file header; RINEX 2.11, the same).
ghost use Rattle.std.specs.Prelude.{◌≡◌, ◌≤◌};
ghost use Rattle.obs_fields.specs.HeaderLines.{begins_types, factor_in, factors_in, header_line_of};

use crate::Layout;
use crate::labels::{Label, label_of_line};
use crate::offsets::{delta, position};
use line_source::Line;
use rinex_head::{Flaw, System, What, byte_in, field, flaw, wide_number};

/// What a line of the header says.
#[derive(Clone, Copy, Debug)]
pub enum HeaderLine {
    /// The header ends.
    End,
    /// The approximate position X, Y, Z in 0.1 mm, if it isn't 0, 0, 0.
    Position(Option<[i64; 3]>),
    /// The antenna's delta H, E, N in 0.1 mm.
    Delta([i64; 3]),
    /// The list of types that is read begins.
    Types,
    /// Nothing that counts.
    Skipped,
}

// Whether a list of types is that of the system. RINEX 2 has one list for all systems.
fn begins_types(layout: Layout, system: System, line: &[u8]) -> bool
    ensures { result ≡ begins_types layout system line.now }
{
    match layout {
        Layout::Rinex2 => true,
        Layout::Rinex3 => byte_in(line, 1) == system.letter(),
    }
}

// A wavelength factor of one band, which must be 1, or 0 or blank where the band isn't observed.
fn factor(line: &[u8], first: u32) -> Result<(), Flaw>
    requires from_one { 1 ≤ first }
    requires near { first ≤ 100 }
    ensures { result ≡ factor_in line.now first }
{
    match wide_number(&field::<6>(line, first as usize), first) {
        Ok(None) => Ok(()),
        Ok(Some(factor)) if factor <= 1 => Ok(()),
        _ => Err(flaw(first, What::HalfCycle)),
    }
}

// The wavelength factors of L1 and L2; a scale factor of the system isn't read.
fn factors(layout: Layout, system: System, line: &[u8]) -> Result<(), Flaw>
    ensures { result ≡ factors_in layout system line.now }
{
    match layout {
        Layout::Rinex2 => {
            factor(line, 1)?;
            factor(line, 7)
        }
        Layout::Rinex3 => {
            if byte_in(line, 1) == system.letter() {
                return Err(flaw(1, system.scaled()));
            }
            Ok(())
        }
    }
}

/// What a line of the header says.
#[tactic(auto, unfolding(crate::specs::HeaderLines::header_line_of))]
pub fn header_line(layout: Layout, system: System, line: &Line<'_>) -> Result<HeaderLine, Flaw>
    ensures { result ≡ header_line_of layout system line.now.bytes.now }
{
    let bytes = line.bytes;
    match label_of_line(layout, line) {
        Label::End => Ok(HeaderLine::End),
        Label::Position => Ok(HeaderLine::Position(position(bytes)?)),
        Label::Delta => Ok(HeaderLine::Delta(delta(bytes)?)),
        Label::Types => {
            if begins_types(layout, system, bytes) {
                return Ok(HeaderLine::Types);
            }
            Ok(HeaderLine::Skipped)
        }
        Label::Factor => {
            factors(layout, system, bytes)?;
            Ok(HeaderLine::Skipped)
        }
        Label::FirstObs => {
            if !system.names_time(&field::<3>(bytes, 49)) {
                return Err(flaw(49, What::TimeSystem));
            }
            Ok(HeaderLine::Skipped)
        }
        Label::Comment | Label::Other => Ok(HeaderLine::Skipped),
    }
}
