//! What a header says, and its first line.
ghost use Rattle.std.specs.Prelude.{◌≡◌};
ghost use Rattle.obs_fields.specs.FirstLine.{version_2_in, names_system, hundredths_of, first_line_of};

use crate::{Layout, TypeNames};
use line_source::Line;
use rinex_head::{
    FIRST_LABEL, Flaw, System, Version, What, byte_in, field, fixed, flaw, head_line, version_of,
};

/// What a header says.
#[derive(Drop)]
pub struct Header {
    /// The system whose observations are read.
    pub system: System,
    /// The version in hundredths.
    pub hundredths: u16,
    /// The approximate position X, Y, Z in 0.1 mm, if there is one.
    pub position: Option<[i64; 3]>,
    /// The antenna's delta H, E, N in 0.1 mm.
    pub delta: [i64; 3],
    /// The types of the system in the order of their values.
    pub types: TypeNames,
}

// The version, the kind and the system of a file of RINEX 2 (RINEX 2.11, `RINEX VERSION / TYPE`).
fn version_2(line: &Line<'_>) -> Result<Version, Flaw>
    ensures { result ≡ version_2_in line.now.bytes.now }
{
    if head_line(line).label != FIRST_LABEL {
        return Err(flaw(1, What::ObsVersion));
    }
    match fixed(&field::<9>(line.bytes, 1), 2) {
        Ok(hundredths) if hundredths >= 210 && hundredths <= 211 => Ok(Version {
            hundredths: hundredths as u16,
            kind: byte_in(line.bytes, 21),
            system: byte_in(line.bytes, 41),
        }),
        _ => Err(flaw(1, What::ObsVersion)),
    }
}

// Whether the letter is that of the system or of several ones. RINEX 2 is read for GPS alone, for which a blank stands.
fn names_system(layout: Layout, system: System, letter: u8) -> bool
    ensures { result ≡ names_system layout system letter }
{
    match layout {
        Layout::Rinex2 => letter == system.letter() || letter == b'M' || letter == b' ',
        Layout::Rinex3 => letter == system.letter() || letter == b'M',
    }
}

fn hundredths_of(layout: Layout, system: System, version: Version) -> Result<u16, Flaw>
    ensures { result ≡ hundredths_of layout system version }
{
    if version.kind != b'O' {
        return Err(flaw(21, What::Kind));
    }
    if !names_system(layout, system, version.system) {
        return Err(flaw(41, What::Kind));
    }
    Ok(version.hundredths)
}

/// The version in hundredths that the first line has.
#[tactic(auto, unfolding(crate::specs::FirstLine::first_line_of))]
pub fn first_line(layout: Layout, system: System, line: &Line<'_>) -> Result<u16, Flaw>
    ensures { result ≡ first_line_of layout system line.now.bytes.now }
{
    match layout {
        Layout::Rinex2 => match version_2(line) {
            Ok(version) => hundredths_of(layout, system, version),
            Err(_) => Err(flaw(1, system.bad_version())),
        },
        Layout::Rinex3 => match version_of(line) {
            Ok(version) => hundredths_of(layout, system, version),
            Err(_) => Err(flaw(1, system.bad_version())),
        },
    }
}
