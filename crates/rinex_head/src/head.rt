//! The lines of a header.
ghost use Rattle.std.specs.Prelude.{◌≡◌, IfOk, IfErr};
ghost use Rattle.rinex_head.specs.Head.{content_of, label_of, trimmed, version_in, IsVersionOf};
ghost use Rattle.rinex_head.specs.Places.{at_line, place};

use crate::columns::{byte_in, field};
use crate::place::{At, What};
use decimal_text::read_fixed;
use line_source::Line;

/// The parts of a header line.
#[derive(Clone, Copy, Debug)]
pub struct HeadLine<'a> {
    /// Columns 1 to 60; fewer where the line is shorter.
    pub content: &'a [u8],
    /// Columns 61 to 80 without the blanks at their end.
    pub label: &'a [u8],
}

/// What the first line of a file says.
#[derive(Clone, Copy, Debug, PartialEq, Eq)]
pub struct Version {
    /// The version of the format in hundredths: 300 to 305.
    pub hundredths: u16,
    /// The byte of the kind of file, in column 21.
    pub kind: u8,
    /// The byte of the satellite system, in column 41.
    pub system: u8,
}

/// The label of the first line of a file of any version.
pub const FIRST_LABEL: &[u8] = b"RINEX VERSION / TYPE";

const OLDEST: i64 = 300;

const NEWEST: i64 = 305;

fn trim_end(text: &[u8]) -> &[u8]
    ensures { result.now ≡ trimmed text.now }
{
    let mut front = text;
    while let [before @ .., last] = front {
        if *last != b' ' {
            return front;
        }
        front = before;
    }
    front
}

/// The content and the label of a header line (RINEX 3, header section).
pub fn head_line<'a>(line: &Line<'a>) -> HeadLine<'a>
    ensures content { result.content.now ≡ content_of line.now.bytes.now }
    ensures label { result.label.now ≡ label_of line.now.bytes.now }
{
    let bytes = line.bytes;
    let middle = bytes.len().min(60);
    let end = bytes.len().min(80);
    HeadLine {
        content: &bytes[..middle],
        label: trim_end(&bytes[middle..end]),
    }
}

/// The version, the kind and the system of a file by its first line (RINEX 3, `RINEX VERSION / TYPE`). It is refused at
/// column 1 exactly where it lacks the label or has no version from 3.00 to 3.05; the readers test kind and system.
pub fn version_of(line: &Line<'_>) -> Result<Version, At>
    ensures value { result ≡ at_line line.now.number (version_in line.now.bytes.now) }
    ensures version { IfOk result (λ v. IsVersionOf line.now.bytes.now v) }
    ensures refused { IfErr result (λ at. (v : Version) → IsVersionOf line.now.bytes.now v → ⊥) }
    ensures place { IfErr result (λ at. at ≡ place line.now.number 1 What.Version) }
{
    let refused = At {
        line: line.number,
        column: 1,
        what: What::Version,
    };
    if head_line(line).label != FIRST_LABEL {
        return Err(refused);
    }
    match read_fixed(&field::<9>(line.bytes, 1), 2) {
        Ok(hundredths) if hundredths >= OLDEST && hundredths <= NEWEST => Ok(Version {
            hundredths: hundredths as u16,
            kind: byte_in(line.bytes, 21),
            system: byte_in(line.bytes, 41),
        }),
        _ => Err(refused),
    }
}
