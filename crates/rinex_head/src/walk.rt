//! The next line of a text that is read.
ghost use Rattle.std.specs.Prelude.{◌≡◌, MatchOption, MatchResult};
ghost use Rattle.line_source.specs.Lines.{GivesLine, IsAtEnd};
ghost use Rattle.rinex_head.specs.LineRules.{HasNoLine, IsLongLine};

use crate::fields::flaw;
use crate::place::{At, What};
use line_source::{Line, Lines};

/// The next line, which must be there. Where there is none, the text is refused at column 1 of the line after the
/// last, for the given reason. A line that is too long is refused at its column 1, and nothing is left then.
pub fn next_line<'a>(lines: &mut Lines<'a>, missing: What) -> Result<Line<'a>, At>
    ensures { MatchResult result
        (λ line. GivesLine lines.old lines.new line.number line.bytes.now)
        (λ at. HasNoLine lines.old lines.new missing at) }
{
    match lines.next() {
        Some(Ok(line)) => Ok(line),
        Some(Err(long)) => Err(flaw(1, What::LongLine).at(long.number)),
        None => Err(flaw(1, missing).at(lines.next_number())),
    }
}

/// The next line, if any. A line that is too long is refused at its column 1, and nothing is left then.
pub fn line_or_end<'a>(lines: &mut Lines<'a>) -> Result<Option<Line<'a>>, At>
    ensures { MatchResult result
        (λ found. MatchOption found (IsAtEnd lines.old lines.new)
        (λ line. GivesLine lines.old lines.new line.number line.bytes.now))
        (λ at. IsLongLine lines.old lines.new at) }
{
    match lines.next() {
        Some(Ok(line)) => Ok(Some(line)),
        Some(Err(long)) => Err(flaw(1, What::LongLine).at(long.number)),
        None => Ok(None),
    }
}
