//! The header.
ghost use Rattle.std.specs.Prelude.{◌≡◌, [], false};
ghost use Rattle.rinex_head.specs.Places.{at_line};
ghost use Rattle.rinex_head.specs.declared.system.System.{System};
ghost use Rattle.rinex_head.specs.LineRules.{ReadsFree};
ghost use Rattle.rinex_nav.specs.FirstLine.{of_kind, first_line_of, ends_header};
ghost use Rattle.rinex_nav.specs.NavRules.{First, Head, Body, nav_rules};

use line_source::{Line, Lines};
use rinex_head::{At, Flaw, System, Version, What, head_line, next_line, version_of};

const LAST_LABEL: &[u8] = b"END OF HEADER";

fn check_kind(system: System, version: Version) -> Result<(), Flaw>
    ensures { result ≡ of_kind system version }
{
    if version.kind != b'N' {
        return Err(Flaw {
            column: 21,
            what: What::Kind,
        });
    }
    if version.system != system.letter() && version.system != b'M' {
        return Err(Flaw {
            column: 41,
            what: What::Kind,
        });
    }
    Ok(())
}

#[tactic(auto, unfolding(crate::specs::FirstLine::first_line_of))]
fn first_line(system: System, line: &Line<'_>) -> Result<(), At>
    ensures { result ≡ at_line line.now.number (first_line_of system line.now.bytes.now) }
{
    let version = version_of(line)?;
    match check_kind(system, version) {
        Ok(()) => Ok(()),
        Err(flaw) => Err(flaw.at(line.number)),
    }
}

fn read_first(system: System, lines: &mut Lines<'_>) -> Result<(), At>
    ensures { ReadsFree (nav_rules system) lines.old lines.new First (λ u. Head) result }
{
    let line = next_line(lines, What::Version)?;
    first_line(system, &line)
}

fn is_last(line: &Line<'_>) -> bool
    ensures { result ≡ ends_header line.now.bytes.now }
{
    head_line(line).label == LAST_LABEL
}

fn read_lines(lines: &mut Lines<'_>) -> Result<(), At>
    ensures { (system : System) →
        ReadsFree (nav_rules system) lines.old lines.new Head (λ u. Body [] false) result }
{
    'header: loop {
        let line = next_line(lines, What::NoEnd)?;
        if is_last(&line) {
            return Ok(());
        }
    }
}

/// The header, from the first line to `END OF HEADER`.
pub fn read_header(system: System, lines: &mut Lines<'_>) -> Result<(), At>
    ensures { ReadsFree (nav_rules system) lines.old lines.new First (λ u. Body [] false) result }
{
    read_first(system, lines)?;
    read_lines(lines)
}
