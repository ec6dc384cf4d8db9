//! The header, from the first line to the end of the header, and what it says of the satellites' lines.
ghost use Rattle.std.specs.Prelude.{◌≡◌, []};
ghost use Rattle.rinex_head.specs.declared.system.System.TheVariants.{Gps};
ghost use Rattle.rinex_head.specs.LineRules.{ReadsFree};
ghost use Rattle.obs_fields.specs.HeaderRules.{First};
ghost use Rattle.rinex2_obs.specs.Rows.{rows_of};
ghost use Rattle.rinex2_obs.specs.Obs2Rules.{Head, Body, obs2_rules};

use line_source::Lines;
use obs_fields::{Header, Layout, OpenHeader};
use rinex_head::{At, System, next_line};

/// How many lines each satellite has.
pub fn rows(header: &Header) -> u8
    ensures { result ≡ rows_of header.now.types }
{
    (header.types.as_slice().len().saturating_sub(1) / 5) as u8 + 1
}

/// The header, from the first line on.
pub fn read_header(lines: &mut Lines<'_>) -> Result<Header, At>
    ensures { ReadsFree obs2_rules lines.old lines.new (Head (First Gps)) (λ h. Body h []) result }
{
    let mut header = OpenHeader::First(System::Gps);
    'header: loop {
        let line = next_line(lines, header.missing())?;
        match header.take_line(Layout::Rinex2, &line) {
            Ok(None) => {}
            Ok(Some(whole)) => return Ok(whole),
            Err(flaw) => return Err(flaw.at(line.number)),
        }
    }
}
