//! The lines of events, and those of cycle slips (flag 6), which are skipped.
ghost use Rattle.std.specs.Prelude.{◌≡◌, ◌≤◌, ◌*◌, List, ℕ, length};
ghost use Rattle.obs_store.specs.declared.series.Epoch.{Epoch};
ghost use Rattle.rinex_head.specs.LineRules.{ReadsFree};
ghost use Rattle.rinex2_obs.specs.Rows.{rows_of, further_lines_of};
ghost use Rattle.obs_fields.specs.declared.header.Header.{Header};
ghost use Rattle.rinex2_obs.specs.Obs2Rules.{Body, more_lines, more_slips, obs2_rules};

use crate::header::rows;
use crate::sat_names::further_mark;
use line_source::Lines;
use obs_fields::{Header, Layout, event_line};
use rinex_head::{At, What, next_line};

/// The lines of an event, after which the header may change or not.
pub fn skip_lines(lines: &mut Lines<'_>, changes: bool, count: u32) -> Result<(), At>
    ensures reads { (h : Header) (epochs : List Epoch) → ReadsFree obs2_rules lines.old lines.new
        (more_lines h epochs changes count) (λ u. Body h epochs) result }
    ensures less { length lines.new.left ≤ length lines.old.left }
{
    let mut left = count;
    'skipped: while left > 0 {
        let line = next_line(lines, What::Truncated)?;
        left -= 1;
        match event_line(Layout::Rinex2, &line, changes) {
            Ok(()) => {}
            Err(flaw) => return Err(flaw.at(line.number)),
        }
    }
    Ok(())
}

// Further lines of names, of which none is read.
fn skip_names(lines: &mut Lines<'_>, count: u16) -> Result<(), At>
    ensures reads { (h : Header) (epochs : List Epoch) (rows : ℕ) → ReadsFree obs2_rules lines.old
        lines.new (more_slips h epochs count rows) (λ u. more_slips h epochs 0 rows) result }
    ensures less { length lines.new.left ≤ length lines.old.left }
{
    let mut left = count;
    'further: while left > 0 {
        let line = next_line(lines, What::Truncated)?;
        left -= 1;
        match further_mark(line.bytes) {
            Ok(()) => {}
            Err(flaw) => return Err(flaw.at(line.number)),
        }
    }
    Ok(())
}

fn further_lines(count: u16) -> u16
    ensures { result ≡ further_lines_of count }
{
    count.saturating_sub(1) / 12
}

/// The further lines of the names of the satellites with cycle slips, and the lines of these.
pub fn skip_slips(lines: &mut Lines<'_>, header: &Header, count: u16) -> Result<(), At>
    ensures reads { (epochs : List Epoch) → ReadsFree obs2_rules lines.old lines.new
        (more_slips header.now epochs (further_lines_of count) (count * rows_of header.now.types))
        (λ u. Body header.now epochs) result }
    ensures less { length lines.new.left ≤ length lines.old.left }
{
    skip_names(lines, further_lines(count))?;
    skip_lines(lines, false, count as u32 * rows(header) as u32)
}
