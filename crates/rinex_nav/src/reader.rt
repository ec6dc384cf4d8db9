//! The records of one system in a whole text.
ghost use Rattle.std.specs.Prelude.{◌≡◌, ◌≤◌, List, length, IfOk};
ghost use Rattle.eph_store.specs.declared.record.Raw.{Raw};
ghost use Rattle.line_source.specs.Lines.{lines_of};
ghost use Rattle.line_source.specs.declared.transfer.TheConstants.{MAX_FILE};
ghost use Rattle.rinex_head.specs.FirstFailing.{IsFirstFailing};
ghost use Rattle.rinex_head.specs.LineRules.{rest_gives, Gives, OnRefusal, IfRefused};
ghost use Rattle.rinex_nav.specs.NavForm.{IsNavFile, HasNavFile};
ghost use Rattle.rinex_nav.specs.NavRules.{First, nav_rules, nav_of};

use crate::body::read_records;
use crate::header::read_header;
use eph_store::NavFile;
use line_source::Lines;
use rinex_head::{System, TextFault};
use std::alloc::Global;

/// The records of one system in a navigation file (RINEX 3.00 to 3.05), or the first place at which the text is none.
///
/// A record's numbers are decimals in the units of the file. Records of other systems are skipped.
pub fn read_records_of(alloc: Global, system: System, text: &[u8]) -> Result<NavFile, TextFault>
    requires { length text.now ≤ MAX_FILE }
    ensures ok { IfOk result (λ file. IsNavFile system (lines_of text.now) file.all) }
    ensures only { IfOk result (λ file. (other : List Raw) →
        IsNavFile system (lines_of text.now) other → other ≡ file.all) }
    ensures refused { OnRefusal result (HasNavFile system (lines_of text.now) → ⊥) }
    ensures first { IfRefused result (λ at.
        IsFirstFailing (HasNavFile system) (lines_of text.now) at.line) }
    ensures exact { Gives (nav_of system (lines_of text.now)) (λ file. file.all) result }
{
    read_lines(alloc, system, Lines::new(text))
}

fn read_lines(alloc: Global, system: System, mut lines: Lines<'_>) -> Result<NavFile, TextFault>
    ensures { Gives (rest_gives (nav_rules system) lines.entry First) (λ file. file.all) result }
{
    match read_header(system, &mut lines) {
        Ok(()) => read_records(alloc, system, &mut lines),
        Err(at) => Err(TextFault::Refused(at)),
    }
}
