//! The records of Galileo in a whole text.
ghost use Rattle.std.specs.Prelude.{◌≡◌, ◌≤◌, List, length, IfOk};
ghost use Rattle.eph_store.specs.declared.record.Raw.{Raw};
ghost use Rattle.line_source.specs.Lines.{lines_of};
ghost use Rattle.line_source.specs.declared.transfer.TheConstants.{MAX_FILE};
ghost use Rattle.rinex_head.specs.FirstFailing.{IsFirstFailing};
ghost use Rattle.rinex_head.specs.LineRules.{Gives, OnRefusal, IfRefused};
ghost use Rattle.gal_nav.specs.GalForm.{IsNavFile, HasNavFile, nav_of};

use eph_store::NavFile;
use rinex_head::{System, TextFault};
use rinex_nav::read_records_of;
use std::alloc::Global;

/// The records of Galileo in a navigation file (RINEX 3.00 to 3.05), or the first place at which the text is none.
///
/// A record's numbers are decimals in the units of the file. Records of other systems are skipped. It
/// serves tests alone: the program calls `read_records_of`.
pub fn read_gal_nav(alloc: Global, text: &[u8]) -> Result<NavFile, TextFault>
    requires { length text.now ≤ MAX_FILE }
    ensures ok { IfOk result (λ file. IsNavFile (lines_of text.now) file.all) }
    ensures only { IfOk result (λ file. (other : List Raw) → IsNavFile (lines_of text.now) other →
        other ≡ file.all) }
    ensures refused { OnRefusal result (HasNavFile (lines_of text.now) → ⊥) }
    ensures first { IfRefused result (λ at. IsFirstFailing HasNavFile (lines_of text.now) at.line) }
    ensures exact { Gives (nav_of (lines_of text.now)) (λ file. file.all) result }
{
    read_records_of(alloc, System::Galileo, text)
}
