//! An observation file of GPS as a whole text.
ghost use Rattle.std.specs.Prelude.{◌≡◌, ◌≤◌, length, IfOk};
ghost use Rattle.line_source.specs.Lines.{lines_of};
ghost use Rattle.line_source.specs.declared.transfer.TheConstants.{MAX_FILE};
ghost use Rattle.obs_store.specs.declared.file.ObsFile.{ObsFile};
ghost use Rattle.rinex_obs.specs.GpsForm.{IsObsFile, HasObsFile, obs_of};
ghost use Rattle.rinex_head.specs.FirstFailing.{IsFirstFailing};
ghost use Rattle.rinex_head.specs.LineRules.{Gives, OnRefusal, IfRefused};

use crate::reader::read_obs_of;
use obs_store::ObsFile;
use rinex_head::{System, TextFault};
use std::alloc::Global;

/// The observation file that a text stands for (RINEX 3.00 to 3.05), or the first place at which it stands for none.
///
/// Lengths are in 0.1 mm, values in thousandths of a metre or a cycle, tags in ticks of 100 ns. It serves tests
/// alone: the program takes files in pieces.
pub fn read_obs(alloc: Global, text: &[u8]) -> Result<ObsFile, TextFault>
    requires { length text.now ≤ MAX_FILE }
    ensures ok { IfOk result (λ file. IsObsFile (lines_of text.now) file) }
    ensures only { IfOk result (λ file. (other : ObsFile) → IsObsFile (lines_of text.now) other →
        other ≡ file) }
    ensures refused { OnRefusal result (HasObsFile (lines_of text.now) → ⊥) }
    ensures first { IfRefused result (λ at. IsFirstFailing HasObsFile (lines_of text.now) at.line) }
    ensures exact { Gives (obs_of (lines_of text.now)) (λ file. file) result }
{
    read_obs_of(alloc, System::Gps, text)
}
