//! The whole text.
ghost use Rattle.std.specs.Prelude.{◌≡◌, ◌≤◌, length, IfOk};
ghost use Rattle.obs_store.specs.declared.file.ObsFile.{ObsFile};
ghost use Rattle.line_source.specs.Lines.{lines_of};
ghost use Rattle.line_source.specs.declared.transfer.TheConstants.{MAX_FILE};
ghost use Rattle.rinex_head.specs.FirstFailing.{IsFirstFailing};
ghost use Rattle.rinex_head.specs.LineRules.{rest_gives, Gives, OnRefusal, IfRefused};
ghost use Rattle.rinex2_obs.specs.Obs2Form.{IsObs2File, HasObs2File};
ghost use Rattle.rinex_head.specs.declared.system.System.TheVariants.{Gps};
ghost use Rattle.obs_fields.specs.HeaderRules.{First};
ghost use Rattle.rinex2_obs.specs.Obs2Rules.{Head, obs2_rules, obs2_of};

use crate::body::read_epochs;
use crate::header::read_header;
use crate::profile::{kept_types, listed_types};
use line_source::Lines;
use obs_store::ObsFile;
use rinex_head::TextFault;
use std::alloc::{AllocError, Global};

fn read_lines(alloc: Global, mut lines: Lines<'_>) -> Result<ObsFile, TextFault>
    ensures { Gives (rest_gives obs2_rules lines.entry (Head (First Gps))) (λ file. file) result }
{
    let header = match read_header(&mut lines) {
        Ok(header) => header,
        Err(at) => return Err(TextFault::Refused(at)),
    };
    let kept = match kept_types(alloc, &header.types) {
        Ok(kept) => kept,
        Err(AllocError) => return Err(TextFault::NoMemory),
    };
    let epochs = read_epochs(alloc, &mut lines, &header, &kept)?;
    Ok(ObsFile {
        hundredths: header.hundredths,
        position: header.position,
        delta: header.delta,
        listed: listed_types(&kept),
        epochs,
    })
}

/// The observation file that a text of RINEX 2.10 or 2.11 stands for, or the first place at which it stands for none.
///
/// Lengths are in 0.1 mm, values in thousandths of a metre or a cycle, tags in ticks of 100 ns. The types C1, L1, P2, L2,
/// C5 and L5 are kept as C1C, L1C, C2W, L2W, C5X and L5X.
pub fn read_obs2(alloc: Global, text: &[u8]) -> Result<ObsFile, TextFault>
    requires { length text.now ≤ MAX_FILE }
    ensures ok { IfOk result (λ file. IsObs2File (lines_of text.now) file) }
    ensures only { IfOk result (λ file. (other : ObsFile) → IsObs2File (lines_of text.now) other →
        other ≡ file) }
    ensures refused { OnRefusal result (HasObs2File (lines_of text.now) → ⊥) }
    ensures first { IfRefused result (λ at.
        IsFirstFailing HasObs2File (lines_of text.now) at.line) }
    ensures exact { Gives (obs2_of (lines_of text.now)) (λ file. file) result }
{
    read_lines(alloc, Lines::new(text))
}
