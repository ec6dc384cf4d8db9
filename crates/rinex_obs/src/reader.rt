//! The whole text, for the satellites of one system.
ghost use Rattle.std.specs.Prelude.{◌≡◌, ◌≤◌, length, IfOk};
ghost use Rattle.obs_store.specs.declared.file.ObsFile.{ObsFile};
ghost use Rattle.rinex_head.specs.FirstFailing.{IsFirstFailing};
ghost use Rattle.line_source.specs.Lines.{lines_of};
ghost use Rattle.line_source.specs.declared.transfer.TheConstants.{MAX_FILE};
ghost use Rattle.rinex_head.specs.LineRules.{Gives, OnRefusal, IfRefused};
ghost use Rattle.rinex_obs.specs.ObsForm.{IsObsFile, HasObsFile};
ghost use Rattle.rinex_obs.specs.ObsRules.{obs_of};

use crate::Feed;
use line_source::Taker;
use obs_store::ObsFile;
use rinex_head::{System, TextFault};
use std::alloc::{AllocError, Global};

/// The observation file of a system that a text stands for, or the first place at which it stands for none.
pub fn read_obs_of(alloc: Global, system: System, text: &[u8]) -> Result<ObsFile, TextFault>
    requires { length text.now ≤ MAX_FILE }
    ensures ok { IfOk result (λ file. IsObsFile system (lines_of text.now) file) }
    ensures only { IfOk result (λ file. (other : ObsFile) →
        IsObsFile system (lines_of text.now) other → other ≡ file) }
    ensures refused { OnRefusal result (HasObsFile system (lines_of text.now) → ⊥) }
    ensures first { IfRefused result (λ at.
        IsFirstFailing (HasObsFile system) (lines_of text.now) at.line) }
    ensures exact { Gives (obs_of system (lines_of text.now)) (λ file. file) result }
{
    let mut feed = Feed::new(alloc, system);
    match feed.take(text) {
        Ok(()) => feed.finish(),
        Err(AllocError) => Err(TextFault::NoMemory),
    }
}
