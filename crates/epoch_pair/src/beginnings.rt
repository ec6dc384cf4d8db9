//! What two files have in common before a run: the base's position, the codes, the pairs that are taken.
ghost use Rattle.std.specs.Prelude.{◌≡◌, ◌<◌, ◌≤◌, All, AllPairs, length, MatchOption, IfOk, IfErr};
ghost use Rattle.obs_store.specs.Epochs.{tags_of};
ghost use Rattle.epoch_pair.specs.Pairs.{Follows, IsNearPair};
ghost use Rattle.obs_rows.specs.BandSets.{bands_of};
ghost use Rattle.obs_rows.specs.declared.limits.TheConstants.{MOST_PAIRS};
ghost use Rattle.epoch_pair.specs.Beginnings.{IsPosition, LacksPosition, AreSignals, AreSparse, IsSessionFault, pairs_of, AreTaken, fault_of};

use crate::faults::{PairWhat, SessionFault};
use crate::pairs::{PairFault, PairOf, pair};
use crate::shared::signals;
use crate::taken::take;
use obs_rows::{Options, Signals, is_receiver_point};
use obs_store::ObsFile;
use std::alloc::Global;

/// What a run begins with.
#[derive(Debug, Drop)]
pub struct SessionStart {
    /// The base's position in 0.1 mm.
    pub position: [i64; 3],
    pub signals: Signals,
    /// The number of all pairs.
    pub all: u32,
    pub taken: Vec<PairOf>,
}

/// The base's position, where it has one.
fn position_of(base: &ObsFile) -> Option<[i64; 3]>
    ensures { MatchOption result (LacksPosition base.now) (IsPosition base.now) }
{
    match base.position {
        Some(position) => {
            if is_receiver_point(&position) {
                Some(position)
            } else {
                None
            }
        }
        None => None,
    }
}

/// How many pairs there are: at most one for each epoch.
fn count_of(base: &ObsFile, pairs: &[PairOf]) -> u32
    requires rises { AllPairs Follows pairs.now }
    requires within { All (λ p. p.base < length (tags_of base.now.epochs)) pairs.now }
    ensures { result ≡ length pairs.now }
{
    let _epochs = base.epochs.as_slice();
    pairs.len() as u32
}

fn fault_of(fault: PairFault) -> SessionFault
    ensures { result ≡ fault_of fault }
{
    match fault {
        PairFault::Dense { rover, epoch } => {
            SessionFault::Refused(PairWhat::Dense { rover, epoch })
        }
        PairFault::NoMemory => SessionFault::NoMemory,
    }
}

/// What a run of these files begins with, or why they are refused.
pub fn session_start(
    alloc: Global,
    base: &ObsFile,
    rover: &ObsFile,
    options: &Options,
) -> Result<SessionStart, SessionFault>
    ensures refused { IfErr result (IsSessionFault base.now rover.now options.now) }
    ensures position { IfOk result (λ b. IsPosition base.now b.position) }
    ensures signals { IfOk result (λ b.
        AreSignals (bands_of options.now.bands) base.now rover.now b.signals) }
    ensures sparse { IfOk result (λ b. AreSparse options.now.gap base.now rover.now) }
    ensures all { IfOk result (λ b. b.all ≡ length (pairs_of base.now rover.now options.now)) }
    ensures taken { IfOk result (λ b. AreTaken base.now rover.now options.now b.taken.items) }
    ensures few { IfOk result (λ b. length b.taken.items ≤ MOST_PAIRS) }
    ensures rises { IfOk result (λ b. AllPairs Follows b.taken.items) }
    ensures near { IfOk result (λ b. All (IsNearPair options.now.gap (tags_of base.now.epochs)
        (tags_of rover.now.epochs)) b.taken.items) }
{
    let Some(position) = position_of(base) else {
        return Err(SessionFault::Refused(PairWhat::NoBasePosition));
    };
    let Some(signals) = signals(base, rover, options.bands) else {
        return Err(SessionFault::Refused(PairWhat::NoSignal));
    };
    let pairs = match pair(alloc, base, rover, options.gap) {
        Ok(pairs) => pairs,
        Err(fault) => return Err(fault_of(fault)),
    };
    match take(
        alloc,
        pairs.as_slice(),
        options.first,
        options.step,
        options.count,
    ) {
        Ok(taken) => Ok(SessionStart {
            position,
            signals,
            all: count_of(base, pairs.as_slice()),
            taken,
        }),
        Err(_) => Err(SessionFault::NoMemory),
    }
}
