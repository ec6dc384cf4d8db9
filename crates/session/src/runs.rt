//! The whole run of two files.
ghost use Rattle.std.specs.Prelude.{◌≤◌, All, AllPairs, length, IfOk, IfErr};
ghost use Rattle.obs_store.specs.declared.file.ObsFile.{ObsFile};
ghost use Rattle.obs_store.specs.Epochs.{tags_of};
ghost use Rattle.eph_store.specs.File.{Records};
ghost use Rattle.epoch_pair.specs.Pairs.{Follows, IsNearPair};
ghost use Rattle.slip_arcs.specs.Linked.{IsCutOf};
ghost use Rattle.row_build.specs.BasePseudoranges.{AreBasePseudoranges};
ghost use Rattle.epoch_pair.specs.Beginnings.{IsPosition, IsSessionFault};
ghost use Rattle.session.specs.Answers.{AreAllowed, IsBestAnswer};
ghost use Rattle.session.specs.Outcomes.{AreScreened, IsRunStart, MayRun, IsOutcome};
ghost use Rattle.obs_rows.specs.declared.limits.TheConstants.{MOST_PAIRS};

use crate::{FileRounds, FileRun, have_delta, outcome_of_rounds, screened_arcs};
use cert_data::Outcome;
use eph_store::NavFile;
use epoch_pair::{Options, SessionFault, SessionStart, session_start};
use obs_store::ObsFile;
use row_build::{KeptSights, base_pseudoranges};
use std::alloc::{AllocError, Global};

/// The used satellites of the taken pairs, and the arcs that are kept of them. `start_run` begins with it; that it is public
/// serves tests alone.
pub fn screened(
    alloc: Global,
    base: &ObsFile,
    rover: &ObsFile,
    nav: &NavFile,
    begun: &SessionStart,
    options: &Options,
) -> Result<FileRounds, AllocError>
    requires position { IsPosition base.now begun.now.position }
    requires few { length begun.now.taken.items ≤ MOST_PAIRS }
    requires rises { AllPairs Follows begun.now.taken.items }
    requires near { All (IsNearPair options.now.gap (tags_of base.now.epochs)
        (tags_of rover.now.epochs)) begun.now.taken.items }
    ensures screened { IfOk result (AreScreened base.now rover.now nav.now options.now
        begun.now.position begun.now.signals begun.now.taken.items) }
    ensures cut { IfOk result (λ f. IsCutOf f.screened.used f.kept) }
    ensures base_pseudoranges { IfOk result (λ f.
        AreBasePseudoranges f.screened.boxes f.position f.base_pseudoranges.items) }
{
    let cut = screened_arcs(alloc, base, rover, nav, begun, options)?;
    let base_pseudoranges = base_pseudoranges(alloc, &cut.screened, &begun.position)?;
    Ok(FileRounds {
        screened: cut.screened,
        kept: cut.arcs.kept,
        position: begun.position,
        signals: begun.signals,
        system: options.system,
        base_pseudoranges,
    })
}

/// A run that may begin: what was screened of two files, which its rounds don't need any more.
#[derive(Debug, Drop)]
pub struct RunStart {
    pub begun: SessionStart,
    pub rounds: FileRounds,
    /// Whether either header has an antenna delta that isn't 0.
    pub delta: bool,
}

/// What a run of the files of two receivers begins with, or why they are refused.
pub fn start_run(
    alloc: Global,
    base: &ObsFile,
    rover: &ObsFile,
    nav: &NavFile,
    options: &Options,
) -> Result<RunStart, SessionFault>
    ensures refused { IfErr result (IsSessionFault base.now rover.now options.now) }
    ensures start { IfOk result (IsRunStart base.now rover.now nav.now options.now) }
{
    let begun = session_start(alloc, base, rover, options)?;
    let rounds = screened(alloc, base, rover, nav, &begun, options)?;
    let delta = have_delta(base, rover);
    Ok(RunStart {
        begun,
        rounds,
        delta,
    })
}

/// The outcome of the files with which the run began: the end of its rounds. The files may have gone.
///
/// Where it says fixed, the integers are with their move best by the ratio for all data in the boxes of the session.
pub fn finish_run(alloc: Global, run: &RunStart, options: &Options) -> Result<Outcome, AllocError>
    requires { MayRun options.now run.now }
    ensures outcome { IfOk result (λ o. (base rover : ObsFile) (nav : Records) →
        IsRunStart base rover nav options.now run.now → IsOutcome base rover nav options.now o) }
    ensures rounds { IfOk result (λ o. AreAllowed o.rounds) }
    ensures by_ratio { IfOk result (λ o. IsBestAnswer o.answer) }
{
    let kept = run.rounds.kept.as_slice();
    let mut rounds = FileRun {
        files: &run.rounds,
        made: 0,
        kept: KeptSights::none(alloc),
    };
    let out = outcome_of_rounds(alloc, &mut rounds, &run.begun, kept, run.delta, options)?;
    Ok(out)
}

/// The outcome of the files of two receivers: the end of a run of rounds over the satellites that both used, or why the
/// files are refused.
///
/// Where it says fixed, the integers are with their move best by the ratio for all data in the boxes of the session.
pub fn process(
    alloc: Global,
    base: &ObsFile,
    rover: &ObsFile,
    nav: &NavFile,
    options: &Options,
) -> Result<Outcome, SessionFault>
    ensures refused { IfErr result (IsSessionFault base.now rover.now options.now) }
    ensures outcome { IfOk result (IsOutcome base.now rover.now nav.now options.now) }
    ensures rounds { IfOk result (λ o. AreAllowed o.rounds) }
    ensures by_ratio { IfOk result (λ o. IsBestAnswer o.answer) }
{
    let started = start_run(alloc, base, rover, nav, options)?;
    let out = finish_run(alloc, &started, options)?;
    Ok(out)
}
