//! The counts of an outcome, with its answer.
ghost use Rattle.std.specs.Prelude.{◌≡◌, ◌+◌, ◌≤◌, ◌⊎◌, ◌↔◌, length, IsTrue, IfOk};
ghost use Rattle.obs_rows.specs.declared.limits.TheConstants.{MOST_PAIRS, MOST_KEPT_ARCS};
ghost use Rattle.round_steps.specs.Runs.{MayBegin};
ghost use Rattle.session.specs.Answers.{GoesOn, HasDelta, IsAnswer, IsBestAnswer};

use crate::answer_of_rounds;
use cert_data::Outcome;
use epoch_pair::{Options, SessionStart};
use obs_rows::Arc;
use obs_store::ObsFile;
use round_steps::Rounds;
use std::alloc::{AllocError, Global};

fn has_delta(file: &ObsFile) -> bool
    ensures { IsTrue result ↔ HasDelta file.now }
{
    file.delta.iter().any(|d| *d != 0)
}

/// Whether either header has an antenna delta that isn't 0.
pub fn have_delta(base: &ObsFile, rover: &ObsFile) -> bool
    ensures { IsTrue result ↔ (HasDelta base.now ⊎ HasDelta rover.now) }
{
    has_delta(base) || has_delta(rover)
}

/// The outcome of a run that begins so, over the arcs that were kept.
pub fn outcome_of_rounds<R: Rounds>(
    alloc: Global,
    rounds: &mut R,
    begun: &SessionStart,
    kept: &[Arc],
    delta: bool,
    options: &Options,
) -> Result<Outcome, AllocError>
    requires ready { GoesOn (R.rules rounds.old) (length begun.now.taken.items) →
        R.ready rounds.old }
    requires begins { MayBegin (R.rules rounds.old)
        (R.made rounds.old) kept.now begun.now.position }
    requires few { length begun.now.taken.items ≤ MOST_PAIRS }
    requires few_arcs { length kept.now ≤ MOST_KEPT_ARCS }
    ensures taken { IfOk result (λ o. o.taken ≡ length begun.now.taken.items) }
    ensures all { IfOk result (λ o. o.all ≡ begun.now.all) }
    ensures kept { IfOk result (λ o. o.kept ≡ length kept.now) }
    ensures delta { IfOk result (λ o. o.delta ≡ delta) }
    ensures answer { IfOk result (λ o.
        IsAnswer (R.rules rounds.old) o.taken options.now o.rounds o.answer) }
    ensures made { IfOk result (λ o. R.made rounds.new ≡ o.rounds.coarse + o.rounds.fine) }
    ensures by_ratio { IfOk result (λ o. IsBestAnswer o.answer) }
{
    let taken = begun.taken.len() as u32;
    let answered = answer_of_rounds(alloc, rounds, kept, taken, &begun.position, options)?;
    Ok(Outcome {
        taken,
        all: begun.all,
        kept: kept.len() as u32,
        delta,
        rounds: answered.rounds,
        answer: answered.answer,
    })
}
