//! The answer of a run over the arcs that were kept.
ghost use Rattle.std.specs.Prelude.{◌≡◌, ◌+◌, ◌≤◌, length, IfOk};
ghost use Rattle.obs_rows.specs.declared.limits.TheConstants.{MOST_KEPT_ARCS};
ghost use Rattle.round_steps.specs.Runs.{MayBegin};
ghost use Rattle.session.specs.Answers.{GoesOn, IsAnswer, IsBestAnswer};

use cert_data::{Answer, Cert, RoundCounts};
use epoch_pair::Options;
use obs_rows::Arc;
use round_steps::{Rounds, RunEnd, are_few, are_many, free_count, run_rounds};
use std::alloc::{AllocError, Global};

/// An answer, with the rounds that were made for it.
#[derive(Debug, Drop)]
pub struct RunAnswer {
    pub rounds: RoundCounts,
    pub answer: Answer,
}

/// No round is made where the arcs are too few or too many.
const NO_ROUNDS: RoundCounts = RoundCounts { coarse: 0, fine: 0 };

/// Too few satellites, too many arcs, or the end of the run. One session is made for each round, and no other.
pub fn answer_of_rounds<R: Rounds>(
    alloc: Global,
    rounds: &mut R,
    kept: &[Arc],
    taken: u32,
    base: &[i64; 3],
    options: &Options,
) -> Result<RunAnswer, AllocError>
    requires ready { GoesOn (R.rules rounds.old) taken → R.ready rounds.old }
    requires begins { MayBegin (R.rules rounds.old) (R.made rounds.old) kept.now base.now }
    requires few { length kept.now ≤ MOST_KEPT_ARCS }
    ensures answer { IfOk result (λ a.
        IsAnswer (R.rules rounds.old) taken options.now a.rounds a.answer) }
    ensures made { IfOk result (λ a. R.made rounds.new ≡ a.rounds.coarse + a.rounds.fine) }
    ensures by_ratio { IfOk result (λ a. IsBestAnswer a.answer) }
{
    if are_few(taken, kept) {
        return Ok(RunAnswer {
            rounds: NO_ROUNDS,
            answer: Answer::Few { pairs: taken },
        });
    }
    if are_many(kept) {
        return Ok(RunAnswer {
            rounds: NO_ROUNDS,
            answer: Answer::Arcs {
                free: free_count(kept),
            },
        });
    }
    match run_rounds(alloc, rounds, kept, base, options.ratio, options.budget)? {
        RunEnd::Early { made, stage, tail } => Ok(RunAnswer {
            rounds: made,
            answer: Answer::Early { stage, tail },
        }),
        RunEnd::Full {
            made,
            session,
            tail,
        } => Ok(RunAnswer {
            rounds: made,
            answer: Answer::Full(Cert {
                ratio: options.ratio,
                budget: options.budget,
                session,
                tail,
            }),
        }),
    }
}
