//! The answer of a command whose outcome is a fix or none.
ghost use Rattle.std.specs.Prelude.{◌≡◌, ◌++◌, ℕ, Bool, List, IfOk, OnOk};
ghost use Rattle.job_answers.specs.Answers.{ending_of};
ghost use Rattle.job_answers.specs.Endings.{ending};
ghost use Rattle.job_answers.specs.Statuses.{IsVerdictStatus, verdict_status};

use job_answers::{JobOutput, verdict_status};
use std::alloc::{AllocError, Global};

/// What a run over the files of a session ends with: a fix or none, with a text for out and one for err.
pub trait SessionOutcome {
    ghost fixed: { Self → Bool };

    ghost out_text: { Self → List ℕ };

    ghost err_text: { Self → List ℕ };

    /// What is known of an outcome that was written.
    ghost is_whole: { Self → Type 0 };

    /// Whether it is a fix.
    fn is_fixed(&self) -> bool
        ensures { result ≡ fixed self.now };

    /// Appends its texts. After an `Err` a part of them may have been appended.
    fn write(&self, alloc: Global, out: &mut Vec<u8>, err: &mut Vec<u8>) -> Result<(), AllocError>
        ensures out { OnOk result (out.new.items ≡ out.old.items ++ out_text self.now) }
        ensures err { OnOk result (err.new.items ≡ err.old.items ++ err_text self.now) }
        ensures whole { OnOk result (is_whole self.now) };
}

/// The two texts of an outcome, with its status: done for a fix, else declined.
pub fn output_of<O: SessionOutcome>(alloc: Global, outcome: &O) -> Result<JobOutput, AllocError>
    ensures ended { IfOk result (λ a. ending_of a ≡ ending (verdict_status (O.fixed outcome.now))
        (O.out_text outcome.now) (O.err_text outcome.now)) }
    ensures verdict { IfOk result (λ a. IsVerdictStatus a.status) }
    ensures whole { OnOk result (O.is_whole outcome.now) }
{
    let mut out = Vec::new(alloc);
    let mut err = Vec::new(alloc);
    outcome.write(alloc, &mut out, &mut err)?;
    Ok(JobOutput {
        status: verdict_status(outcome.is_fixed()),
        out,
        err,
    })
}
