ghost use Rattle.report_text.specs.OutcomeText.{answer_text, outcome_text, IsWholeAnswer, is_fixed};
ghost use Rattle.session_jobs.specs.FixJobs.{AnswersFix};

use crate::outcomes::{SessionOutcome, output_of};
use cert_data::Outcome;
use job_answers::{JobOutput, SessionCommand, SessionFiles};
use obs_rows::Options;
use report_text::{is_fixed, write_outcome};
use session::{SessionFault, finish_run, start_run};
use std::alloc::{AllocError, Global};

impl SessionOutcome for Outcome {
    ghost fixed = { λ o. is_fixed o.answer };

    ghost out_text = { λ o. answer_text o.answer };

    ghost err_text = { λ o. outcome_text o };

    ghost is_whole = { λ o. IsWholeAnswer o.answer };

    fn is_fixed(&self) -> bool {
        is_fixed(&self.answer)
    }

    fn write(&self, alloc: Global, out: &mut Vec<u8>, err: &mut Vec<u8>) -> Result<(), AllocError> {
        write_outcome(alloc, out, err, self)
    }
}

/// The baseline of the rover from the base, with the certificate of its integers, or why it is declined.
#[derive(Clone, Copy, Debug)]
pub struct Fix;

impl SessionCommand for Fix {
    ghost answers = { AnswersFix };

    fn answer_files(
        &self,
        alloc: Global,
        files: SessionFiles,
        options: &Options,
    ) -> Result<JobOutput, SessionFault> {
        let started = start_run(alloc, &files.base, &files.rover, &files.nav, options)?;
        // The rounds don't need the files, so their memory goes first.
        drop(files);
        let outcome = finish_run(alloc, &started, options)?;
        drop(started);
        Ok(output_of(alloc, &outcome)?)
    }
}
