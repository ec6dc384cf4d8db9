//! The command `zero`: whether the number that a file claims is strictly best for its differences.
ghost use Rattle.std.specs.Prelude.{IfOk};
ghost use Rattle.job_answers.specs.Statuses.{IsVerdictStatus};
ghost use Rattle.job_answers.specs.Answers.{ending_of};
ghost use Rattle.file_jobs.specs.Zero.{IsVerdictOf, zero_job};

use crate::{Verdict, ZeroRows, decide, read_rows};
use job_answers::{JobOutput, Status, TextCommand};
use rinex_head::TextFault;
use std::alloc::{AllocError, Global};

// What the rows are answered.
fn answer_rows(alloc: Global, rows: &ZeroRows) -> Result<JobOutput, AllocError>
    ensures answer { IfOk result (λ a. IsVerdictOf rows.now (ending_of a)) }
    ensures verdict { IfOk result (λ a. IsVerdictStatus a.status) }
{
    let claim = rows.claim();
    match decide(rows) {
        Verdict::Optimal { sum } => {
            let out = format!(in alloc; "optimal {claim} sum {sum}\n")?;
            Ok(JobOutput::on_out(alloc, Status::Done, out))
        }
        Verdict::Beaten { sum, by, least } => {
            let out = format!(in alloc; "beaten {claim} sum {sum} by {by} sum {least}\n")?;
            Ok(JobOutput::on_out(alloc, Status::Declined, out))
        }
    }
}

/// Whether the number that the file claims is strictly best for its differences.
#[derive(Clone, Copy, Debug)]
pub struct Claim;

impl TextCommand for Claim {
    ghost job = { λ _. zero_job };

    fn answer_text(&self, alloc: Global, text: &[u8]) -> Result<JobOutput, TextFault> {
        let rows = read_rows(alloc, text)?;
        Ok(answer_rows(alloc, &rows)?)
    }
}
