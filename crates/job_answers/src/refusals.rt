//! How a job ends whose two observation files are refused.
//!
//! `refused_pair` gives the refusal with its one line (`pair_line`). `AreAdmitted` says of which files a session is
//! made, and the law `never_refused` that two such files are not refused.
ghost use Rattle.std.specs.Prelude.{◌≡◌, [], IfOk, string_bytes};
ghost use Rattle.job_answers.specs.Answers.{ending_of};
ghost use Rattle.job_answers.specs.Endings.{ending};
ghost use Rattle.job_answers.specs.Refusals.{pair_line};

use crate::{JobOutput, Status};
use epoch_pair::PairWhat;
use std::alloc::{AllocError, Global};

// The line about two files that are refused.
fn line_of(alloc: Global, what: PairWhat) -> Result<String, AllocError>
    ensures { IfOk result (λ line. string_bytes line ≡ pair_line what) }
{
    match what {
        PairWhat::NoBasePosition => String::from_str(alloc, "refused: no base position\n"),
        PairWhat::NoSignal => String::from_str(alloc, "refused: no common signals\n"),
        PairWhat::Dense { rover: true, epoch } => {
            format!(in alloc; "refused: rover epochs too dense at {epoch}\n")
        }
        PairWhat::Dense {
            rover: false,
            epoch,
        } => { format!(in alloc; "refused: base epochs too dense at {epoch}\n") }
    }
}

/// The end of a job whose two files are refused.
pub fn refused_pair(alloc: Global, what: PairWhat) -> Result<JobOutput, AllocError>
    ensures { IfOk result (λ a. ending_of a ≡ ending Status.Refused [] (pair_line what)) }
{
    let line = line_of(alloc, what)?;
    Ok(JobOutput::on_err(alloc, Status::Refused, line))
}
