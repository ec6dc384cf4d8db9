//! The command `list`: what an observation file holds of GPS.
ghost use Rattle.std.specs.Prelude.{◌≡◌, [], IfOk};
ghost use Rattle.report_text.specs.List.{list_text};
ghost use Rattle.job_answers.specs.Answers.{ending_of};
ghost use Rattle.job_answers.specs.Endings.{ending};
ghost use Rattle.job_answers.specs.Works.{file_work, IsDoneOver};
ghost use Rattle.job_answers.specs.TextJobs.{text_command};
ghost use Rattle.file_jobs.specs.Listing.{list_job};

use job_answers::{JobOutput, JobStop, Status, obs_file};
use line_source::Files;
use obs_store::ObsFile;
use report_text::write_list;
use rinex_head::System;
use std::alloc::{AllocError, Global};

// What an observation file ends with.
fn answer_file(alloc: Global, file: &ObsFile) -> Result<JobOutput, AllocError>
    ensures { IfOk result (λ a. ending_of a ≡ ending Status.Done (list_text file.now) []) }
{
    let mut out = Vec::new(alloc);
    write_list(alloc, &mut out, file)?;
    Ok(JobOutput {
        status: Status::Done,
        out,
        err: Vec::new(alloc),
    })
}

/// What an observation file holds of GPS: its version, its epochs and its satellites.
#[inline(never)]
pub fn list<F: Files>(alloc: Global, files: &mut F, name: &str) -> Result<JobOutput, JobStop>
    ensures { IsDoneOver (file_work F.Files files.old files.new)
        (text_command list_job name.now) result }
{
    let file = obs_file(alloc, files, System::Gps, name)?;
    Ok(answer_file(alloc, &file)?)
}
