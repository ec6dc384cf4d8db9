//! The command `check-track`.
ghost use Rattle.track_job.specs.CheckJobs.{check_track_job};

use file_jobs::verdict_output;
use job_answers::{JobOutput, TextCommand};
use rinex_head::TextFault;
use std::alloc::Global;
use track_form::check_track;
use track_text::read_track;

/// Whether the rows of the certificate of a track say what its tail says of a fix.
#[derive(Clone, Copy, Debug)]
pub struct TrackCheck;

impl TextCommand for TrackCheck {
    ghost job = { λ _. check_track_job };

    fn answer_text(&self, alloc: Global, text: &[u8]) -> Result<JobOutput, TextFault> {
        let cert = read_track(alloc, text)?;
        let verdict = check_track(alloc, &cert)?;
        Ok(verdict_output(alloc, &verdict)?)
    }
}
