//! The command `track`.
ghost use Rattle.track_job.specs.TrackJobs.{AnswersTrack};

use crate::outcomes::track_outcome;
use epoch_pair::SessionFault;
use job_answers::{JobOutput, SessionCommand, SessionFiles};
use obs_rows::Options;
use session_jobs::output_of;
use std::alloc::Global;

/// The baselines of a moving rover from the base, one for each tracked pair, with the certificate of their integers, or why
/// they are declined.
#[derive(Clone, Copy, Debug)]
pub struct MovingRover;

impl SessionCommand for MovingRover {
    ghost answers = { AnswersTrack };

    fn answer_files(
        &self,
        alloc: Global,
        files: SessionFiles,
        options: &Options,
    ) -> Result<JobOutput, SessionFault> {
        let outcome = track_outcome(alloc, files, options)?;
        Ok(output_of(alloc, &outcome)?)
    }
}
