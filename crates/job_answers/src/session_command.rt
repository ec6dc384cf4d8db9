//! The commands on the three files of a session.
ghost use Rattle.std.specs.Prelude.{IfOk};
ghost use Rattle.epoch_pair.specs.Beginnings.{IsSessionFault};
ghost use Rattle.epoch_pair.specs.declared.faults.SessionFault.TheVariants as fault;
ghost use Rattle.job_answers.specs.Answers.{ending_of, IfEnded};
ghost use Rattle.job_answers.specs.Works.{file_work, IsDoneOver};
ghost use Rattle.job_answers.specs.SessionJobs.{SessionAnswers, AreAnswered, EndsOnFiles, IfPairRefused, session_command};

use crate::{JobOutput, JobStop, SessionFiles, read_session, refused_pair};
use epoch_pair::SessionFault;
use line_source::Files;
use obs_rows::Options;
use rinex_head::System;
use std::alloc::Global;

/// A command on the three files of a session, by what it answers of them.
pub trait SessionCommand {
    ghost answers: { SessionAnswers };

    /// A verdict on the files, or why the two observation files are refused. They are handed over, so that their memory can go before
    /// the work on what was taken from them.
    fn answer_files(
        &self,
        alloc: Global,
        files: SessionFiles,
        options: &Options,
    ) -> Result<JobOutput, SessionFault>
        ensures answered { IfOk result (λ a.
            AreAnswered answers options.now files.base files.rover files.nav (ending_of a)) }
        ensures refused { IfPairRefused result (λ what.
            IsSessionFault files.base files.rover options.now (fault.Refused what)) };
}

// What it ends with by the three files.
fn end_on_files<C: SessionCommand>(
    alloc: Global,
    command: &C,
    read: SessionFiles,
    options: &Options,
) -> Result<JobOutput, JobStop>
    ensures { IfEnded result (EndsOnFiles C.answers options.now read.base read.rover read.nav) }
{
    match command.answer_files(alloc, read, options) {
        Ok(answer) => Ok(answer),
        Err(SessionFault::Refused(what)) => Ok(refused_pair(alloc, what)?),
        Err(SessionFault::NoMemory) => Err(JobStop::NoMemory),
    }
}

/// What the command ends with over the files of these names, for the satellites of the options' system: each whole before the
/// next and opened once.
#[inline(never)]
pub fn answer_session<C: SessionCommand, F: Files>(
    alloc: Global,
    files: &mut F,
    command: &C,
    base: &str,
    rover: &str,
    nav: &str,
    options: &Options,
) -> Result<JobOutput, JobStop>
    ensures { IsDoneOver (file_work F.Files files.old files.new)
        (session_command C.answers base.now rover.now nav.now options.now) result }
{
    let system = System::of_letter(options.system);
    let read = read_session(alloc, files, system, base, rover, nav)?;
    end_on_files(alloc, command, read, options)
}
