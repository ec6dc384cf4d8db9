//! The commands on one file.
ghost use Rattle.std.specs.Prelude.{◌≤◌, length, IfOk};
ghost use Rattle.line_source.specs.declared.transfer.TheConstants.{MAX_FILE};
ghost use Rattle.rinex_head.specs.LineRules.{IfRefused};
ghost use Rattle.job_answers.specs.Answers.{ending_of, IfEnded};
ghost use Rattle.job_answers.specs.Works.{file_work, IsDoneOver};
ghost use Rattle.job_answers.specs.TextJobs.{TextJob, IsAnswered, IsRefusedAt, EndsOnText, text_command};

use crate::{JobOutput, JobStop, load_file, refused};
use line_source::Files;
use rinex_head::TextFault;
use std::alloc::Global;

/// A command on one file, by what it answers of a text.
pub trait TextCommand {
    /// Which texts it takes, where it refuses another one, and what it answers.
    ghost job: { Self → TextJob };

    /// A verdict on a text that it takes, or the place at which another one is refused.
    fn answer_text(&self, alloc: Global, text: &[u8]) -> Result<JobOutput, TextFault>
        requires { length text.now ≤ MAX_FILE }
        ensures answered { IfOk result (λ a. IsAnswered (job self.now) text.now (ending_of a)) }
        ensures refused { IfRefused result (IsRefusedAt (job self.now) text.now) };
}

// What it ends with by the text of its file.
fn end_on_text<C: TextCommand>(
    alloc: Global,
    command: &C,
    name: &str,
    text: &[u8],
) -> Result<JobOutput, JobStop>
    requires { length text.now ≤ MAX_FILE }
    ensures { IfEnded result (EndsOnText (C.job command.now) name.now text.now) }
{
    match command.answer_text(alloc, text) {
        Ok(answer) => Ok(answer),
        Err(TextFault::Refused(at)) => Ok(refused(alloc, name, at)?),
        Err(TextFault::NoMemory) => Err(JobStop::NoMemory),
    }
}

/// What the command ends with over the file of that name, which is opened once and read to its end.
#[inline(never)]
pub fn answer_file<C: TextCommand, F: Files>(
    alloc: Global,
    files: &mut F,
    command: &C,
    name: &str,
) -> Result<JobOutput, JobStop>
    ensures { IsDoneOver (file_work F.Files files.old files.new)
        (text_command (C.job command.now) name.now) result }
{
    let text = load_file(alloc, files, name)?;
    end_on_text(alloc, command, name, &text)
}
