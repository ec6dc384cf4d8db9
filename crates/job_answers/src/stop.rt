//! How a job stops, and the ends of all jobs whose file isn't read.
ghost use Rattle.std.specs.Prelude.{◌≡◌, ◌≢◌, ◌⊎◌, ◌<◌, [], length, IfOk, IfSome, OnOk, IsErrOf, string_bytes};
ghost use Rattle.line_source.specs.Causes.{Rose};
ghost use Rattle.line_source.specs.Openings.{unread};
ghost use Rattle.line_source.specs.Givens.{GivesWhole};
ghost use Rattle.job_answers.specs.Statuses.{IsVerdictStatus};
ghost use Rattle.job_answers.specs.declared.stop.JobStop.TheVariants.{NoMemory};
ghost use Rattle.job_answers.specs.Texts.{refusal_line, too_large_line, read_fault_line, usage_line};
ghost use Rattle.job_answers.specs.Endings.{ending, IsTextOf, EndsUnloaded, IsRefusalOf};
ghost use Rattle.job_answers.specs.Answers.{ending_of, IfStopped};
ghost use Rattle.job_answers.specs.Works.{ForAllKnown, UsesFile, ReadsWhole};

use crate::{JobOutput, Status};
use line_source::{Files, LoadFault, load};
use rinex_head::At;
use std::alloc::{AllocError, Global};

/// Why a job is not done to its end: it ends before, or runs out of memory.
#[derive(Drop)]
pub enum JobStop {
    Ended(JobOutput),
    NoMemory,
}

impl From<AllocError> for JobStop {
    ghost from_gives = { λ _ stop. stop ≡ NoMemory };

    fn from(_: AllocError) -> JobStop {
        JobStop::NoMemory
    }
}

impl JobOutput {
    /// A text for out alone, of a verdict.
    pub fn on_out(alloc: Global, status: Status, out: String) -> JobOutput
        requires { IsVerdictStatus status }
        ensures { ending_of result ≡ ending status (string_bytes out) [] }
    {
        JobOutput {
            status,
            out: out.into_bytes(),
            err: Vec::new(alloc),
        }
    }

    /// A text for err alone.
    pub fn on_err(alloc: Global, status: Status, err: String) -> JobOutput
        ensures { ending_of result ≡ ending status [] (string_bytes err) }
    {
        JobOutput {
            status,
            out: Vec::new(alloc),
            err: err.into_bytes(),
        }
    }
}

/// The end of a run with a usage error: its words are no job.
pub fn usage(alloc: Global) -> Result<JobOutput, AllocError>
    ensures { IfOk result (λ a. ending_of a ≡ ending Status.Usage [] usage_line) }
{
    let err = String::from_str(
        alloc,
        "usage: baseline fix|check|residuals|zero|list|orbit|arcs|sim|migrate|track|check-track WORDS\n",
    )?;
    Ok(JobOutput::on_err(alloc, Status::Usage, err))
}

/// The end of a job whose file is refused at that place.
pub fn refused(alloc: Global, name: &str, at: At) -> Result<JobOutput, AllocError>
    ensures { IfOk result (λ a. ending_of a ≡ ending Status.Refused [] (refusal_line name.now at)) }
{
    let line = at.line;
    let column = at.column;
    let text = at.what.text();
    let err = format!(in alloc; "refused: {name} line {line} column {column}: {text}\n")?;
    Ok(JobOutput::on_err(alloc, Status::Refused, err))
}

/// The end of a job whose file has more bytes than are read.
pub fn too_large(alloc: Global, name: &str) -> Result<JobOutput, AllocError>
    ensures { IfOk result (λ a. ending_of a ≡ ending Status.Refused [] (too_large_line name.now)) }
{
    let err = format!(in alloc; "refused: {name}: file too large\n")?;
    Ok(JobOutput::on_err(alloc, Status::Refused, err))
}

/// The end of a job whose file could not be read.
pub fn read_fault(alloc: Global, name: &str) -> Result<JobOutput, AllocError>
    ensures { IfOk result (λ a.
        ending_of a ≡ ending Status.ReadFault [] (read_fault_line name.now)) }
{
    let err = format!(in alloc; "read fault: {name}\n")?;
    Ok(JobOutput::on_err(alloc, Status::ReadFault, err))
}

/// The whole file of a job, which is opened once, or the job's end where it can't be had. It runs out of memory only at a
/// file with some bytes, or at the line about a fault.
pub fn load_file<F: Files>(alloc: Global, files: &mut F, name: &str) -> Result<Vec<u8>, JobStop>
    ensures text { ForAllKnown F.Files files.old files.new (λ known.
        IfOk result (λ v. IsTextOf known name.now v.items)) }
    ensures stopped { ForAllKnown F.Files files.old files.new (λ known.
        IfStopped result (λ end. EndsUnloaded known name.now end)) }
    ensures uses { UsesFile F.Files name.now files.old files.new }
    ensures reads { OnOk result (ReadsWhole F.Files name.now files.old files.new) }
    ensures given { IfOk result (λ v.
        GivesWhole name.now v.items (F.given files.old) (F.given files.new)) }
    ensures refused { IfStopped result (IsRefusalOf (F.text_of files.old) (F.given files.old)
        (unread (F.openings files.new) (F.unread files.new) (F.given files.new)) name.now) }
    ensures memory { IfSome (F.text_of files.old name.now) (λ text. IsErrOf result
        JobStop.NoMemory → (0 < length text) ⊎ Rose (F.faults files.old) (F.faults files.new)) }
    ensures fault { IfStopped result (λ end. end.status ≡ Status.ReadFault →
        Rose (F.faults files.old) (F.faults files.new)) }
    ensures sure { F.is_sure_name files.old name.now →
        IfStopped result (λ end. end.status ≢ Status.ReadFault) }
{
    match load(alloc, files, name) {
        Ok(text) => Ok(text),
        Err(LoadFault::BigFile) => Err(JobStop::Ended(too_large(alloc, name)?)),
        Err(LoadFault::ReadFault) => Err(JobStop::Ended(read_fault(alloc, name)?)),
        Err(LoadFault::NoMemory) => Err(JobStop::NoMemory),
    }
}
