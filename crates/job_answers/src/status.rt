//! What the program ends with.
ghost use Rattle.std.specs.Prelude.{◌≡◌};
ghost use Rattle.job_answers.specs.Statuses.{number_of, IsVerdictStatus, verdict_status};

/// How a run ends.
#[derive(Clone, Copy, Debug, PartialEq, Eq)]
pub enum Status {
    /// The job has what it was asked for.
    Done,
    /// The job has an answer, and it is no.
    Declined,
    /// The words are no job.
    Usage,
    /// A file is not admitted.
    Refused,
    ReadFault,
    WriteFault,
    NoMemory,
}

impl Status {
    /// The exit status of the process.
    pub fn number(self) -> u8
        ensures { result ≡ number_of self }
    {
        match self {
            Status::Done => 0,
            Status::Declined => 1,
            Status::Usage => 2,
            Status::Refused => 3,
            Status::ReadFault => 4,
            Status::WriteFault => 5,
            Status::NoMemory => 6,
        }
    }
}

/// The status of a job with an answer: done where what was asked for holds, else declined.
pub fn verdict_status(holds: bool) -> Status
    ensures value { result ≡ verdict_status holds }
    ensures verdict { IsVerdictStatus result }
{
    if holds {
        Status::Done
    } else {
        Status::Declined
    }
}
