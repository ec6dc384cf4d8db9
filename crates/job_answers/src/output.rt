//! What a job ends with, before its texts are written.
ghost use Rattle.std.specs.Prelude.{◌≡◌, vec_len};
ghost use Rattle.job_answers.specs.Statuses.{IsVerdictStatus};

use crate::Status;

/// What is to be written to out and to err, and how the program ends then. Only a verdict has a text for out.
#[derive(Drop)]
pub struct JobOutput {
    pub status: Status,
    pub out: Vec<u8>,
    pub err: Vec<u8>,
    ghost quiet: { (IsVerdictStatus status → ⊥) → vec_len out ≡ 0 },
}
