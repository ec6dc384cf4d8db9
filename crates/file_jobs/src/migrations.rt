//! The command `migrate`: a certificate of the first version, lifted to the present one and written.
//!
//! The text is the old spelling of one certificate, or it is refused at the first line and check of the old grammar that
//! fails. What is written is the spelling of the lifted certificate, of which all of cert_migrate's law holds: its boxes
//! hold the old ones' data, its sums of squares are the old ones in the present unit, its tail is the decision of its own
//! rows, the only one, and what is fixed is strictly best, and best by the ratio, in the old boxes and in the printed
//! ones. The status is 0 exactly where that tail is fixed, else 1.
ghost use Rattle.std.specs.Prelude.{◌≡◌, IfOk};
ghost use Rattle.job_answers.specs.Statuses.{IsVerdictStatus};
ghost use Rattle.job_answers.specs.Answers.{ending_of};
ghost use Rattle.file_jobs.specs.Migrations.{status_of, MigrateEnd, migrate_job};

use cert_data::Tail;
use cert_migrate::{OldCert, lift, read_old};
use cert_text::write_cert;
use job_answers::{JobOutput, Status, TextCommand};
use rinex_head::TextFault;
use std::alloc::{AllocError, Global};

fn status_of(tail: &Tail) -> Status
    ensures value { result ≡ status_of tail.now }
    ensures verdict { IsVerdictStatus result }
{
    match tail {
        Tail::Fixed { .. } => Status::Done,
        _ => Status::Declined,
    }
}

// What an old certificate is answered.
fn answer_migrate(alloc: Global, old: &OldCert) -> Result<JobOutput, AllocError>
    ensures answer { IfOk result (λ a. MigrateEnd old.now (ending_of a)) }
    ensures verdict { IfOk result (λ a. IsVerdictStatus a.status) }
{
    let cert = lift(alloc, old)?;
    let mut out = Vec::new(alloc);
    write_cert(alloc, &mut out, &cert)?;
    Ok(JobOutput {
        status: status_of(&cert.tail),
        out,
        err: Vec::new(alloc),
    })
}

/// The certificate of the first version, in the present form.
#[derive(Clone, Copy, Debug)]
pub struct Migration;

impl TextCommand for Migration {
    ghost job = { λ _. migrate_job };

    fn answer_text(&self, alloc: Global, text: &[u8]) -> Result<JobOutput, TextFault> {
        let old = read_old(alloc, text)?;
        Ok(answer_migrate(alloc, &old)?)
    }
}
