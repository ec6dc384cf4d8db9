//! The commands `check` and `residuals`, on the text of a certificate.
ghost use Rattle.std.specs.Prelude.{◌≡◌, [], IfOk};
ghost use Rattle.job_answers.specs.Answers.{ending_of};
ghost use Rattle.job_answers.specs.Endings.{ending};
ghost use Rattle.job_answers.specs.Statuses.{IsVerdictStatus};
ghost use Rattle.report_text.specs.VerdictText.{verdict_text};
ghost use Rattle.file_jobs.specs.CertJobs.{status_of, check_job, residuals_job};

use cert_check::check;
use cert_data::Verdict;
use cert_text::read_cert;
use job_answers::{JobOutput, Status, TextCommand, verdict_status};
use report_text::{write_residuals, write_verdict};
use rinex_head::TextFault;
use std::alloc::{AllocError, Global};

/// Done where the verdict is `Certified`, else declined.
pub fn status_of(verdict: &Verdict) -> Status
    ensures value { result ≡ status_of verdict.now }
    ensures verdict { IsVerdictStatus result }
{
    match verdict {
        Verdict::Certified => Status::Done,
        Verdict::Not(_) => Status::Declined,
    }
}

/// What a check that comes to this verdict answers.
pub fn verdict_output(alloc: Global, verdict: &Verdict) -> Result<JobOutput, AllocError>
    ensures ended { IfOk result (λ a.
        ending_of a ≡ ending (status_of verdict.now) (verdict_text verdict.now) []) }
    ensures verdict { IfOk result (λ a. IsVerdictStatus a.status) }
{
    let mut out = Vec::new(alloc);
    write_verdict(alloc, &mut out, verdict)?;
    Ok(JobOutput {
        status: status_of(verdict),
        out,
        err: Vec::new(alloc),
    })
}

/// Whether the rows of the certificate say what its tail says of a fix.
#[derive(Clone, Copy, Debug)]
pub struct CertCheck;

impl TextCommand for CertCheck {
    ghost job = { λ _. check_job };

    fn answer_text(&self, alloc: Global, text: &[u8]) -> Result<JobOutput, TextFault> {
        let cert = read_cert(alloc, text)?;
        let verdict = check(&cert);
        Ok(verdict_output(alloc, &verdict)?)
    }
}

/// What is left of the observations of the certificate's rows, at its tail's first integers.
#[derive(Clone, Copy, Debug)]
pub struct Residuals;

impl TextCommand for Residuals {
    ghost job = { λ _. residuals_job };

    fn answer_text(&self, alloc: Global, text: &[u8]) -> Result<JobOutput, TextFault> {
        let cert = read_cert(alloc, text)?;
        let mut out = Vec::new(alloc);
        let shown = write_residuals(alloc, &mut out, &cert)?;
        Ok(JobOutput {
            status: verdict_status(shown),
            out,
            err: Vec::new(alloc),
        })
    }
}
