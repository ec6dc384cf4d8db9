//! The line of a verdict.
ghost use Rattle.std.specs.Prelude.{◌≡◌, ◌++◌, OnOk};
ghost use Rattle.report_text.specs.VerdictText.{cause_text, verdict_text};

use cert_data::{Cause, Verdict, name_of_place};
use std::alloc::{AllocError, Global};

// Appends why a certificate isn't certified.
fn write_cause(alloc: Global, out: &mut Vec<u8>, cause: &Cause) -> Result<(), AllocError>
    ensures { OnOk result (out.new.items ≡ out.old.items ++ cause_text cause.now) }
{
    match cause {
        Cause::Weak { column, pivot } => {
            let text = format!(in alloc; "weak {column} {pivot}")?;
            out.extend_from_slice(text.as_bytes())
        }
        Cause::Overwidth { place } => {
            out.extend_from_slice(b"overwidth ")?;
            out.extend_from_slice(name_of_place(*place))
        }
        Cause::Spent => out.extend_from_slice(b"spent"),
        Cause::Unseparated => out.extend_from_slice(b"unseparated"),
        Cause::Tail => out.extend_from_slice(b"tail"),
    }
}

/// Appends the line of a verdict.
pub fn write_verdict(alloc: Global, out: &mut Vec<u8>, verdict: &Verdict) -> Result<(), AllocError>
    ensures { OnOk result (out.new.items ≡ out.old.items ++ verdict_text verdict.now) }
{
    match verdict {
        Verdict::Certified => out.extend_from_slice(b"certified\n"),
        Verdict::Not(cause) => {
            out.extend_from_slice(b"not certified ")?;
            write_cause(alloc, out, cause)?;
            out.extend_from_slice(b"\n")
        }
    }
}
