//! What is printed of certificates: the residuals of their rows, and verdicts.
use crate::texts::{SMALL, cert_of, text_of};
use cert_data::{Cause, Verdict};
use report_text::{write_residuals, write_verdict};
use std::alloc::{AllocError, Global};

const HEAD: [&str; 3] = ["baseline-cert 2", "ratio 2000", "budget 1000"];

// Two rows of zeros, and one cycle on L1.
const ONE_CYCLE: [&str; 7] = [
    "row 0 0 0 0 0 0 0 0 0 0 0 0",
    "row 1 0 0 0 0 0 0 0 0 0 0 0",
    "z1 1 0",
    "z2 0 0",
    "move 0 0 0",
    "values 35 0 0 0",
    "fixed",
];

// Half a wavelength of 190,294 micrometres is left of each row, since two clocks are free.
const RESIDUALS: &[u8] = b"0 0 95147 0 0 0\n0 1 -95147 0 0 0\n";

// Whether these are the residuals of these lines' certificate.
fn are_shown(alloc: Global) -> Result<bool, AllocError> {
    let text = text_of(alloc, &[&HEAD, &SMALL, &ONE_CYCLE])?;
    let Some(cert) = cert_of(alloc, &text) else {
        return Ok(false);
    };
    let mut out = Vec::new(alloc);
    let is_shown = write_residuals(alloc, &mut out, &cert)?;
    Ok(is_shown && out.as_slice() == RESIDUALS)
}

#[test]
fn shows_residuals(rt: HostRuntime) {
    assert!(rt; matches!(are_shown(rt.alloc()), Ok(true)));
}

// Whether this is what is written of the verdict.
fn is_written(alloc: Global, verdict: &Verdict, text: &[u8]) -> Result<bool, AllocError> {
    let mut out = Vec::new(alloc);
    write_verdict(alloc, &mut out, verdict)?;
    Ok(out.as_slice() == text)
}

const WEAK: Verdict = Verdict::Not(Cause::Weak {
    column: 0,
    pivot: -6,
});

static VERDICTS: [(Verdict, &[u8]); 2] = [
    (Verdict::Certified, b"certified\n"),
    (WEAK, b"not certified weak 0 -6\n"),
];

#[test]
fn says_verdicts(rt: HostRuntime) {
    for row in VERDICTS.iter() {
        assert!(rt; matches!(is_written(rt.alloc(), &row.0, row.1), Ok(true)));
    }
}
