//! What is printed of runs that end with a certificate.
use crate::outcome_report_tests::is_printed;
use crate::texts::{NOTHING, SESSION, SMALL, cert_of, text_of};
use cert_data::{Answer, Cert, Outcome, RoundCounts};
use report_text::is_fixed;
use std::alloc::{AllocError, Global};

// A run that ends with this certificate.
fn outcome_of(cert: Cert) -> Outcome {
    Outcome {
        taken: 6,
        all: 11,
        kept: 5,
        delta: false,
        rounds: RoundCounts { coarse: 3, fine: 2 },
        answer: Answer::Full(cert),
    }
}

// Whether a run that ends with the certificate of these lines, fixed or not, prints their text, and on standard error this.
fn is_told(alloc: Global, lines: &[&[&str]], fixed: bool, want: &str) -> Result<bool, AllocError> {
    let text = text_of(alloc, lines)?;
    let Some(cert) = cert_of(alloc, &text) else {
        return Ok(false);
    };
    let outcome = outcome_of(cert);
    let is_so = is_printed(alloc, &outcome, text.as_bytes(), want)?;
    Ok(is_so && is_fixed(&outcome.answer) == fixed)
}

const VALUES: &str = "values 41 107551584 2298605384680 1709993";

static FIXED: [&[&str]; 3] = [
    &["baseline-cert 2", "ratio 2000", "budget 1000000"],
    &SESSION,
    &[VALUES, "fixed"],
];

static DECLINED: [&[&str]; 3] = [
    &["baseline-cert 2", "ratio 2000", "budget 1000000"],
    &SMALL,
    &NOTHING,
];

// The generator's offset of the first session's rover is (-165680, 943607, -659500) mm.
const BASELINE: &str =
    "pairs 6 of 11\narcs 5\nbaseline -165.6800 943.6070 -659.5000\nverdict fixed\n";

#[test]
fn tells_outcomes(rt: HostRuntime) {
    let declined = "pairs 6 of 11\narcs 5\nverdict declined\n";
    assert!(rt; matches!(is_told(rt.alloc(), &FIXED, true, BASELINE), Ok(true)));
    assert!(rt; matches!(is_told(rt.alloc(), &DECLINED, false, declined), Ok(true)));
}
