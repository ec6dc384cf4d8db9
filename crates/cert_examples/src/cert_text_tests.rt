//! Certificates that are read and written again.
use crate::texts::{cert_of, text_of, text_of_both};
use cert_text::{Cert, Version, read_as, write_cert};
use line_source::MAX_FILE;
use std::alloc::{AllocError, Global};

// The head, the arcs and the pairs of a small certificate of two satellites in one pair.
const SMALL: [&str; 14] = [
    "baseline-cert 2",
    "ratio 2000",
    "budget 1000",
    "system G",
    "base 63781370000 0 0",
    "point 63781370000 0 0",
    "signals 12 C W",
    "arcs 2",
    "arc 3 0 0 datum 0 0",
    "arc 5 0 0 free 0 0",
    "pairs 1",
    "pair 0 13881024000000000 0 2",
    "row 0 0 0 0 0 0 0 0 0 0 0 0",
    "row 1 0 0 0 0 0 0 0 0 0 0 0",
];

const WEAK: [&str; 1] = ["declined weak fine 0 -6"];

const NEAR: [&str; 5] = [
    "z1 -1 1073741823",
    "z2 7 7",
    "move 1 -2 3",
    "values 0 -1 2 -3",
    "declined unseparated",
];

const FIXED: [&str; 5] = ["z1 0 0", "z2 0 1", "move 0 0 0", "values 35 0 0 0", "fixed"];

// The text of a certificate, or none where there is none.
fn written(alloc: Global, cert: Option<Cert>) -> Result<Vec<u8>, AllocError> {
    let mut out = Vec::new(alloc);
    if let Some(cert) = &cert {
        write_cert(alloc, &mut out, cert)?;
    }
    Ok(out)
}

// Whether the text of these lines is read and written again as it is.
fn is_given_back(alloc: Global, front: &[&str], back: &[&str]) -> Result<bool, AllocError> {
    let text = text_of_both(alloc, front, back)?;
    let out = written(alloc, cert_of(alloc, &text))?;
    Ok(out.as_slice() == text.as_bytes())
}

static TAILS: [&[&str]; 7] = [
    &WEAK,
    &FIXED,
    &NEAR,
    &["declined overwidth fine y"],
    &["declined overwidth fine search"],
    &["declined unsettled fine -70368744177663"],
    &["declined spent 1000"],
];

#[test]
fn gives_texts_back(rt: HostRuntime) {
    for tail in TAILS.iter() {
        assert!(rt; matches!(is_given_back(rt.alloc(), &SMALL, *tail), Ok(true)));
    }
}

// A certificate of the bands L1 and L5 of Galileo.
const OTHER_BANDS: [&str; 15] = [
    "baseline-cert 2",
    "ratio 2000",
    "budget 1000",
    "system E",
    "base 63781370000 0 0",
    "point 63781370000 0 0",
    "signals 15 C Q",
    "arcs 2",
    "arc 3 0 0 datum 1 -2",
    "arc 36 0 0 free 3 4",
    "pairs 1",
    "pair 0 13881024000000000 36028797018963967 2",
    "row 0 1 2 3 4 5 6 7 8 9 10 11",
    "row 1 -1 -2 -3 -4 5 6 7 8 9 10 11",
    "declined weak fine 62 -6",
];

// A certificate of all three bands, whose arc has three integers.
const ALL_BANDS: [&str; 19] = [
    "baseline-cert 2",
    "ratio 2000",
    "budget 1000",
    "system G",
    "base 63781370000 0 0",
    "point 63781370000 0 0",
    "signals 125 C W Q",
    "arcs 2",
    "arc 3 0 0 datum 1 -2 5",
    "arc 32 0 0 free 3 4 6",
    "pairs 1",
    "pair 0 13881024000000000 0 2",
    "row 0 1 2 3 4 -5 -6 5 6 7 8 9 10 11",
    "row 1 -1 -2 -3 -4 5 6 5 6 7 8 9 10 11",
    "z1 0 0 0",
    "z2 0 1 0",
    "move 0 0 0",
    "values 36 0 0 0",
    "fixed",
];

#[test]
fn gives_other_bands_back(rt: HostRuntime) {
    assert!(rt; matches!(is_given_back(rt.alloc(), &OTHER_BANDS, &[]), Ok(true)));
    assert!(rt; matches!(is_given_back(rt.alloc(), &ALL_BANDS, &[]), Ok(true)));
}

// The same certificate in the form of the first version.
const OLD: [&str; 14] = [
    "baseline-cert 1",
    "ratio 2000",
    "budget 1000",
    "base 63781370000 0 0",
    "point 63781370000 0 0",
    "signals C W",
    "arcs 2",
    "arc 3 0 0 datum 0 0",
    "arc 5 0 0 free 0 0",
    "pairs 1",
    "pair 0 13881024000000000 0 2",
    "row 0 0 0 0 0 0 0 0 0 0 0 0",
    "row 1 0 0 0 0 0 0 0 0 0 0 0",
    "declined weak fine 0 -6",
];

// The certificate of a text of the first version, if it is one.
fn old_cert_of(alloc: Global, text: &str) -> Option<Cert> {
    if text.len() > MAX_FILE {
        return None;
    }
    read_as(alloc, Version::One, text.as_bytes()).ok()
}

// Whether it is written in the second form.
fn is_renewed(alloc: Global) -> Result<bool, AllocError> {
    let old = text_of(alloc, &[&OLD])?;
    let new = text_of(alloc, &[&SMALL, &WEAK])?;
    let out = written(alloc, old_cert_of(alloc, &old))?;
    Ok(out.as_slice() == new.as_bytes())
}

#[test]
fn reads_the_first_version(rt: HostRuntime) {
    assert!(rt; matches!(is_renewed(rt.alloc()), Ok(true)));
}
