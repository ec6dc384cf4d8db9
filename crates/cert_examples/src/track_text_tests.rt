//! Certificates of tracks that are read and written again.
use crate::texts::text_of_both;
use line_source::MAX_FILE;
use std::alloc::{AllocError, Global};
use track_text::{read_track, write_track};

// The head, the arcs and the pairs of a small track of two satellites in two pairs.
const FRONT: [&str; 17] = [
    "baseline-track 1",
    "ratio 2000",
    "budget 1000",
    "system G",
    "base 63781370000 0 0",
    "signals 12 C W",
    "arcs 2",
    "arc 3 0 4 datum 0 0",
    "arc 5 0 4 free 0 0",
    "pairs 2",
    "pair 0 13881024000000000 0 2",
    "at 63781370000 0 0",
    "row 0 0 0 0 0 0 0 0 0 0 0 0",
    "row 1 0 0 0 0 0 0 0 0 0 0 0",
    "pair 4 13881054000000000 0 1",
    "at 63781370001 -2 3",
    "row 1 0 0 0 0 0 0 0 0 0 0 0",
];

const VECTORS: [&str; 6] = [
    "z1 -1 1073741823",
    "z2 7 7",
    "move 0 1 -2 3",
    "move 4 -1 0 5",
    "values 127 -1 2 -3",
    "declined unseparated",
];

static TAILS: [&[&str]; 5] = [
    &VECTORS,
    &["declined weak 62 -4503599627370495"],
    &["declined overwidth y"],
    &["declined overwidth search"],
    &["declined spent 1000"],
];

// The text of a track's certificate, read and written again, or none where it isn't read.
fn again(alloc: Global, text: &str) -> Result<Vec<u8>, AllocError> {
    let mut out = Vec::new(alloc);
    if text.len() <= MAX_FILE
        && let Ok(cert) = read_track(alloc, text.as_bytes())
    {
        write_track(alloc, &mut out, &cert)?;
    }
    Ok(out)
}

// Whether the text of the front and this tail is read and written again as it is.
fn is_given_back(alloc: Global, tail: &[&str]) -> Result<bool, AllocError> {
    let text = text_of_both(alloc, &FRONT, tail)?;
    let out = again(alloc, &text)?;
    Ok(out.as_slice() == text.as_bytes())
}

#[test]
fn gives_texts_back(rt: HostRuntime) {
    for tail in TAILS.iter() {
        assert!(rt; matches!(is_given_back(rt.alloc(), *tail), Ok(true)));
    }
}
