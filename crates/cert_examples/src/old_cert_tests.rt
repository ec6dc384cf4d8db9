//! A certificate of version 1, read and lifted.
use cert_migrate::{lift, read_old};
use cert_text::write_cert;
use line_source::MAX_FILE;
use std::alloc::{AllocError, Global};

const OLD: &str = "baseline-cert 1
ratio 2000
budget 1000
base 63781370000 0 0
point 63781370000 0 0
signals C W
arcs 2
arc 3 0 0 datum 0 0
arc 5 0 0 free 0 0
pairs 1
pair 0 13881024000000000 0 2
row 0 32 16 -16 0 100 0 0 0 0 0 0
row 1 0 0 0 0 0 0 0 0 0 0 0
declined weak fine 0 -6
";

// A centre is 23/32 of the old one, a half rounded down, and a radius 23/32 of the old one, rounded up, and one more.
const NEW: &str = "baseline-cert 2
ratio 2000
budget 1000
system G
base 63781370000 0 0
point 63781370000 0 0
signals 12 C W
arcs 2
arc 3 0 0 datum 0 0
arc 5 0 0 free 0 0
pairs 1
pair 0 13881024000000000 0 2
row 0 23 12 -11 0 73 0 0 0 0 0 0
row 1 0 0 0 0 1 0 0 0 0 0 0
declined weak fine 0 -6
";

// What the text is lifted to, or nothing where it is no certificate of version 1.
fn lifted(alloc: Global, text: &str) -> Result<Vec<u8>, AllocError> {
    let mut out = Vec::new(alloc);
    if text.len() <= MAX_FILE
        && let Ok(old) = read_old(alloc, text.as_bytes())
    {
        let cert = lift(alloc, &old)?;
        write_cert(alloc, &mut out, &cert)?;
    }
    Ok(out)
}

fn is_lifted(alloc: Global) -> Result<bool, AllocError> {
    let found = lifted(alloc, OLD)?;
    Ok(found.as_slice() == NEW.as_bytes())
}

#[test]
fn lifts_the_first_version(rt: HostRuntime) {
    assert!(rt; matches!(is_lifted(rt.alloc()), Ok(true)));
}
