//! Lists of arcs.
use obs_rows::{Arc, ArcList, is_system};
use report_text::write_arcs;
use slip_arcs::Arcs;
use std::alloc::{AllocError, Global};

const DATUM: Arc = Arc {
    sat: 3,
    first: 0,
    last: 19,
    datum: true,
    shift: [0; 3],
};

const FREE: Arc = Arc {
    sat: 12,
    first: 5,
    last: 9,
    datum: false,
    shift: [0; 3],
};

// A system, and what is printed of these two arcs and two short ones.
static PRINTED: [(u8, &str); 2] = [
    (b'G', "arc G03 0 19 datum\narc G12 5 9 free\nshort 2\n"),
    (b'E', "arc E03 0 19 datum\narc E12 5 9 free\nshort 2\n"),
];

fn is_printed(alloc: Global, system: u8, want: &str) -> Result<bool, AllocError> {
    if !is_system(system) {
        return Ok(false);
    }
    let kept = ArcList::new(vec![in alloc; DATUM, FREE]?);
    let arcs = Arcs { kept, short: 2 };
    let mut out = Vec::new(alloc);
    write_arcs(alloc, &mut out, &arcs, system)?;
    Ok(out.as_slice() == want.as_bytes())
}

#[test]
fn prints_arcs(rt: HostRuntime) {
    for row in PRINTED.iter() {
        assert!(rt; matches!(is_printed(rt.alloc(), row.0, row.1), Ok(true)));
    }
}
