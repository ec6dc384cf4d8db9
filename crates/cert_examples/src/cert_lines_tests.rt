//! Lines of signals, arcs and rows.
use cert_lines::{
    Version, arc_in, push_arc_line, push_signals_line, push_system_line, row_in, signals_in,
    system_in,
};
use obs_rows::{Arc, Signals};
use rinex_head::{Flaw, What};
use std::alloc::{AllocError, Global};

const ON_12: Signals = Signals {
    l1: b'C',
    l2: b'W',
    l5: 0,
};

const ON_15: Signals = Signals {
    l1: b'C',
    l2: 0,
    l5: b'Q',
};

const ON_125: Signals = Signals {
    l1: b'C',
    l2: b'W',
    l5: b'Q',
};

fn flaw(column: u32, what: What) -> Flaw {
    Flaw { column, what }
}

const FREE: Arc = Arc {
    sat: 5,
    first: 0,
    last: 3599,
    datum: false,
    shift: [-7, 1_099_511_627_775, 0],
};

// A line, how many arcs may be free yet and how many are left, and what is wrong with it: from which column on, and how.
static BAD_ARCS: [(&[u8], usize, usize, u32, What); 8] = [
    (b"arc 5 0 0 free 0 0", 20, 1, 1, What::BadLine),
    (b"arc 5 0 0 datum 0 0", 0, 1, 1, What::BadLine),
    (b"arc 5 0 0 Datum 0 0", 1, 2, 1, What::BadLine),
    (b"arc 5 0 0 datum 0", 1, 2, 1, What::BadLine),
    (b"arc 37 9 0 datum 0 0", 1, 2, 5, What::BadRange),
    (b"arc 5 9 8 datum 0 0", 1, 2, 9, What::BadRange),
    (b"arc 5 9 3600 datum 0 0", 1, 2, 9, What::BadRange),
    (b"arc 5 9 9 datum 0 1099511627776", 1, 2, 19, What::BadRange),
];

// Whether an arc's line is refused so.
fn is_refused(line: &[u8], free: usize, left: usize, want: Flaw) -> bool {
    line.len() <= 4096 && arc_in(Version::Two, ON_12, free, left, line) == Err(want)
}

#[test]
fn reads_arcs(rt: HostRuntime) {
    let line = b"arc 5 0 3599 free -7 1099511627775";
    assert!(rt; arc_in(Version::Two, ON_12, 19, 1, line) == Ok(FREE));
    for row in BAD_ARCS.iter() {
        assert!(rt; is_refused(row.0, row.1, row.2, flaw(row.3, row.4)));
    }
}

const LATER: Arc = Arc {
    sat: 5,
    first: 1,
    last: 2,
    datum: true,
    shift: [0, 0, 0],
};

// A line, its pair and the least arc, and from which column on a number is out of range.
static BAD_ROWS: [(&[u8], u32, u32, u32); 5] = [
    (b"row 0 0 0 0 0 0 0 0 0 0 0 0", 0, 0, 5),
    (b"row 0 0 0 0 0 0 0 0 0 0 0 0", 1, 1, 5),
    (b"row 2 0 0 0 0 0 0 0 0 0 0 0", 1, 0, 5),
    (b"row 1 17179869185 0 0 0 0 0 0 0 0 0 0", 1, 0, 7),
    (b"row 1 0 0 0 0 -1 0 0 0 0 0 0", 1, 0, 15),
];

// Whether the line of a row of two arcs has a number out of range there.
fn is_beyond(line: &[u8], pair: u32, least: u32, column: u32) -> bool {
    if line.len() > 4096 {
        return false;
    }
    let found = row_in(ON_12, &[LATER, LATER], pair, least, line);
    found == Err(flaw(column, What::BadRange))
}

#[test]
fn reads_rows(rt: HostRuntime) {
    for row in BAD_ROWS.iter() {
        assert!(rt; is_beyond(row.0, row.1, row.2, row.3));
    }
}

// Whether this is the line of an arc of these signals.
fn is_arc_line(
    alloc: Global,
    signals: Signals,
    shift: [i64; 3],
    want: &[u8],
) -> Result<bool, AllocError> {
    let arc = Arc {
        sat: 5,
        first: 0,
        last: 9,
        datum: false,
        shift,
    };
    let mut out = Vec::new(alloc);
    push_arc_line(&mut out, signals, &arc)?;
    Ok(out.as_slice() == want)
}

#[test]
fn writes_arcs(rt: HostRuntime) {
    let line = b"arc 5 0 9 free -7 0\n";
    assert!(rt; matches!(is_arc_line(rt.alloc(), ON_12, [-7, 0, 0], line), Ok(true)));
}

const GOOD_SIGNALS: [(Version, &[u8], Signals); 4] = [
    (Version::One, b"signals C W", ON_12),
    (Version::Two, b"signals 12 C W", ON_12),
    (Version::Two, b"signals 15 C Q", ON_15),
    (Version::Two, b"signals 125 C W Q", ON_125),
];

static BAD_SIGNALS: [(Version, &[u8]); 7] = [
    (Version::One, b"signals 12 C W"),
    (Version::Two, b"signals C W"),
    (Version::Two, b"signals 12 C Q"),
    (Version::Two, b"signals 15 C W"),
    (Version::Two, b"signals 125 C W"),
    (Version::Two, b"signals 125 C Q W"),
    (Version::Two, b"signals 125 C W Q "),
];

#[test]
fn reads_signals(rt: HostRuntime) {
    for row in GOOD_SIGNALS.iter() {
        assert!(rt; signals_in(row.0, row.1) == Ok(row.2));
    }
    for row in BAD_SIGNALS.iter() {
        assert!(rt; signals_in(row.0, row.1) == Err(flaw(1, What::BadLine)));
    }
    assert!(rt; system_in(b"system E") == Ok(b'E'));
    assert!(rt; system_in(b"system R") == Err(flaw(1, What::BadLine)));
}

const DATUM: Arc = Arc {
    sat: 36,
    first: 0,
    last: 9,
    datum: true,
    shift: [5, 0, -6],
};

// What the line of that arc is read as, or why it isn't.
const READ_DATUMS: [(Version, Signals, Result<Arc, Flaw>); 3] = [
    (Version::Two, ON_15, Ok(DATUM)),
    (
        Version::One,
        ON_12,
        Err(Flaw {
            column: 5,
            what: What::BadRange,
        }),
    ),
    (
        Version::Two,
        ON_125,
        Err(Flaw {
            column: 1,
            what: What::BadLine,
        }),
    ),
];

// Whether the numbers of a row on L1 and L5 stand at their places.
fn has_its_numbers(line: &[u8]) -> bool {
    if line.len() > 4096 {
        return false;
    }
    match row_in(ON_15, &[DATUM], 3, 0, line) {
        Ok(row) => {
            let (y, u, ru) = (row.y, row.u, row.ru);
            (y, row.ry) == ([1, 0, 2, 0, 3, 4], 5) && (u, ru) == ([6, 7, 8], [9, 10, 11])
        }
        Err(_) => false,
    }
}

#[test]
fn reads_other_bands(rt: HostRuntime) {
    for row in READ_DATUMS.iter() {
        assert!(rt; arc_in(row.0, row.1, 1, 1, b"arc 36 0 9 datum 5 -6") == row.2);
    }
    assert!(rt; has_its_numbers(b"row 0 1 2 3 4 5 6 7 8 9 10 11"));
}

// The lines of the signals on L1 and L5, of those on all bands, and of a system.
fn are_signal_lines(alloc: Global) -> Result<bool, AllocError> {
    let mut out = Vec::new(alloc);
    push_signals_line(&mut out, ON_15)?;
    push_signals_line(&mut out, ON_125)?;
    push_system_line(&mut out, b'G')?;
    Ok(out.as_slice() == b"signals 15 C Q\nsignals 125 C W Q\nsystem G\n".as_slice())
}

#[test]
fn writes_other_bands(rt: HostRuntime) {
    let line = b"arc 5 0 9 free -7 8\n";
    assert!(rt; matches!(is_arc_line(rt.alloc(), ON_15, [-7, 0, 8], line), Ok(true)));
    assert!(rt; matches!(are_signal_lines(rt.alloc()), Ok(true)));
}
