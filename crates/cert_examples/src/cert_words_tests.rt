//! Numbers, ranges and lines of a certificate.
use cert_words::{Number, Range, all_within, numbers_behind, push_number, push_numbers};
use line_source::Lines;
use rinex_head::{Flaw, What, next_line};
use std::alloc::{AllocError, Global};

static NUMBERS: [Number; 3] = [
    Number {
        column: 5,
        value: 0,
    },
    Number {
        column: 7,
        value: -17,
    },
    Number {
        column: 11,
        value: 1 << 126,
    },
];

// Lines that haven't three numbers behind their word.
static BAD_LINES: [&[u8]; 10] = [
    b"row 0 -17",
    b"row 0 -17 5 6",
    b"row 0 -17 5 ",
    b"row 0  17 5",
    b" row 0 17 5",
    b"row 0 +17 5",
    b"row 0 017 5",
    b"row 0 -0 5",
    b"rows 0 17 5",
    b"row 0 17 5\r",
];

// Whether the line has these three numbers behind its word.
fn has_numbers(line: &[u8], want: &[Number]) -> bool {
    if line.len() > 4096 {
        return false;
    }
    match numbers_behind(b"row", 3, line) {
        Ok(numbers) => numbers.as_slice() == want,
        Err(_) => false,
    }
}

fn is_bad(line: &[u8]) -> bool {
    line.len() <= 4096 && numbers_behind(b"row", 3, line).is_err()
}

#[test]
fn reads_numbers(rt: HostRuntime) {
    let line = b"row 0 -17 85070591730234615865843651857942052864";
    assert!(rt; has_numbers(line, &NUMBERS));
    for line in BAD_LINES.iter() {
        assert!(rt; is_bad(*line));
    }
}

const FIVE_LESS: Number = Number {
    column: 9,
    value: -5,
};

const BEYOND: Flaw = Flaw {
    column: 9,
    what: What::BadRange,
};

const NINE: Number = Number {
    column: 1,
    value: 9,
};

const TEN: Number = Number {
    column: 3,
    value: 10,
};

const AT_TEN: Flaw = Flaw {
    column: 3,
    what: What::BadRange,
};

// From 0 to 9.
const DIGITS: Range = Range { low: 0, high: 9 };

#[test]
fn keeps_ranges(rt: HostRuntime) {
    let (from, above) = (Range { low: -5, high: 5 }, Range { low: -4, high: 5 });
    assert!(rt; FIVE_LESS.natural(0, 9) == Err(BEYOND));
    assert!(rt; FIVE_LESS.within_range(&from) == Ok(-5));
    assert!(rt; FIVE_LESS.within_range(&above) == Err(BEYOND));
    assert!(rt; all_within::<3>(&DIGITS, &[NINE, NINE]) == Ok([9, 9, 0]));
    assert!(rt; all_within::<3>(&DIGITS, &[NINE, TEN, FIVE_LESS]) == Err(AT_TEN));
}

// Whether this is the next line.
fn is_next(lines: &mut Lines<'_>, want: &[u8]) -> bool {
    match next_line(lines, What::BadLine) {
        Ok(line) => line.bytes == want,
        Err(_) => false,
    }
}

#[test]
fn gives_lines(rt: HostRuntime) {
    let mut lines = Lines::strict(b"one\r\n\ntwo");
    assert!(rt; is_next(&mut lines, b"one\r"));
    assert!(rt; is_next(&mut lines, b""));
    assert!(rt; is_next(&mut lines, b"\n"));
    assert!(rt; lines.next_number() == 4);
    assert!(rt; next_line(&mut lines, What::BadLine).is_err());
}

fn are_written(alloc: Global) -> Result<bool, AllocError> {
    let mut out = b"row".to_vec(alloc)?;
    push_number(&mut out, 1i128 << 90)?;
    push_numbers(&mut out, &[0, -7, i64::MIN])?;
    let want = b"row 1237940039285380274899124224 0 -7 -9223372036854775808";
    Ok(out.as_slice() == want.as_slice())
}

#[test]
fn writes_numbers(rt: HostRuntime) {
    assert!(rt; matches!(are_written(rt.alloc()), Ok(true)));
}
