//! Runs on texts that are too long to be written out.
use crate::file_rows::{AT_START, GPS_HEADER, HEADER, RECORD_OF_G07};
use crate::rows::Ends::{self, Done, Held, Refused};
use crate::rows::{ends_so, push_lines};
use std::alloc::{AllocError, Global};

/// A text without its last lines.
#[derive(Clone, Copy)]
enum Long {
    /// As many epochs without satellites, one each second.
    Epochs(u32),
    /// As many records of one satellite.
    Records(u32),
    /// One epoch, with a satellite whose line has as many bytes and is blank past its name.
    Line(usize),
}

/// A run on the file F, and what it ends with.
struct LongRow {
    words: &'static [&'static str],
    long: Long,
    /// The last lines of F.
    lines: &'static [&'static str],
    ends: Ends,
}

static LONG_ROWS: [LongRow; 8] = [
    LongRow {
        words: &["list", "F"],
        long: Long::Epochs(26),
        lines: &["> 2024 01 01 00 00 59.0000000  2  0"],
        ends: Refused("F line 31 column 32: antenna moved"),
    },
    LongRow {
        words: &["list", "F"],
        long: Long::Epochs(33),
        lines: &["> 2024 01 01 00 00 59.0000000  0  3", "G01", "G02"],
        ends: Refused("F line 41 column 1: file ends early"),
    },
    LongRow {
        words: &["list", "F"],
        long: Long::Epochs(20_000),
        lines: &[],
        ends: Done(&[
            "version 3.04",
            "epochs 20000",
            "first 13881024000000000",
            "last 13881223990000000",
        ]),
    },
    LongRow {
        words: &["list", "F"],
        long: Long::Epochs(20_001),
        lines: &[],
        ends: Refused("F line 20005 column 1: too many epochs or records"),
    },
    LongRow {
        words: &["list", "F"],
        long: Long::Line(4096),
        lines: &[],
        ends: Done(&[
            "version 3.04",
            "epochs 1",
            "first 13881024000000000",
            "last 13881024000000000",
            "G05 1",
        ]),
    },
    LongRow {
        words: &["list", "F"],
        long: Long::Line(4097),
        lines: &[],
        ends: Refused("F line 6 column 1: line too long"),
    },
    LongRow {
        words: &["orbit", "F", "G07", "13880160000000000"],
        long: Long::Records(4096),
        lines: &[],
        ends: Held(&AT_START),
    },
    LongRow {
        words: &["orbit", "F", "G07", "13880160000000000"],
        long: Long::Records(4096),
        lines: &[
            "R01 2024 01 01 00 00 00 anything",
            "G99 and anything behind it",
        ],
        ends: Refused("F line 32772 column 1: too many epochs or records"),
    },
];

fn push_epoch(alloc: Global, text: &mut Vec<u8>, second: u32) -> Result<(), AllocError> {
    let (hour, minute) = (second / 3600, second / 60 % 60);
    let line = format!(in alloc;
        "> 2024 01 01 {hour:02} {minute:02} {:02}.0000000  0  0\n",
        second % 60
    )?;
    text.extend_from_slice(line.as_bytes())
}

fn push_epochs(alloc: Global, text: &mut Vec<u8>, epochs: u32) -> Result<(), AllocError> {
    push_lines(text, &HEADER)?;
    for second in 0..epochs {
        push_epoch(alloc, text, second)?;
    }
    Ok(())
}

fn push_records(text: &mut Vec<u8>, records: u32) -> Result<(), AllocError> {
    push_lines(text, &GPS_HEADER)?;
    for _ in 0..records {
        push_lines(text, &RECORD_OF_G07)?;
    }
    Ok(())
}

fn push_wide(text: &mut Vec<u8>, width: usize) -> Result<(), AllocError> {
    push_lines(text, &HEADER)?;
    text.extend_from_slice(b"> 2024 01 01 00 00  0.0000000  0  1\nG05")?;
    for _ in 3..width {
        text.push(b' ')?;
    }
    text.push(b'\n')?;
    Ok(())
}

fn text_of(alloc: Global, row: &LongRow) -> Result<Vec<u8>, AllocError> {
    let mut text = Vec::new(alloc);
    match row.long {
        Long::Epochs(epochs) => push_epochs(alloc, &mut text, epochs)?,
        Long::Records(records) => push_records(&mut text, records)?,
        Long::Line(width) => push_wide(&mut text, width)?,
    }
    push_lines(&mut text, row.lines)?;
    Ok(text)
}

fn is_right(alloc: Global, row: &LongRow) -> Result<bool, AllocError> {
    let text = text_of(alloc, row)?;
    ends_so(alloc, row.words, &text, &row.ends)
}

// The first row whose run ends otherwise.
fn first_fault(alloc: Global) -> Option<usize> {
    for (at, row) in LONG_ROWS.iter().enumerate() {
        if !matches!(is_right(alloc, row), Ok(true)) {
            return Some(at);
        }
    }
    None
}

#[test]
fn long_texts(rt: HostRuntime) {
    assert_eq!(rt; first_fault(rt.alloc()), None);
}
