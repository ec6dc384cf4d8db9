//! A certificate that `fix` wrote, changed, and one of version 1.
use crate::old_certificate::old_certificate;
use crate::rows::Ends::{self, Declined, Done, Refused};
use crate::rows::{ends_so, push_lines};
use crate::session_rows::{Text, Wanted};
use crate::session_tests::{FIX, SEED_1, is_certified, is_wanted, run_of};
use crate::session_texts::ROOM;
use crate::tests::{Fails, run_on};
use job_answers::Status;
use std::alloc::{AllocError, Global};
use std::str;

/// What is changed in the certificate of the session of seed 1, which has 562 lines; the pairs begin at line 18, and the sums stand
/// in the line before the last.
#[derive(Clone, Copy)]
enum Change {
    /// The line of this number is another.
    Line(usize, &'static str),
    /// The value of the form at the second vector is greater by 1.
    SecondValue,
}

/// A run of `check` on the changed certificate, and what it ends with.
struct ChangedRow {
    change: Change,
    ends: Ends,
}

static CHANGED_ROWS: [ChangedRow; 7] = [
    ChangedRow {
        change: Change::Line(562, "fixed"),
        ends: Done(&["certified"]),
    },
    ChangedRow {
        change: Change::Line(19, "row 0 17179869185 0 0 0 0 0 0 0 0 0 0"),
        ends: Refused("F line 19 column 7: number out of range"),
    },
    ChangedRow {
        change: Change::Line(562, "fixed\n"),
        ends: Refused("F line 563 column 1: bad line"),
    },
    ChangedRow {
        change: Change::SecondValue,
        ends: Declined(&["not certified tail"]),
    },
    ChangedRow {
        change: Change::Line(562, "declined unseparated"),
        ends: Declined(&["not certified tail"]),
    },
    ChangedRow {
        change: Change::Line(3, "budget 1"),
        ends: Declined(&["not certified spent"]),
    },
    ChangedRow {
        change: Change::Line(2, "ratio 100000"),
        ends: Done(&["certified"]),
    },
];

// The line of the sums with a value at the second vector that is greater by 1.
fn with_greater_value(alloc: Global, line: &str) -> Result<String, AllocError> {
    let value = line.split_whitespace().nth(3).unwrap_or("");
    let greater = value.parse::<u64>().unwrap_or(0).saturating_add(1);
    let Some((before, after)) = line.split_once(value) else {
        return String::from_str(alloc, line);
    };
    format!(in alloc; "{before}{greater}{after}")
}

// Appends the line of that number as the change has it.
fn push_changed(
    alloc: Global,
    out: &mut Vec<u8>,
    number: usize,
    line: &str,
    change: Change,
) -> Result<(), AllocError> {
    match change {
        Change::Line(changed, other) if changed == number => push_lines(out, &[other]),
        Change::SecondValue if line.starts_with("values ") => {
            let greater = with_greater_value(alloc, line)?;
            push_lines(out, &[greater.as_str()])
        }
        _ => push_lines(out, &[line]),
    }
}

fn with_change(alloc: Global, text: &str, change: Change) -> Result<Vec<u8>, AllocError> {
    let mut out = Vec::new(alloc);
    for (before, line) in text.lines().enumerate() {
        push_changed(alloc, &mut out, before.saturating_add(1), line, change)?;
    }
    Ok(out)
}

// Whether `check` ends so on the changed certificate.
fn is_right(alloc: Global, certificate: &[u8], row: &ChangedRow) -> Result<bool, AllocError> {
    let text = str::from_utf8(certificate).unwrap_or("");
    let changed = with_change(alloc, text, row.change)?;
    ends_so(alloc, &["check", "F"], &changed, &row.ends)
}

// The first row whose run ends otherwise.
fn first_fault(alloc: Global, certificate: &[u8]) -> Option<usize> {
    for (at, row) in CHANGED_ROWS.iter().enumerate() {
        if !matches!(is_right(alloc, certificate, row), Ok(true)) {
            return Some(at);
        }
    }
    None
}

// The same of the certificate that `fix` writes.
fn changed_fault(alloc: Global) -> Result<Option<usize>, AllocError> {
    let fixed = run_of(alloc, SEED_1, Text::Base, Text::Rover, FIX)?;
    Ok(first_fault(alloc, fixed.out.bytes()))
}

#[test]
fn changed_certificates(rt: HostRuntime) {
    assert!(rt; matches!(changed_fault(rt.alloc()), Ok(None)));
}

// What becomes of the certificate of version 1, by an independent model.
static LIFTED: Wanted = Wanted::Parts {
    begin: "baseline-cert 2\nratio 2000\n",
    within: &[
        "\nrow 1 -59783 -70334 -80228 -80228 12 -7929348 -9356320 -11448131 9 10 11\n",
        "\nz1 0 0 0 0 0 0 0 0 0 0 0 0 0 0\nz2 -2 -2 0 0 -1 -1 -1 -1 -1 -1 0 0 -1 -1\nmove 1 23 -46\n",
    ],
    end: "\nvalues 44 296613994 29707868888441 4746917\nfixed\n",
};

// Whether `migrate` lifts the certificate of version 1, and `check` certifies what it writes.
fn is_lifted(alloc: Global) -> Result<bool, AllocError> {
    let text = old_certificate(alloc)?;
    let ran = run_on(alloc, &["migrate", "F"], &text, ROOM, Fails::none(alloc))?;
    if ran.status != Status::Done || !is_wanted(ran.out.bytes(), &LIFTED) {
        return Ok(false);
    }
    is_certified(alloc, "check", ran.out.bytes())
}

#[test]
fn lifts_a_certificate_of_version_1(rt: HostRuntime) {
    assert!(rt; matches!(is_lifted(rt.alloc()), Ok(true)));
}
