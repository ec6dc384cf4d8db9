//! Which fault is reported where several stand together.
use crate::tests::{Case, Fails, USAGE, ended_with, is_so, run_on};
use job_answers::Status;
use std::alloc::{AllocError, Global};

const NO_VERSION: &[u8] = b"refused: F line 1 column 1: version not 2.10 to 2.11 or 3.00 to 3.05\n";

// Which call on the file fails, if any.
static CALLS: [Option<u64>; 5] = [Some(0), Some(1), Some(2), Some(3), None];

// A file of 70,000 bytes is read in two pieces and to its end: its first line is bad, and the second piece can't be read.
fn is_read_first(alloc: Global, call: Option<u64>) -> Result<bool, AllocError> {
    let text = vec![in alloc; b'\n'; 70_000]?;
    let fails = Fails::at(alloc, call, None, None)?;
    let ran = run_on(alloc, &["list", "F"], &text, 1000, fails)?;
    Ok(match call {
        Some(_) => ended_with(&ran, Status::ReadFault, b"", b"read fault: F\n"),
        None => ended_with(&ran, Status::Refused, b"", NO_VERSION),
    })
}

#[test]
fn a_read_fault_comes_before_a_refusal(rt: HostRuntime) {
    for call in CALLS.iter() {
        assert!(rt; matches!(is_read_first(rt.alloc(), *call), Ok(true)));
    }
}

// Out fails from its first call on, which only a verdict makes.
static OUT_FAILS: [Case; 4] = [
    Case {
        command: "fix",
        text: b"x",
        room: 1000,
        fails: [None, Some(0), None],
        status: Status::Usage,
        out: b"",
        err: USAGE,
    },
    Case {
        command: "zero",
        text: b"x",
        room: 1000,
        fails: [None, Some(0), None],
        status: Status::Refused,
        out: b"",
        err: b"refused: F line 1 column 1: bad line\n",
    },
    Case {
        command: "zero",
        text: b"zero 1\nz 1\ndiff 61\n",
        room: 1000,
        fails: [None, Some(0), None],
        status: Status::WriteFault,
        out: b"",
        err: b"write fault\n",
    },
    Case {
        command: "zero",
        text: b"",
        room: 1000,
        fails: [Some(0), Some(0), None],
        status: Status::ReadFault,
        out: b"",
        err: b"read fault: F\n",
    },
];

#[test]
fn a_fault_of_out_takes_the_place_of_a_verdict_alone(rt: HostRuntime) {
    for case in OUT_FAILS.iter() {
        assert!(rt; matches!(is_so(rt.alloc(), case), Ok(true)));
    }
}
