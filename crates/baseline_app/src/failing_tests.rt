//! A run of `fix` on a simulated session, each of whose calls on the world fails once.
use crate::tests::{Fails, Ran, ended_with, named, run_over};
use job_answers::Status;
use line_source::MemFiles;
use sim_session::{Made, make};
use std::alloc::{AllocError, Global};

const ROOM: usize = 8_000_000;

// A run of `fix` on the three texts, by sinks that take 4,096 bytes a call.
fn run_fix(alloc: Global, made: &Made, room: usize, fails: Fails) -> Result<Ran, AllocError> {
    let words = ["fix", "B", "R", "N"];
    let list = vec![in alloc;
        named(alloc, "B", &made.base)?,
        named(alloc, "R", &made.rover)?,
        named(alloc, "N", &made.nav)?,
    ]?;
    let mut files = MemFiles::new(list, fails.files);
    run_over(alloc, &words, &mut files, room, 4096, fails.out, fails.err)
}

// The name in the line about a read fault, as its place in the words, or 3 for any other text.
fn reported_name(err: &[u8]) -> usize {
    [
        b"read fault: B\n".as_slice(),
        b"read fault: R\n",
        b"read fault: N\n",
    ]
    .iter()
    .position(|line| *line == err)
    .unwrap_or(3)
}

// The run of which that call on the files fails.
fn run_failing_at(alloc: Global, made: &Made, call: u64) -> Result<Ran, AllocError> {
    run_fix(alloc, made, ROOM, Fails::at(alloc, Some(call), None, None)?)
}

// Of the calls on the files, which name is reported as the first fails, and so on, up to the run in which none does.
fn reported_names(alloc: Global, made: &Made) -> Result<Vec<usize>, AllocError> {
    let mut names = Vec::new(alloc);
    for call in 0..200 {
        let ran = run_failing_at(alloc, made, call)?;
        if ran.status == Status::Done {
            break;
        }
        let is_fault = ran.status == Status::ReadFault && ran.out.bytes().is_empty();
        names.push(if is_fault {
            reported_name(ran.err.bytes())
        } else {
            3
        })?;
    }
    Ok(names)
}

// How often a name is reported.
fn times(names: &[usize], name: usize) -> usize {
    names.iter().filter(|at| **at == name).count()
}

// Whether they are in the order of the words, and each stands there once at least for its opening, for its bytes and for its end.
fn are_in_turn(names: &[usize]) -> bool {
    names.is_sorted()
        && (0..3).all(|name| times(names, name) >= 3)
        && names.iter().all(|name| *name < 3)
}

// The run of which no call fails.
fn whole_run(alloc: Global, made: &Made) -> Result<Ran, AllocError> {
    run_fix(alloc, made, ROOM, Fails::none(alloc))
}

// Whether the run of which that call is to fail ends as if none failed.
fn is_whole_at(alloc: Global, made: &Made, call: u64) -> Result<bool, AllocError> {
    let whole = whole_run(alloc, made)?;
    let ran = run_failing_at(alloc, made, call)?;
    let is_same = ended_with(&ran, Status::Done, whole.out.bytes(), whole.err.bytes());
    Ok(whole.status == Status::Done && is_same)
}

// Whether each file is opened and read in turn, so that the calls that fail name B, then R, then N, until no call is left.
fn fails_in_turn(alloc: Global) -> Result<bool, AllocError> {
    let made = make(alloc, 1, 60, 8, 12, b'G')?;
    let names = reported_names(alloc, &made)?;
    Ok(are_in_turn(&names) && is_whole_at(alloc, &made, names.len() as u64)?)
}

#[test]
fn each_call_on_the_files_fails(rt: HostRuntime) {
    assert!(rt; matches!(fails_in_turn(rt.alloc()), Ok(true)));
}

/// Sinks that fail, and what the run ends with.
#[derive(Drop)]
struct SinkRow<'a> {
    /// The room for out.
    room: usize,
    /// The calls of out and of err that fail.
    out: Option<u64>,
    err: Option<u64>,
    status: Status,
    /// How much of the text is written, and what is reported.
    written: usize,
    reports: &'a [u8],
}

const WRITE_FAULT: &[u8] = b"write fault\n";

// Out without room for more than this much.
fn without_room(room: usize) -> SinkRow<'static> {
    SinkRow {
        room,
        out: None,
        err: None,
        status: Status::WriteFault,
        written: room,
        reports: WRITE_FAULT,
    }
}

// Of a run with this text and these reports. The last row's calls are never made.
fn sink_rows<'a>(text: &[u8], reports: &'a [u8]) -> [SinkRow<'a>; 6] {
    [
        without_room(7),
        without_room(100),
        without_room(4096),
        SinkRow {
            room: ROOM,
            out: Some(0),
            err: None,
            status: Status::WriteFault,
            written: 0,
            reports: WRITE_FAULT,
        },
        SinkRow {
            room: ROOM,
            out: None,
            err: Some(0),
            status: Status::WriteFault,
            written: text.len(),
            reports: b"",
        },
        SinkRow {
            room: ROOM,
            out: Some(text.len() as u64),
            err: Some(1),
            status: Status::Done,
            written: text.len(),
            reports,
        },
    ]
}

fn ends_so(alloc: Global, made: &Made, text: &[u8], row: &SinkRow<'_>) -> Result<bool, AllocError> {
    let fails = Fails::at(alloc, None, row.out, row.err)?;
    let ran = run_fix(alloc, made, row.room, fails)?;
    match text.get(..row.written) {
        Some(written) => Ok(ended_with(&ran, row.status, written, row.reports)),
        None => Ok(false),
    }
}

// The first row whose run ends otherwise.
fn first_fault(alloc: Global, made: &Made, whole: &Ran) -> Option<usize> {
    let text = whole.out.bytes();
    for (at, row) in sink_rows(text, whole.err.bytes()).iter().enumerate() {
        if !matches!(ends_so(alloc, made, text, row), Ok(true)) {
            return Some(at);
        }
    }
    None
}

fn sink_fault(alloc: Global) -> Result<Option<usize>, AllocError> {
    let made = make(alloc, 1, 60, 8, 12, b'G')?;
    let whole = whole_run(alloc, &made)?;
    Ok(first_fault(alloc, &made, &whole))
}

#[test]
fn each_sink_fails(rt: HostRuntime) {
    assert!(rt; matches!(sink_fault(rt.alloc()), Ok(None)));
}
