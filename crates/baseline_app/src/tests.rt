//! Runs over files and sinks in memory: what no case of `cases/` shows. Expected texts are worked out by hand.
ghost use Rattle.std.specs.Prelude.{◌<◌};

use crate::top::run;
use job_answers::Status;
use line_source::{Files, MemFiles, MemSink, Named, load};
use std::alloc::{AllocError, Global};

pub(crate) const USAGE: &[u8] =
    b"usage: baseline fix|check|residuals|zero|list|orbit|arcs|sim|migrate|track|check-track WORDS\n";

#[derive(Drop)]
pub(crate) struct Ran {
    pub(crate) status: Status,
    pub(crate) out: MemSink,
    pub(crate) err: MemSink,
}

// The calls that are to fail: of the files, of out, of err.
#[derive(Drop)]
pub(crate) struct Fails {
    pub(crate) files: Vec<u64>,
    pub(crate) out: Vec<u64>,
    pub(crate) err: Vec<u64>,
}

impl Fails {
    pub(crate) fn none(alloc: Global) -> Fails {
        Fails {
            files: Vec::new(alloc),
            out: Vec::new(alloc),
            err: Vec::new(alloc),
        }
    }

    // One call of each at most.
    pub(crate) fn at(
        alloc: Global,
        files: Option<u64>,
        out: Option<u64>,
        err: Option<u64>,
    ) -> Result<Fails, AllocError> {
        Ok(Fails {
            files: calls_of(alloc, files)?,
            out: calls_of(alloc, out)?,
            err: calls_of(alloc, err)?,
        })
    }
}

fn calls_of(alloc: Global, call: Option<u64>) -> Result<Vec<u64>, AllocError> {
    let mut calls = Vec::new(alloc);
    if let Some(call) = call {
        calls.push(call)?;
    }
    Ok(calls)
}

pub(crate) fn words_of(alloc: Global, words: &[&str]) -> Result<Vec<String>, AllocError> {
    let mut list = Vec::new(alloc);
    for word in words {
        list.push(String::from_str(alloc, *word)?)?;
    }
    Ok(list)
}

// A file of this name.
pub(crate) fn named(alloc: Global, name: &str, text: &[u8]) -> Result<Named, AllocError> {
    Ok(Named {
        name: String::from_str(alloc, name)?,
        bytes: text.to_vec(alloc)?,
        at: 0,
    })
}

// One file.
fn files_of(
    alloc: Global,
    name: &str,
    text: &[u8],
    fails: Vec<u64>,
) -> Result<MemFiles, AllocError> {
    let list = vec![in alloc; named(alloc, name, text)?]?;
    Ok(MemFiles::new(list, fails))
}

// The run of each test, with `room` bytes for out, by sinks that take at most `most` bytes a call.
pub(crate) fn run_over<F: Files>(
    alloc: Global,
    words: &[&str],
    files: &mut F,
    room: usize,
    most: usize,
    out_fails: Vec<u64>,
    err_fails: Vec<u64>,
) -> Result<Ran, AllocError>
    requires { 0 < most }
{
    let words = words_of(alloc, words)?;
    let mut out = MemSink::new(alloc, room, most, out_fails)?;
    let mut err = MemSink::new(alloc, 8_000, most, err_fails)?;
    let status = run(alloc, &words, files, &mut out, &mut err);
    Ok(Ran { status, out, err })
}

// A run on the file F, by sinks that take 7 bytes a call.
pub(crate) fn run_on(
    alloc: Global,
    words: &[&str],
    text: &[u8],
    room: usize,
    fails: Fails,
) -> Result<Ran, AllocError> {
    let mut files = files_of(alloc, "F", text, fails.files)?;
    run_over(alloc, words, &mut files, room, 7, fails.out, fails.err)
}

// Whether a run ended with this status, and wrote these texts.
pub(crate) fn ended_with(ran: &Ran, status: Status, out: &[u8], err: &[u8]) -> bool {
    ran.status == status && ran.out.bytes() == out && ran.err.bytes() == err
}

// A run on the file F: the command, the text, the room for out, the calls of the files, of out and of err that fail, and what comes
// of it.
pub(crate) struct Case {
    pub(crate) command: &'static str,
    pub(crate) text: &'static [u8],
    pub(crate) room: usize,
    pub(crate) fails: [Option<u64>; 3],
    pub(crate) status: Status,
    pub(crate) out: &'static [u8],
    pub(crate) err: &'static [u8],
}

// Whether the run of a case ends as it says.
pub(crate) fn is_so(alloc: Global, case: &Case) -> Result<bool, AllocError> {
    let [files, out, err] = case.fails;
    let fails = Fails::at(alloc, files, out, err)?;
    let ran = run_on(alloc, &[case.command, "F"], case.text, case.room, fails)?;
    Ok(ended_with(&ran, case.status, case.out, case.err))
}

static WRONG_WORDS: [&[&str]; 3] = [&["zero", "F", "F"], &["zero"], &["fix", "a", "b"]];

// Whether the words are told to be wrong before any call on the files, the first of which fails and is still to come.
fn opens_no_file(alloc: Global, words: &[&str]) -> Result<bool, AllocError> {
    let mut files = files_of(alloc, "F", b"", vec![in alloc; 0]?)?;
    let ran = run_over(
        alloc,
        words,
        &mut files,
        1000,
        7,
        Vec::new(alloc),
        Vec::new(alloc),
    )?;
    let is_told = ended_with(&ran, Status::Usage, b"", USAGE);
    Ok(is_told && load(alloc, &mut files, "F").is_err())
}

#[test]
fn wrong_words_open_no_file(rt: HostRuntime) {
    for words in WRONG_WORDS.iter() {
        assert!(rt; matches!(opens_no_file(rt.alloc(), *words), Ok(true)));
    }
}

// Whether the line about a file without a name is the one of any file.
fn is_reported(alloc: Global) -> Result<bool, AllocError> {
    let mut files = files_of(alloc, "", b"zero 1\nz 2\n", Vec::new(alloc))?;
    let ran = run_over(
        alloc,
        &["zero", ""],
        &mut files,
        1000,
        7,
        Vec::new(alloc),
        Vec::new(alloc),
    )?;
    let line = b"refused:  line 3 column 1: bad line\n";
    Ok(ended_with(&ran, Status::Refused, b"", line))
}

#[test]
fn an_empty_name_is_reported(rt: HostRuntime) {
    assert!(rt; matches!(is_reported(rt.alloc()), Ok(true)));
}

const ROWS: &[u8] = b"zero 1\nz 1\ndiff 61\ndiff 59\ndiff 63\n";

// The file is opened, read, and read to its end.
static FILE_CALLS: [Case; 4] = [
    Case {
        command: "zero",
        text: ROWS,
        room: 1000,
        fails: [Some(0), None, None],
        status: Status::ReadFault,
        out: b"",
        err: b"read fault: F\n",
    },
    Case {
        command: "zero",
        text: ROWS,
        room: 1000,
        fails: [Some(1), None, None],
        status: Status::ReadFault,
        out: b"",
        err: b"read fault: F\n",
    },
    Case {
        command: "zero",
        text: ROWS,
        room: 1000,
        fails: [Some(2), None, None],
        status: Status::ReadFault,
        out: b"",
        err: b"read fault: F\n",
    },
    Case {
        command: "zero",
        text: ROWS,
        room: 1000,
        fails: [Some(3), None, None],
        status: Status::Done,
        out: b"optimal 1 sum 11\n",
        err: b"",
    },
];

#[test]
fn each_call_on_the_files_fails(rt: HostRuntime) {
    for case in FILE_CALLS.iter() {
        assert!(rt; matches!(is_so(rt.alloc(), case), Ok(true)));
    }
}

static SINK_CALLS: [Case; 5] = [
    Case {
        command: "zero",
        text: ROWS,
        room: 1000,
        fails: [None, Some(0), None],
        status: Status::WriteFault,
        out: b"",
        err: b"write fault\n",
    },
    Case {
        command: "zero",
        text: ROWS,
        room: 1000,
        fails: [None, Some(1), None],
        status: Status::WriteFault,
        out: b"optimal",
        err: b"write fault\n",
    },
    Case {
        command: "zero",
        text: ROWS,
        room: 1000,
        fails: [None, Some(2), None],
        status: Status::WriteFault,
        out: b"optimal 1 sum ",
        err: b"write fault\n",
    },
    Case {
        command: "zero",
        text: ROWS,
        room: 10,
        fails: [None; 3],
        status: Status::WriteFault,
        out: b"optimal 1 ",
        err: b"write fault\n",
    },
    Case {
        command: "zero",
        text: b"",
        room: 1000,
        fails: [None, None, Some(1)],
        status: Status::Refused,
        out: b"",
        err: b"refused",
    },
];

#[test]
fn each_call_on_a_sink_fails(rt: HostRuntime) {
    for case in SINK_CALLS.iter() {
        assert!(rt; matches!(is_so(rt.alloc(), case), Ok(true)));
    }
}
