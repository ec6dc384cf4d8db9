//! Answers that are written, and files that are loaded.
use job_answers::{Status, deliver, load_file};
use line_source::{MemSink, SureFiles};
use std::alloc::{AllocError, Global};

// Whether a verdict is written with both texts.
fn is_written(alloc: Global) -> Result<bool, AllocError> {
    let mut out = MemSink::new(alloc, 100, 3, Vec::new(alloc))?;
    let mut err = MemSink::new(alloc, 100, 3, Vec::new(alloc))?;
    let status = deliver(Status::Done, b"to out", b"to err", &mut out, &mut err);
    let texts = (out.bytes(), err.bytes());
    Ok(status == Status::Done && texts == (b"to out".as_slice(), b"to err".as_slice()))
}

#[test]
fn writes_both_texts(rt: HostRuntime) {
    assert!(rt; matches!(is_written(rt.alloc()), Ok(true)));
}

static WITHOUT_TEXT: [Status; 4] = [
    Status::Usage,
    Status::Refused,
    Status::ReadFault,
    Status::NoMemory,
];

// Whether an empty text for out is written without a call, so that out can't fail beside it.
fn is_left_alone(alloc: Global, status: Status) -> Result<bool, AllocError> {
    let mut out = MemSink::new(alloc, 100, 3, vec![in alloc; 0u64]?)?;
    let mut err = MemSink::new(alloc, 100, 3, Vec::new(alloc))?;
    let found = deliver(status, b"", b"to err", &mut out, &mut err);
    Ok(found == status && err.bytes() == b"to err".as_slice())
}

#[test]
fn leaves_out_alone(rt: HostRuntime) {
    for status in WITHOUT_TEXT.iter() {
        assert!(rt; matches!(is_left_alone(rt.alloc(), *status), Ok(true)));
    }
}

// The length of the file F where none is there.
fn loaded(alloc: Global) -> Option<usize> {
    let mut files = SureFiles::new(Vec::new(alloc));
    match load_file(alloc, &mut files, "F") {
        Ok(text) => Some(text.len()),
        Err(_) => None,
    }
}

#[test]
fn loads_a_file(rt: HostRuntime) {
    assert!(rt; loaded(rt.alloc()) == Some(0));
}

// The numbers that a script sees.
static NUMBERS: [(Status, u8); 7] = [
    (Status::Done, 0),
    (Status::Declined, 1),
    (Status::Usage, 2),
    (Status::Refused, 3),
    (Status::ReadFault, 4),
    (Status::WriteFault, 5),
    (Status::NoMemory, 6),
];

#[test]
fn numbers_each_status(rt: HostRuntime) {
    for row in NUMBERS.iter() {
        assert!(rt; row.0.number() == row.1);
    }
}
