//! Whole files, sinks and the lines of a text.
use line_source::{
    Failed, FileId, Files, HostFiles, HostSink, Lines, LoadFault, MemFiles, MemSink, Named,
    SureFiles, SureSink, WriteFault, load, put_all,
};
use std::alloc::{AllocError, Global};
use std::fs;
use std::test::Fail;

fn named(alloc: Global, name: &str, bytes: &[u8]) -> Result<Named, AllocError> {
    Ok(Named {
        name: String::from_str(alloc, name)?,
        bytes: bytes.to_vec(alloc)?,
        at: 0,
    })
}

fn two_files(alloc: Global) -> Result<MemFiles, AllocError> {
    let one = named(alloc, "a", b"one")?;
    let two = named(alloc, "b", b"two")?;
    Ok(MemFiles::new(vec![in alloc; one, two]?, Vec::new(alloc)))
}

// Whether the whole file of that name is loaded as these bytes.
fn loads<F: Files>(alloc: Global, files: &mut F, name: &str, bytes: &[u8]) -> bool {
    match load(alloc, files, name) {
        Ok(text) => text.as_slice() == bytes,
        Err(_) => false,
    }
}

fn is_unread<F: Files>(alloc: Global, files: &mut F, name: &str) -> bool {
    matches!(load(alloc, files, name), Err(LoadFault::ReadFault))
}

#[test]
fn loads_whole_files(rt: HostRuntime) -> Result<(), AllocError> {
    let mut files = two_files(rt.alloc())?;
    for _ in 0..2 {
        assert!(rt; loads(rt.alloc(), &mut files, "b", b"two"));
    }
    assert!(rt; is_unread(rt.alloc(), &mut files, "c"));
    Ok(())
}

// One file, where that call fails.
fn failing_at(alloc: Global, call: u64) -> Result<MemFiles, AllocError> {
    let list = vec![in alloc; named(alloc, "a", b"one")?]?;
    Ok(MemFiles::new(list, vec![in alloc; call]?))
}

#[test]
fn fails_at_the_listed_call(rt: HostRuntime) -> Result<(), AllocError> {
    // one file is opened, read, and read to its end: three calls
    for call in 0..3 {
        assert!(rt; is_unread(rt.alloc(), &mut failing_at(rt.alloc(), call)?, "a"));
    }
    assert!(rt; loads(rt.alloc(), &mut failing_at(rt.alloc(), 3)?, "a", b"one"));
    Ok(())
}

#[test]
fn sure_files_are_empty_elsewhere(rt: HostRuntime) -> Result<(), AllocError> {
    let alloc = rt.alloc();
    let mut files = SureFiles::new(vec![in alloc; named(alloc, "a", b"one")?]?);
    assert!(rt; loads(alloc, &mut files, "a", b"one"));
    assert!(rt; loads(alloc, &mut files, "b", b""));
    Ok(())
}

#[test]
fn reads_host_files(rt: HostRuntime) -> Result<(), Fail> {
    fs::write(&rt, "here", "text")?;
    let mut files = HostFiles::new(rt);
    assert!(rt; loads(rt.alloc(), &mut files, "here", b"text"));
    assert!(rt; is_unread(rt.alloc(), &mut files, "not here"));
    Ok(())
}

#[test]
fn tells_host_names_apart(rt: HostRuntime) -> Result<(), Fail> {
    fs::write(&rt, "x", "one")?;
    fs::write(&rt, "x ", "two")?;
    let mut files = HostFiles::new(rt);
    assert!(rt; loads(rt.alloc(), &mut files, "x ", b"two"));
    assert!(rt; loads(rt.alloc(), &mut files, "x", b"one"));
    Ok(())
}

// The numbers 0 to 250 again and again.
fn many_bytes(alloc: Global, count: usize) -> Result<Vec<u8>, AllocError> {
    let mut bytes = vec![in alloc; 0u8; count]?;
    for (i, byte) in bytes.iter_mut().enumerate() {
        *byte = (i % 251) as u8;
    }
    Ok(bytes)
}

// Adds the whole file to the bytes, in slices of the piece's length; false where a call fails or the file has no end.
fn read_by<F: Files>(
    files: &mut F,
    id: FileId,
    piece: &mut [u8],
    bytes: &mut Vec<u8>,
) -> Result<bool, AllocError> {
    for _ in 0..10_000 {
        match files.read(id, piece) {
            Ok(0) => return Ok(true),
            Ok(count) => bytes.extend_from_slice(&piece[..count])?,
            Err(Failed) => return Ok(false),
        }
    }
    Ok(false)
}

// Whether the file "odd" is these bytes in slices of that length.
fn is_read_by<F: Files>(
    alloc: Global,
    files: &mut F,
    most: usize,
    want: &[u8],
) -> Result<bool, Fail> {
    let id = files.open_file("odd")?;
    let mut piece = vec![in alloc; 0u8; most]?;
    let mut bytes = Vec::new(alloc);
    Ok(read_by(files, id, &mut piece, &mut bytes)? && bytes.as_slice() == want)
}

#[test]
fn reads_host_files_in_any_pieces(rt: HostRuntime) -> Result<(), Fail> {
    let text = many_bytes(rt.alloc(), 9_001)?;
    fs::write(&rt, "odd", text.as_slice())?;
    let mut files = HostFiles::new(rt);
    for most in [1, 3, 4_095, 4_097, 9_001, 10_000] {
        assert!(rt; is_read_by(rt.alloc(), &mut files, most, &text)?);
    }
    Ok(())
}

#[test]
fn writes_much_to_a_host_file(rt: HostRuntime) -> Result<(), Fail> {
    let text = many_bytes(rt.alloc(), 2_097_152)?;
    let mut sink = HostSink::new(fs::create(&rt, "much")?);
    assert!(rt; put_all(&mut sink, &text).is_ok());
    assert!(rt; loads(rt.alloc(), &mut HostFiles::new(rt), "much", &text));
    Ok(())
}

#[test]
fn writes_to_sinks(rt: HostRuntime) -> Result<(), AllocError> {
    let alloc = rt.alloc();
    let mut sink = MemSink::new(alloc, 5, 2, Vec::new(alloc))?;
    assert!(rt; put_all(&mut sink, b"abcd").is_ok());
    assert!(rt; put_all(&mut sink, b"ef") == Err(WriteFault));
    assert!(rt; sink.bytes() == b"abcde".as_slice());
    assert!(rt; put_all(&mut SureSink::new(), b"abcd").is_ok());
    assert!(rt; put_all(&mut HostSink::new(rt.stdout()), b"text\n").is_ok());
    Ok(())
}

fn is_next(lines: &mut Lines<'_>, want: &str) -> bool {
    match lines.next() {
        Some(Ok(line)) => line.bytes == want.as_bytes(),
        _ => false,
    }
}

#[test]
fn gives_lines(rt: HostRuntime) {
    let mut lines = Lines::new(b"ab\r\n\nc\r");
    for want in ["ab", "", "c\r"] {
        assert!(rt; is_next(&mut lines, want));
    }
    assert!(rt; lines.next().is_none());
}
