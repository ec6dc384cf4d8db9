//! The options of the bands and of the system, and satellites of both systems.
use crate::command_words_tests::words_of;
use command_words::{Job, read_words};
use std::alloc::{AllocError, Global};

// The letter of the job's system, and the number of its bands or of its satellite.
fn signals_of(job: &Job) -> (u8, u16) {
    match job {
        Job::Fix { options, .. } | Job::Arcs { options, .. } => (options.system, options.bands),
        Job::Sim { bands, system, .. } => (*system, *bands),
        Job::Orbit { system, sat, .. } => (*system, *sat as u16),
        _ => (0, 0),
    }
}

// Words, and the letter and the number that they ask for.
static ROWS: [(&[&str], (u8, u16)); 15] = [
    (&["fix", "B", "R", "N"], (b'G', 12)),
    (&["fix", "B", "R", "N", "--bands=12"], (b'G', 12)),
    (&["arcs", "--bands", "15", "B", "R", "N"], (b'G', 15)),
    (&["fix", "B", "--bands", "0125", "R", "N"], (b'G', 125)),
    (&["fix", "B", "R", "N", "--system", "G"], (b'G', 12)),
    (
        &["fix", "--system=G", "B", "R", "N", "--bands=125"],
        (b'G', 125),
    ),
    (&["arcs", "--system=E", "B", "R", "N"], (b'E', 15)),
    (
        &["fix", "B", "R", "N", "--system=E", "--bands=15"],
        (b'E', 15),
    ),
    (
        &["fix", "--bands", "15", "B", "R", "N", "--system", "E"],
        (b'E', 15),
    ),
    (&["sim", "run", "1", "60", "8"], (b'G', 12)),
    (&["sim", "--bands=125", "base", "1", "60", "8"], (b'G', 125)),
    (&["sim", "nav", "1", "60", "8", "--system", "E"], (b'E', 15)),
    (&["orbit", "N", "G32", "0"], (b'G', 32)),
    (&["orbit", "N", "E01", "0"], (b'E', 1)),
    (&["orbit", "N", "E36", "0"], (b'E', 36)),
];

// The letter and the number of the job that the words ask for.
fn read_signals(alloc: Global, words: &[&str]) -> Result<Option<(u8, u16)>, AllocError> {
    let list = words_of(alloc, words)?;
    match read_words(alloc, &list) {
        Ok(job) => Ok(Some(signals_of(&job))),
        Err(_) => Ok(None),
    }
}

// Whether the words ask for these.
fn are_read(alloc: Global, words: &[&str], want: (u8, u16)) -> bool {
    match read_signals(alloc, words) {
        Ok(found) => found == Some(want),
        Err(_) => false,
    }
}

#[test]
fn reads_signals(rt: HostRuntime) {
    for row in ROWS.iter() {
        assert!(rt; are_read(rt.alloc(), row.0, row.1));
    }
}
