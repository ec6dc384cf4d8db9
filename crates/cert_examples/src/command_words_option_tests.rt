//! Each option of `fix` in both forms and in each place.
use crate::command_words_tests::words_of;
use command_words::{Job, read_words};
use std::alloc::{AllocError, Global};

// The numbers of a job with options, in the order of their table.
fn numbers_of(job: &Job) -> [u64; 9] {
    match job {
        Job::Fix { options, .. } | Job::Arcs { options, .. } => [
            options.ratio as u64,
            options.budget,
            options.mask as u64,
            options.gap,
            options.jump as u64,
            options.arc as u64,
            options.step as u64,
            options.first as u64,
            options.count as u64,
        ],
        _ => [0; 9],
    }
}

// The numbers of the table with the one at this place set.
fn with(place: usize, number: u64) -> [u64; 9] {
    let mut numbers = [2_000, 1_000_000, 200, 100_000, 12, 5, 1, 0, 3_600];
    if place < 9 {
        numbers[place] = number;
    }
    numbers
}

// Words, and the number that they set at its place in the table; at place 9 there is none.
static ROWS: [(&[&str], usize, u64); 29] = [
    (&["fix", "B", "R", "N"], 9, 0),
    (&["arcs", "B", "R", "N"], 9, 0),
    (&["fix", "--ratio", "1000", "B", "R", "N"], 0, 1_000),
    (&["fix", "B", "--ratio", "1000", "R", "N"], 0, 1_000),
    (&["fix", "B", "R", "--ratio", "1000", "N"], 0, 1_000),
    (&["fix", "B", "R", "N", "--ratio", "1000"], 0, 1_000),
    (&["fix", "--ratio=100000", "B", "R", "N"], 0, 100_000),
    (&["fix", "B", "--ratio=100000", "R", "N"], 0, 100_000),
    (&["fix", "B", "R", "--ratio=100000", "N"], 0, 100_000),
    (&["fix", "B", "R", "N", "--ratio=100000"], 0, 100_000),
    (&["fix", "B", "R", "N", "--ratio", "0002000"], 0, 2_000),
    (&["fix", "--budget", "1", "B", "R", "N"], 1, 1),
    (
        &["fix", "B", "R", "N", "--budget=100000000"],
        1,
        100_000_000,
    ),
    (&["fix", "B", "--mask", "0", "R", "N"], 2, 0),
    (&["arcs", "B", "R", "N", "--mask=900"], 2, 900),
    (&["fix", "--gap", "0", "B", "R", "N"], 3, 0),
    (&["arcs", "B", "R", "--gap=5000000", "N"], 3, 5_000_000),
    (&["fix", "B", "R", "--jump", "1", "N"], 4, 1),
    (&["arcs", "--jump=1000", "B", "R", "N"], 4, 1_000),
    (&["fix", "B", "R", "N", "--arc", "2"], 5, 2),
    (&["arcs", "B", "--arc=3600", "R", "N"], 5, 3_600),
    (&["fix", "--step", "1000", "B", "R", "N"], 6, 1_000),
    (&["arcs", "B", "R", "N", "--step=1"], 6, 1),
    (&["fix", "B", "--first", "19999", "R", "N"], 7, 19_999),
    (&["arcs", "B", "R", "--first=0", "N"], 7, 0),
    (&["fix", "B", "R", "--count", "1", "N"], 8, 1),
    (&["arcs", "--count=3600", "B", "R", "N"], 8, 3_600),
    (
        &["fix", "--ratio=1000", "--", "-1", "--ratio", "-"],
        0,
        1_000,
    ),
    (&["fix", "-", "fix", "arcs"], 9, 0),
];

// The numbers of the job that the words ask for.
fn read_numbers(alloc: Global, words: &[&str]) -> Result<Option<[u64; 9]>, AllocError> {
    let list = words_of(alloc, words)?;
    match read_words(alloc, &list) {
        Ok(job) => Ok(Some(numbers_of(&job))),
        Err(_) => Ok(None),
    }
}

// Whether the words set this number at its place alone.
fn is_set(alloc: Global, words: &[&str], place: usize, number: u64) -> bool {
    match read_numbers(alloc, words) {
        Ok(found) => found == Some(with(place, number)),
        Err(_) => false,
    }
}

#[test]
fn reads_each_option(rt: HostRuntime) {
    for row in ROWS.iter() {
        assert!(rt; is_set(rt.alloc(), row.0, row.1, row.2));
    }
}
