//! Words and the jobs that they ask for, by the rules alone.
use command_words::{File, Job, Part, read_words};
use std::alloc::{AllocError, Global};

pub(crate) fn words_of(alloc: Global, words: &[&str]) -> Result<Vec<String>, AllocError> {
    let mut list = Vec::new(alloc);
    for word in words {
        list.push(String::from_str(alloc, *word)?)?;
    }
    Ok(list)
}

fn part_name(part: Part) -> &'static str {
    match part {
        Part::File(File::Base) => "base",
        Part::File(File::Rover) => "rover",
        Part::File(File::Nav) => "nav",
        Part::Run => "run",
    }
}

// The file or the part, and, of `orbit`, the satellite and the tick.
fn asked(job: &Job) -> (&str, &str, u8, u64) {
    match job {
        Job::Zero { rows } => ("zero", rows.as_str(), 0, 0),
        Job::List { obs } => ("list", obs.as_str(), 0, 0),
        Job::Orbit { nav, sat, tick, .. } => ("orbit", nav.as_str(), *sat, tick.0),
        Job::Check { cert } => ("check", cert.as_str(), 0, 0),
        Job::Residuals { cert } => ("residuals", cert.as_str(), 0, 0),
        Job::Migrate { cert } => ("migrate", cert.as_str(), 0, 0),
        Job::Fix { nav, options, .. } => ("fix", nav.as_str(), 0, options.budget),
        Job::Arcs { nav, options, .. } => ("arcs", nav.as_str(), 0, options.gap),
        Job::Track { nav, options, .. } => ("track", nav.as_str(), 0, options.budget),
        Job::CheckTrack { cert } => ("check-track", cert.as_str(), 0, 0),
        Job::Sim { part, epochs, .. } => ("sim", part_name(*part), 0, *epochs as u64),
    }
}

// The command, the file or the part, and, of `orbit`, the satellite and the tick; of other jobs one of their numbers.
type Asked = (&'static str, &'static str, u8, u64);

static ROWS: [(&[&str], Asked); 29] = [
    (&["zero", "F"], ("zero", "F", 0, 0)),
    (&["zero", "-"], ("zero", "-", 0, 0)),
    (&["zero", ""], ("zero", "", 0, 0)),
    (&["zero", "zero"], ("zero", "zero", 0, 0)),
    (&["zero", "--", "F"], ("zero", "F", 0, 0)),
    (&["zero", "F", "--"], ("zero", "F", 0, 0)),
    (&["zero", "--", "--"], ("zero", "--", 0, 0)),
    (&["zero", "--", "-1"], ("zero", "-1", 0, 0)),
    (&["zero", "--", "--ratio"], ("zero", "--ratio", 0, 0)),
    (&["list", "F"], ("list", "F", 0, 0)),
    (
        &["sim", "base", "4294967295", "3600", "15"],
        ("sim", "base", 0, 3600),
    ),
    (&["check", "F"], ("check", "F", 0, 0)),
    (&["residuals", "F"], ("residuals", "F", 0, 0)),
    (&["migrate", "F"], ("migrate", "F", 0, 0)),
    (&["check-track", "F"], ("check-track", "F", 0, 0)),
    (
        &["track", "--budget=7", "B", "R", "N", "--bands", "125"],
        ("track", "N", 0, 7),
    ),
    (&["fix", "B", "R", "N"], ("fix", "N", 0, 1_000_000)),
    (
        &["fix", "--budget=1", "B", "R", "N", "--ratio", "1000"],
        ("fix", "N", 0, 1),
    ),
    (&["arcs", "B", "R", "N"], ("arcs", "N", 0, 100_000)),
    (&["arcs", "--gap", "0", "B", "R", "N"], ("arcs", "N", 0, 0)),
    (
        &["arcs", "B", "--gap=5000000", "R", "N"],
        ("arcs", "N", 0, 5_000_000),
    ),
    (
        &[
            "arcs",
            "B",
            "R",
            "N",
            "--mask=900",
            "--gap",
            "0007",
            "--jump=1",
            "--count=3600",
        ],
        ("arcs", "N", 0, 7),
    ),
    (
        &[
            "arcs",
            "B",
            "R",
            "--first=19999",
            "--step=1000",
            "--arc=2",
            "--",
            "--gap",
        ],
        ("arcs", "--gap", 0, 100_000),
    ),
    (&["sim", "nav", "0", "1", "04"], ("sim", "nav", 0, 1)),
    (&["sim", "rover", "1", "60", "8"], ("sim", "rover", 0, 60)),
    (&["sim", "run", "1", "60", "8"], ("sim", "run", 0, 60)),
    (&["orbit", "N", "G01", "0"], ("orbit", "N", 1, 0)),
    (
        &["orbit", "--", "N", "G32", "000999999999999999"],
        ("orbit", "N", 32, 999_999_999_999_999),
    ),
    (
        &["orbit", "N", "G10", "999999999999999999"],
        ("orbit", "N", 10, 999_999_999_999_999_999),
    ),
];

// Whether the words ask for this.
fn is_read_as(alloc: Global, words: &[&str], want: Asked) -> Result<bool, AllocError> {
    let list = words_of(alloc, words)?;
    match read_words(alloc, &list) {
        Ok(job) => Ok(asked(&job) == want),
        Err(_) => Ok(false),
    }
}

#[test]
fn reads_jobs(rt: HostRuntime) {
    for row in ROWS.iter() {
        assert!(rt; matches!(is_read_as(rt.alloc(), row.0, row.1), Ok(true)));
    }
}
