//! Reads a job from the words of the command line, and does it. `main` hands the system's words, files and streams to
//! `start_on_host`, which gives the number of the status of `run`. Its contract says all that is proved of the program, of the
//! bytes that its calls gave and took; what `main` does with the system is outside of it.
//!
//! A run answers words and bytes: the words ask for one job or for none, the job ends in a status and two texts that are
//! definitions on the bytes of its files, and each sink gains a first part of its text, the whole text unless its count of
//! faults rose (`run`). Out of memory (status 6) may come in the place of any end.
//!
//! # Statuses
//!
//! Status 2 is a usage error, and comes only where the words are no job (`usage`), 4 only where a file's count of faults
//! rose (`read`), 5 only where a sink's count did (`write`); with status 0 or 1 neither sink's did (`steady`). What a job
//! does with its files is one clause (`files`, of `UsesFiles`): a first part of them is opened, each once and in order, and
//! with sure names there is no read fault. The rest is a part of how the job ends (`run`, of `EndsOver`), whether or not the
//! sinks take its texts: an answer, or a refusal of the two observation files together, which a session alone has, comes
//! after all were opened and each was read to its end; another refusal names the file that was opened last, which was read
//! to its end or is too large, after each before it was read to its end; a read fault names one whose name isn't sure, the
//! last that was opened or the one after it. The job ends so on the texts that files report or, where nothing is reported, on those that their reads gave. Words without files leave all files
//! as they are (`untouched`). Where all files of a job are there and of its form, and nothing fails, it ends
//! with status 0 or 1 and its text is written, or it is out of memory (`complete`); `sim` and `sim run` need no file for
//! that.
//!
//! # Jobs
//!
//! What is said of each command is one clause (`output`): `Says` of the job's command, which `command_of` gives
//! (specs/Commands.antt).
//!
//! | Command | Written with status 0 | Written with status 1 |
//! |---|---|---|
//! | `zero` | that every other whole number has a greater sum than the printed one | the rival with the least sum |
//! | `list` | what the observation file holds, of RINEX 3 or of RINEX 2 | |
//! | `orbit` | numbers that hold every solution of the satellite's equations, for the record chosen at the tick | that none is chosen |
//! | `fix`, `track` | the certificate of a session that stands for the files, with integers that, with their move or moves, are strictly best and best by the ratio for all rational data in the printed boxes (`AnswersFix`, `AnswersTrack`) | the text of an outcome that is no fix, with its cause; a certificate still stands for the files, and with its rows the run could end in no other way |
//! | `check`, `check-track` | `certified`, where the integers of the text are best in that sense | `not certified` and why |
//! | `residuals` | what is left of each row's observations | that the certificate has no vectors |
//! | `migrate` | the spelling of the lifted certificate, whose tail is fixed, and best in the printed boxes and in the old ones (`migrate_job`) | the same where its tail isn't fixed |
//! | `arcs` | the kept arcs of the files | |
//! | `sim` | a file of a session of the seed | |
//! | `sim run` | the four lines about a session that is fixed, of which holds what `fix` says of a fix; `match yes` exactly where its integers are the truth's | the four lines about one that isn't, of which holds what `fix` says of a decline |
//!
//! From these follows what the commands of `sim` have in common (`one_session_law`). A text has one verdict
//! (`one_verdict_law`), what `fix` or `track` prints as fixed is certified (`checked_fix_law`), and a greater budget keeps that
//! (`greater_budget_law`). The printed vector is near the least-squares vector (`near_vector_law`), and the printed arcs and
//! datums stand in their order (`arc_order_law`).
//!
//! # How a command is added
//!
//! A command has a variant of `Job` with its words (crate command_words), and in a crate of commands a struct with one
//! method: a `TextCommand` on one file, as `Orbit` of file_jobs, or a `SessionCommand` on the three of a session, as `Fix`
//! of session_jobs, with what it answers in specs/. Here it has a line in `command_of` (specs/Commands.antt) and in `lawful`
//! (proofs/CommandLaws.antt), and an arm in `do_job` with its answer. What is said of statuses, sinks, files, faults and
//! completeness (specs/Runs.antt) stays as it is. In command_words: a variant of `CommandName` (`src/command_name.rt`) with
//! its name and its options, specs/Words.antt, specs/Split.antt, an arm in `src/jobs.rt`, and in proofs/ a line in
//! CommandLaws.antt, in JobLaws.antt and in OneJob.antt, which says that two jobs of one command are one. Its usage line
//! stands in job_answers (`src/stop.rt`, specs/Texts.antt), its words and texts in docs/FORMATS.md, docs/GUIDE.md and README.
#![tactic(auto)]

#[cfg(test)]
mod certificate_tests;
#[cfg(test)]
mod failing_tests;
#[cfg(test)]
mod fault_order_tests;
#[cfg(test)]
mod file_rows;
mod laws;
#[cfg(test)]
mod long_tests;
#[cfg(test)]
mod old_certificate;
#[cfg(test)]
mod old_certificate_end;
mod printed_laws;
#[cfg(test)]
mod row_tests;
#[cfg(test)]
mod rows;
#[cfg(test)]
mod session_rows;
#[cfg(test)]
mod session_tests;
#[cfg(test)]
mod session_texts;
#[cfg(test)]
mod tests;
#[cfg(test)]
mod text_rows;
mod top;

use line_source::{HostFiles, HostSink};
use std::alloc::AllocError;
use std::process::ExitCode;
use std::{env, io};

fn main(rt: HostRuntime) -> ExitCode {
    let words = match env::args(&rt) {
        Ok(args) => args.skip(1).collect::<Vec<String>>(rt.alloc()),
        Err(e) if e.kind() == io::ErrorKind::OutOfMemory => Err(AllocError),
        // a word that is no text makes the words no job, as no words do
        Err(_) => Ok(Vec::new(rt.alloc())),
    };
    let mut out = HostSink::new(rt.stdout());
    let mut err = HostSink::new(rt.stderr());
    let alloc = rt.alloc();
    let mut files = HostFiles::new(rt);
    ExitCode::from(top::start_on_host(alloc, words, &mut files, &mut out, &mut err))
}
