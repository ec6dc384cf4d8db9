//! The files of a job, read; and what a job ends with: a status, a text for each of its two sinks, and how these are written.
//!
//! *One file.* `load_file` gives a file's bytes. `ObsTaker` takes the text of an observation file of GPS in pieces, and its first line
//! says the format: a file of RINEX 2 (version 2.00 to 2.99) is collected for rinex2_obs, every other one goes on to rinex_obs piece by
//! piece and is not kept. `finish` gives the file exactly where the text has one in either format (`IsObservation`), else the first
//! place at which it has none: the same for all texts for which the taker stands, however they were cut (`answers`). Of Galileo there
//! are no files of RINEX 2. `obs_file` reads an observation file of either system. Lines stand for at most one observation file
//! (`one_observation_law`); a file whose text is known has one reading (`one_obs_law`, `one_nav_law`).
//!
//! *Three files.* `read_session` reads those of the base, the rover and the satellites, in this order, each opened once and read to its
//! end before the next (`opened`, `whole`), or stops at the first that can't be had.
//!
//! *Where it stops.* With status 4 at a file that can't be read: only where the files' count of faults rose in the call (`fault`), and
//! never for a name that is sure not to fail (`sure`). With status 3 at a file of more than 67,108,864 bytes, or at one whose text isn't
//! of its form, with the place where its lines leave the form. Such a file was read to its end, or its reads gave more bytes than a
//! file may have, and each file before it was read to its end (`refused`). The line on err names the file (`named`). Two observation
//! files of which no session is made are refused with one line (`refused_pair`).
//!
//! *Commands.* A `TextCommand` says what it answers of one text, a `SessionCommand` of the three files; `answer_file` and
//! `answer_session` read the files for it, and give its answer or the end at which the reading stopped. What is said of either is
//! one record (`Command`, made by `text_command` and `session_command`).
//!
//! *The end.* `JobOutput` is a status and two texts, of which that for out is empty unless the status is a verdict's, done or declined.
//! `usage`, `refused`, `too_large` and `read_fault` give exactly their lines. `deliver` writes the two texts, out first: each whole,
//! where its sink's count of faults stays, or a first part of it and then one fault, after which nothing is tried on that sink. A fault
//! of out is reported on err, once.
//!
//! `load_file` doesn't run out of memory at an empty file that is read without a fault (`memory`). Elsewhere no clause says when a call
//! does: `JobStop::NoMemory`, `TextFault::NoMemory` and `AllocError` may come in the place of any answer.
#![tactic(auto)]

mod delivery;
mod file_laws;
mod observation_laws;
mod output;
mod refusals;
mod session_command;
mod session_reading;
mod status;
mod stop;
mod taker;
mod text_command;

pub use delivery::deliver;
pub use file_laws::{one_nav_law, one_obs_law};
pub use observation_laws::one_observation_law;
pub use output::JobOutput;
pub use refusals::refused_pair;
pub use session_command::{SessionCommand, answer_session};
pub use session_reading::{SessionFiles, obs_file, read_session};
pub use status::{Status, verdict_status};
pub use stop::{JobStop, load_file, read_fault, refused, too_large, usage};
pub use taker::ObsTaker;
pub use text_command::{TextCommand, answer_file};
