//! The commands of simulated sessions: `sim` gives a file of one, and `sim run` processes one and compares its integers with
//! those that it was made with.
//!
//! `sim run` ends with the outcome of the simulated texts, which is that of `fix` on them with the bands and the system
//! that they were made for and no other option given, with all that `fix` says of one, fixed or declined
//! (`IsProvedOutcome`): the three are read, whatever the seed, and the two are never refused together (`ends`).
//! `is_matched`, and so the line `match yes`, is exact: the answer is a fix, and each free arc has on each of the
//! bands, against the datum of its linked set, the cycles that its satellite was made with. That datum is found as the
//! last one at or before the arc, and proved to be the one that a chain of arcs leads to, each of which shares a pair
//! with the next; a linked set has no other.
//!
//! `sim` ends with status 0, and on out with exactly the file that is asked for, of a session of the seed that has all
//! three (`SimEnds`; crate sim_session says what such a session is). A run with status 0 has written that text, and
//! `sim` is never declined (`specs/SimRuns.antt`). The one error is out of memory. Who calls owes at most 3600 epochs and
//! 15 satellites, a set of bands and a system, and for Galileo the bands L1 and L5. The codes and phases of a file are a
//! choice within the bounds that sim_session states, so no clause says that two calls with one seed give the same text.
//!
//! `is_matched` is exact (`IsMatched`): the answer is a fix, and each free arc has on each of the session's bands, against
//! the datum of its linked set, the cycles that its satellite was made with. An arc's cycles are its shift and its
//! integer, less the datum's shift; those that were made are the satellite's less those of the datum's satellite. A
//! satellite of which the truth has none matches nothing. `datum_of` gives the place of that datum, the last one at or
//! before the arc; a linked set has no other (`proofs/Links.antt`). Who calls owes arcs in order, of which just the first
//! of each linked set is a datum (`AreMarked`), as `cut` of slip_arcs gives them. No call fails.
//!
//! *Laws of the texts*: what `make` writes is read as what it was made of, and what two sessions of the same words have in
//! common. A number of at most 18 digits that `fixed_text` gives, after any blanks, is read by the form of a number with a point
//! as that number (`fixed_law`); digits are read as their number (`digits_law`); a text without control bytes and a line
//! feed are a line (`line_law`); each time of 2024-01-01 is a moment with its ticks (`new_year_law`). The text of made
//! satellites of a system is a navigation file by the reader's own form, whose records are theirs, each number as it
//! was kept (`navigation_law`). The text of signals at epochs is an observation file by the reader's own form,
//! whichever bands of which system are tracked: its header's numbers, its tags, its satellites in order and each number
//! in the slot of its type (`observation_law`). So the three texts of every simulated session are files of its system,
//! with the values that they were made of (`reading_law`, over the clauses of `make`). Two sessions of the same words have
//! one navigation file, byte for byte, and observation files that differ in codes and phases alone (`same_words_law`):
//! these are a choice within the bounds that sim_session states.
#![tactic(auto)]

mod datums;
mod files;
mod matches;
mod navigation;
mod observations;
mod readings;
mod report;
mod runs;
mod written;

pub use files::sim;
pub use navigation::navigation_law;
pub use observations::observation_law;
pub use readings::{reading_law, same_words_law};
pub use runs::sim_run;
pub use written::{digits_law, fixed_law, line_law, new_year_law};
