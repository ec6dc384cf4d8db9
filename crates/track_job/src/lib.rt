//! The commands of a moving rover: `track`, one baseline for each pair of epochs with the certificate of their common
//! integers, and `check-track`, which decides the rows of such a certificate again.
//!
//! `MovingRover` is the command on the three files of a session of the options' system: it answers them with the texts of the
//! outcome, done for a fix and else declined, or refuses the two observation files (`AnswersTrack`). Of a fix it says
//! (`IsTrackFixedFor`) that for all data in the printed boxes its integers with its moves have a sum of squares that is lesser,
//! and lesser by the ratio, than that of all other integers with any baselines, one for each tracked pair; and that a check of
//! it answers `Certified`. Each certificate that is printed, of a fix or of a decline, stands for the
//! files (`TrackCertStandsForFiles`): its boxes hold all solutions for them, each pair's seen from a point of its own. Each of its
//! pairs has a front. Each taken pair is tracked, or lost for the first cause that holds; a decline is the outcome of the
//! files, with its cause.
//!
//! `TrackCheck` answers the text of a certificate of a track with the verdict on it (`CheckTrackEnd`): with `certified` the rows
//! are fixed, the tail says the same numbers, and its first integers with its moves are strictly best, and best by the ratio,
//! whoever wrote it; each other answer has its cause, and no other verdict's condition holds.
//!
//! What is printed of a track: on out its certificate, or the one line that says why there is none; on err how much of the
//! files went into it, which pairs it lost, the place of each tracked pair, and the verdict. A `TrackOutcome` is a `SessionOutcome`:
//! `write` appends exactly these two texts (`out`, `err`), and says that the arrays of a printed certificate have their lengths,
//! so that its text is no other's (`whole`); `is_fixed` says exactly whether a track is a fix.
#![tactic(auto)]

mod answers;
mod checks;
mod laws;
mod lost;
mod outcomes;
mod places;
mod texts;
mod tracks;

pub use checks::TrackCheck;
pub use laws::lost_words_law;
pub use tracks::MovingRover;
