//! The integers of a track: the form of all its pairs, each with a baseline of its own; what its rows are decided to say; and the check
//! of its certificate.
//!
//! *The form.* `sum_of_fronts` brings the pairs' forms over one power of two and adds them, and `form_of_track` finishes the sum, both
//! exactly (`sum`, `form`). They are refused as the first pair that has no front is, and the second also as the finish of the sum is
//! (`refused`). A front is as large as thirty pairs' rows, so all are made in one room of tables (`PairRoom`), and only the factors of
//! the baseline's columns are kept of each (`factors`). The common power of two is that of some pairs' matrices; all are asked only
//! where another front needs a greater one. `moves_at` gives by these factors each pair's baseline at given integers, as a move in
//! 2^-5 ι (`moves`), and is refused where one of them is too wide (`narrow`, `wide`). `least_power` and `part` are what the sum does
//! with one pair, for those who check it by hand.
//!
//! `sum_laws` names what the sum says. 64 times the pairs' sums of squares together are at least 2^h times the value of the track's form.
//! Each entry is below 2^52 in size. The upper sum is at least the pairs' sums. Where the second value is far enough above it, the least
//! integers with the moves are best by the ratio (`track_best_by_ratio` of the proofs), of which strictly best follows
//! (`track_ratio_law`).
//!
//! *The decision.* `decide_track` takes the fronts of the pairs, the finish of their sum, the search, a move for each pair, the upper sums
//! and the ratio, in this order. Each tail has its condition on the rows (`decision`), and no other tail's condition holds (`only`). It
//! is a tail that a certificate of the track may have (`fits`). Where it says fixed, the first integers with the moves are best by the
//! ratio for all data in the boxes, against every other integer vector with any list of baselines, one for each pair (`by_ratio`).
//!
//! *The check.* `check_track` decides the rows of a certificate again before it reads anything of its tail. `Certified` comes only where
//! the rows are fixed and the tail says the same numbers, and nothing else comes there (`verdict`, `only`). The tail's first integers
//! with its moves are then strictly best for the rows, and best by the ratio, whoever wrote the text (`strictly_best`, `by_ratio`).
//!
//! The decision and the check are refused where memory runs out, and never else. Where each pair has a front, as each tracked pair has,
//! a refusal of the form is one of the finish of the sum (`finish_refused_law`). A greater budget of visits loses no answer
//! (`more_track_budget_law`).
#![tactic(auto)]

mod decided;
mod factors;
mod fronts;
pub mod laws;
mod moves;
mod parts;
pub mod sum_laws;
mod sums;
mod tails;
mod uppers;
mod verdict;

pub use decided::decide_track;
pub use factors::PairFactors;
pub use fronts::{PairRoom, pair_front};
pub use moves::moves_at;
pub use parts::{least_power, part};
pub use sums::{SummedFronts, TrackForm, form_of_track, sum_of_fronts};
pub use verdict::check_track;
