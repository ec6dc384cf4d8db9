//! How far the least-squares baseline of a session's data, or of a track's pair, may lie from the move of its least integers.
//!
//! `vector_law`: for all data in the boxes of the rows, every rational baseline whose weighted sum of squares with the integers is
//! at most that of the move lies within a stated number of 2^-5 ι of the move, in each coordinate. `move_bound` and `vector_bound`
//! give the number for a session. In a track each pair has a baseline of its own, so with the integers held it stands by itself:
//! `pair_move_bound` and `pair_vector_bound` give the number of one pair, by its rows alone, and `track_vector_bound` the
//! greatest of a track.
#![tactic(auto)]

mod bounds;
mod kept;
mod laws;
mod pairs;
mod reaches;
mod slacks;
mod slopes;
mod tracks;

pub use bounds::{move_bound, vector_bound};
pub use laws::vector_law;
pub use pairs::{pair_move_bound, pair_vector_bound};
pub use tracks::track_vector_bound;
