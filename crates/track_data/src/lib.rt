//! What a track says: a moving rover, with one baseline for each pair and integers that are constant over an arc.
//!
//! The types `Track`, `Tracked` with `Lost` and `LostCause`, `TrackTail` and `TrackCert`. A `Track` keeps in its type what
//! a session keeps of its arcs and pairs, and a point for each pair. A `TrackCert` keeps besides every range of its
//! numbers, at least one pair, and a tail with an entry for each integer and a move for each pair.
//! `TrackTail::of_vectors` is the one place where two vectors become a tail, fixed or unseparated.
#![tactic(auto)]

mod certs;
mod lost;
mod tails;
mod tracks;

pub use certs::TrackCert;
pub use lost::{Lost, LostCause, Tracked};
pub use obs_rows::Items;
pub use tails::TrackTail;
pub use tracks::Track;
