//! The models of a satellite's way and of its signal's, over rationals.
//!
//! `IsSatelliteSolution` is the user algorithm of IS-GPS-200 for a satellite's place and clock as a set of equations,
//! and `IsSeenPlace` is where a receiver sees a satellite; both are definitions in `specs/`, which the crates above cite.
//! What the equations take of a record and of a system stands in `Elements`. The laws of a seen place stand in `travel`.
#![tactic(auto)]

mod rotation;
mod travel;

pub use rotation::EARTH_ROTATION;
pub use travel::{range_change, seen_place_exists, seen_places};
