//! Which pairs of epochs of a moving rover are tracked, each from a point of its own.
//!
//! `track_at` takes what was screened and the arcs that were kept, and answers a track and the pairs that it hasn't got (`track`, with
//! the definition `IsTrackOf`): every taken pair is tracked or lost and not both, in order. A tracked pair settles at its point by its
//! codes, is tried with the shifts that its arcs have in the end, has exactly those rows at the fine scale, and a front. A lost pair has
//! the first cause that holds. An arc takes its shifts in the first pair in which it is tracked and keeps them, and those of an arc
//! without a tracked row are 0. The shifts that are handed in aren't used (`arcs`: the arcs are the same but for them). That the track
//! stands for the files, `TrackStands`, follows from this and from what `screen_in` and `cut` say (`track_stands_law`).
//!
//! One pair is tried by coarse rounds of its own, from the base's position on, then by its fine rows. `try_pair` answers what became of a pair of the kept arcs, by the definition `IsTrialOf` (`trial`): it is lost by the
//! first cause that holds, or it is tracked at the point where its coarse rounds settle, with the rows there. An arc that
//! has begun keeps its shifts in it; another arc of the pair takes shifts with which its phases lie from −λ to λ in this
//! pair; arcs that don't hold the pair keep theirs. A pair is lost for its rows exactly where fewer than four arcs hold it,
//! for a front of its own exactly where the front of the rows is refused, and for an observation only where one may be too
//! far. What a tracked pair has is in the ranges of a track (`fits`).
#![tactic(auto)]

mod files;
mod laws;
mod rows;
mod shifts;
mod tracks;
mod trials;
mod walks;

pub use laws::track_stands_law;
pub use tracks::track_at;
