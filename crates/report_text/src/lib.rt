//! The texts that the commands print: of files, of arcs, of the end of a run, and of certificates.
//!
//! Each call of `write_..` and `push_..` appends exactly its text. It fails only where memory runs out, and a part of the text may have
//! been appended then.
//!
//! - `write_list`: what `list` says of an observation file: version, number of epochs, first and last tag, and each satellite in the
//!   order in which it was first seen, with its number of epochs.
//! - `write_orbit`: a satellite's box, each end rounded outward by less than one unit, or `no record`. What the box holds lies between
//!   the printed numbers, which are at most 5 micrometres and 2·10^-15 s apart (`proofs/OrbitLaws.antt`).
//! - `write_arcs`: a line for each kept arc, in order, and how many arcs were too short.
//! - `write_outcome`: on out the certificate, or the one line that says why there is none; on err the counts, the baseline of a fix and
//!   the verdict. `is_fixed` says exactly whether an outcome is a fix. `push_counts`, `push_delta`, `push_decline` and
//!   `push_verdict_line` append the parts, and `push_place` any words with how far a moved point lies from the base.
//! - `write_verdict`: the line of a verdict. `write_residuals`: the residuals of a certificate's rows in micrometres, or that there is
//!   nothing to show (`text`, `shown`).
//!
//! What is printed of a track stands in track_job, of a `zero` file in file_jobs, of `sim run` in sim_jobs, and the lines about files that
//! can't be had in job_answers.
#![tactic(auto)]

mod arcs;
mod baselines;
mod declines;
mod list;
mod orbit;
mod outcomes;
mod residuals;
mod verdicts;

pub use arcs::write_arcs;
pub use baselines::push_place;
pub use list::write_list;
pub use orbit::write_orbit;
pub use outcomes::{
    is_fixed, push_counts, push_decline, push_delta, push_verdict_line, write_outcome,
};
pub use residuals::write_residuals;
pub use verdicts::write_verdict;
