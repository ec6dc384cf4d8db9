//! What a round of a run makes of its session: the point that it moves to, the shifts that grow, or why it ends the run.
//!
//! `run_rounds` takes what gives the sessions of a run (a `Rounds`) and answers how the run of rounds ends and how many
//! rounds it had (`RunEnd`): the first round is coarse and at the base, each round leads to the next by the rules, in
//! every run at most ten are coarse and at most six fine, and the last one ends the run as it has to (clause `end`), on a
//! fine session in one way alone (`IsOnlyEnd`).
//! For each round one session is made, and no other (`made`; `Rounds` counts them).
//! On a fine session its tail is one that a certificate may have (`fits`), and where it says fixed, the integers with
//! their move are best by the ratio for all data (`by_ratio`). `coarse_rounds` makes the coarse rounds alone.
//! `round_step` says exactly what one round makes of its session; what a settled fine round decides is the crate
//! cert_check's. `grown` gives exactly the grown shifts, and `are_few`
//! and `are_many` their tests. That a session stands for the files is a part of the rules that a
//! `Rounds` brings.
#![tactic(auto)]

mod coarse;
mod constants;
mod counts;
mod limits;
mod points;
mod runs;
mod shifts;
mod steps;

pub use constants::limits_law;
pub use counts::{LEAST_SATELLITES, are_few, are_many, free_count, held};
pub use obs_rows::is_receiver_point;
pub use runs::{CoarseEnd, Rounds, RunEnd, coarse_rounds, run_rounds};
pub use shifts::grown;
pub use steps::{Step, round_step};
