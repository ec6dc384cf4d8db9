//! The commands on one file: `list` on an observation file, `orbit` on a navigation file, `zero` on a file of differences; and on a
//! certificate `check`, `residuals` and `migrate`.
//!
//! Each says what it ends with on the bytes of its file, a verdict or the place at which the text is refused. Running out of memory is
//! the only end without a stated cause.
//!
//! - `list`: how many epochs an observation file has, the first and the last tag, and how many epochs each satellite of GPS has.
//! - `orbit`: the record is the one that is chosen at the tick, by comparison with all usable records of the file. Every solution of the
//!   user algorithm for it lies between the printed numbers, and there is one. `no record` comes exactly where no record is chosen.
//! - `check` decides the rows again. `certified` comes only where they are fixed and the tail says so with the same numbers; the integers
//!   with the move are then strictly best, and best by the ratio. Each other answer has its cause, and no other verdict's condition
//!   holds. The text is the spelling of that certificate alone.
//! - `residuals`: the printed numbers are those of the rows at the tail's first integers, or there are none.
//! - `migrate` lifts a certificate of the first version; the head of its module says what then holds.
//! - `zero`: a file claims that a whole number fits measured differences best. They are in units of κ, of which one cycle of L1 has 60,
//!   so each is to be near 60 times the number. `read_rows` gives exactly the claim and the differences that the text spells (`ok`,
//!   `only`), or refuses it exactly where it spells none, at the first line that fails, with the column and the reason of the rules
//!   (`refused`, `first`, `exact`); a text has one reading (`one_rows_law`). `decide` says that the number is strictly best exactly
//!   where every other whole number has a greater sum, and else names the other one of least sum, the lesser of two equals.
#![tactic(auto)]

mod checks;
mod claims;
mod listing;
mod migrations;
mod orbits;
mod zero_best;
mod zero_laws;
mod zero_rows;

pub use checks::{CertCheck, Residuals, status_of, verdict_output};
pub use claims::Claim;
pub use listing::list;
pub use migrations::Migration;
pub use orbits::Orbit;
pub use zero_best::{Verdict, decide};
pub use zero_laws::{one_rows_law, rows_flaw_law};
pub use zero_rows::{MAX_DIFFS, ZeroRows, read_rows};
