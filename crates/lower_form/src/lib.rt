//! The integer form of a normal matrix, by an elimination in whole numbers whose every rounding is covered: the first
//! rounding and the steps of the baseline's columns (`front`), then those of the integer columns (`finish`). The public
//! types are those of integer_form.
//!
//! `front` is exactly the first rounding of a normal matrix, over the least power of two that serves, and the three
//! steps of the baseline; `finish` is exactly the steps of the integers, and `lower` is both, entry by entry
//! (`IsFrontOf`, `IsFinishOf`, `IsLowerOf`). Each is refused exactly where the definition is, with the first refusal
//! in its order, and h is at most 77. The main clause stands on `front` and on `lower` (`bound`): for the rows of a
//! pair or of a session whose normal matrix this is, for all data in the boxes of the rows, all integer vectors and
//! all rational baselines, 64 times the sum of squares is at least 2^h times the value of the form at the integers.
//! `refill_front` writes a front over another, in tables that are lent (`BaselineSteps`): row by row, and column by column only where
//! a step stops, to tell which.
//! `exponent` is that power's exponent by itself, without the steps, and `nearest_shift` the rounding of an entry off the
//! diagonal. No call of these three crates takes memory.
#![tactic(auto)]

mod baseline_rows;
mod baseline_steps;
mod first_entries;
mod forms;
mod repeats;
mod rounding;

pub use baseline_steps::{BaselineSteps, front, refill_front};
pub use elimination::finish;
pub use first_entries::nearest_shift;
pub use forms::lower;
pub use integer_form::{Form, FrontForm, LowerFault, Overwidth, Place};
pub use rounding::exponent;
