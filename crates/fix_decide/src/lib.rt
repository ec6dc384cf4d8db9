//! The upper sum of the weighted sum of squares at given integers, and the decision whether they are fixed.
//!
//! What a fix means: whatever the observations and directions were in the boxes of the rows, each other integer
//! vector, of whole numbers of any size, with any rational baseline has a greater weighted sum of squares than the
//! fixed one with its move, and one that is greater by the ratio: of a ratio of 2000 each other sum is more than twice
//! the fixed one's. These are the clauses `strictly_best` and `by_ratio` of `decide`; of a ratio of 1000 or more the
//! first follows from the second (`ratio_law` of obs_rows). `pair_upper` and `upper_sum` give exactly the upper sum of a pair's rows
//! and of a fine session at given integers and a given move, the second in units of 2^h and rounded up (`value`). For
//! all data in the boxes the sum of squares there is at most the upper sum (`above`). They are refused exactly where the
//! residual of some row may lie 2^33 or more from 0 (`refused`, `place`). `decide` gives the two least vectors as it got
//! them, the baseline of the first as its move, their upper sum, and fixes exactly where 1000·P(z2) > 64·ratio·T (`best`,
//! `moved`, `top`, `fixed`); it is refused by `Float` exactly where the baseline is too large and by `Sum` exactly where
//! the upper sum is refused (`float`, `sum`, `only`). `is_separated` is that inequality alone, and `integer_of` and
//! `centre_of` the integer and the residual of one arc and signal. None of them takes memory.
#![tactic(auto)]

mod decision;
mod gaps;
mod integers;
mod pairs;
mod reaches;
mod upper_sums;

pub use decision::{Decision, decide, is_separated};
pub use integers::integer_of;
pub use pairs::pair_upper;
pub use reaches::centre_of;
pub use upper_sums::upper_sum;
