//! The normal matrix: the weighted sum of squares at the centres of the rows as a whole-number matrix.
//!
//! `sum_pair` and `sum` give exactly the normal matrix of the rows of a pair and of a session, entry by entry, and
//! the sums of the squares of their radii (clause `normal`). For every integer vector and every rational baseline the
//! matrix gives the weighted sum of squares at the centres of the boxes (`centres`), and 63 times it, less the radii,
//! is at most 64 times the sum of squares at any data in the boxes (`below`). The calls take no memory and never
//! refuse; the type `Normal` keeps symmetry, and that each entry is below 2^120 in size and each sum of radii below
//! 2^100. `refill_pair` and `refill_sum` write the matrix of a pair or of a session over another, so that many need one table. `share` is exactly 360360 times a signal's weight over a number of rows, which is a whole number.
//! `first_places` gives for each row of a pair the place of its arc's first integer, and `places_of` that of the integer
//! which one phase sees.
#![tactic(auto)]

mod coefficients;
mod columns;
mod directions;
mod mirror;
mod normal;
mod observations;
mod pairs;
mod places;
mod products;
mod radii;
mod signals;
mod sums;

pub use normal::Normal;
pub use places::{MOST_ROWS, first_places, places_of};
pub use signals::share;
pub use sums::{refill_pair, refill_sum, sum, sum_pair};
