//! From a broadcast record to a satellite's place and clock: boxes that hold every solution of the user algorithm of IS-GPS-200
//! (table 20-IV and 20.3.3.3.3.1), and that there is a solution.
//!
//! `SvRecord::of` makes, once for a usable record and the constants of its system, boxes of what doesn't depend on the time. `sv_from`
//! takes it with a tag at most 7201 s from the reference epoch and a code from 0 to 10^11 mm, and gives an `SvBox`. This holds the place
//! and the clock of every solution and of every near one (`IsNearSolution`), at the time at which the satellite sent what was received
//! then. Its type keeps how wide it is, at most 2^-18 m for a coordinate and 2^-50 s for the clock; that each place in it is 19,000 km to
//! 38,000 km from the Earth's centre; and that the clock is at most 1/64 s in size. `sv_with` gives the same from the record itself, and
//! `sv_at` with the constants of GPS.
//!
//! Its steps can be called alone. `decimal_box` gives the least box of a decimal number times a power of ten, at any exponent; that the
//! number fits is a condition on constants, which the check compares. `ClockRecord::of` and `timing_at` give boxes of the clock, of the
//! time since the reference epoch and of the mean anomaly, for every near solution: the clock is coupled to the orbit, and its box is at
//! most 36 units of 2^-60 s wide. No false clock far away is a solution, since an angle pair has |E| ≤ 16. `axis` and `eccentricity`
//! are boxes of these two elements. orbit_place makes the place of these boxes.
//!
//! A `World` is the constants of GPS or of Galileo. `world_of` gives those of a system by its letter, and `worlds_law` says what they are
//! in the units of the systems' documents.
//!
//! *That there is a solution*, with nothing to run: each usable record has a near one at every tag and code that is asked for
//! (`records_have_solutions`; over rationals, at each time of sending, `solutions_exist`), since Kepler's equation has one where the
//! mean anomaly follows the sine of the angle (`fixed_angle_exists`). So no box is empty. And a seen place has a mean direction over
//! each displacement (`mean_direction_exists`).
//!
//! No call takes memory, and none is refused.
#![tactic(auto)]

mod clock_record;
mod correction;
mod decimals;
mod existence;
mod place;
mod quotient;
mod record;
mod record_solutions;
mod shape;
mod timing;
mod world;
mod worlds;

pub use clock_record::ClockRecord;
pub use decimals::decimal_box;
pub use existence::{fixed_angle_exists, mean_direction_exists, solutions_exist};
pub use place::SvBox;
pub use record::{SvRecord, sv_at, sv_from, sv_with};
pub use record_solutions::records_have_solutions;
pub use shape::{AXIS, ECCENTRICITY, axis, eccentricity};
pub use timing::{CLOCK_WIDTH, EPOCH_TIME, MEAN, Timing, timing_at};
pub use world::World;
pub use worlds::{world_of, worlds_law};
