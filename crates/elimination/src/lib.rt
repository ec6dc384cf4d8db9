//! The elimination of the columns of a form in whole numbers, in place on a table, whose every rounding is covered.
//!
//! On a table, in place, a row of steps (`take_steps`) is exactly that of the definition, and stops exactly where
//! that does, for the same reason; it leaves all other factors as they were. `finish` takes the steps of the integer
//! columns from the form that those of the baseline left, entry by entry (`IsFinishOf`).
//!
//! The steps stop in the first column whose pivot is below 2^20 (`StepFault::Weak`), that has a factor of 2^52 or more in
//! size (`WideFactor`), or whose step gives such an entry (`WideEntry`); `Stopped::fault` and `finish` report it as a
//! `LowerFault`. What steps that stop leave in their tables no clause says. `form_table`, `fill_form_table`,
//! `front_factors` and `first_kept` hand on what the steps of the baseline's columns left. `step_through` takes one row of a
//! form through the steps of the baseline's columns by the rows of these columns (`PivotRows`), in 64 bits, and `put_row`
//! writes it into a form. No memory is taken.
//!
//! A rounded quotient is read from a product with a ratio that was tested (`quotients`), and where the product doesn't say it,
//! there is one exact division (`entries`).
#![tactic(auto)]

mod entries;
mod finished;
mod quotients;
mod row_steps;
mod step;
mod steps;
mod tables;

pub use entries::is_small;
pub use finished::finish;
pub use row_steps::{PivotRows, PivotTable, step_through};
pub use step::StepFault;
pub use steps::{Stopped, take_steps};
pub use tables::{fill_form_table, first_kept, form_table, front_factors, put_row};
