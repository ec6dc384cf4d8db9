//! The integer form of a session's rows: its types, its value at an integer vector, its float point.
//!
//! The type `Form` keeps what the elimination of the integer columns gives: its d, l and g are exactly those of the
//! steps from its matrix p, with the ranges of all of them, a symmetric p, and zeros outside the columns in use. So
//! `lower_sum_law` holds of every form: at any integers the lower sum 2^60·g + Σ d·C² is at most 2^60 times the
//! value, and no value is below g. `Form::value` is exactly the value at an integer vector. `Form::float_of` is
//! exactly the float point and both `baseline_of` exactly the baseline at given integers, and they are refused
//! exactly where one of these numbers is 2^46 or more in size. `FrontForm::of` has the given fields, and
//! `is_form_table`, which serves tests alone, says whether a table may be given. The crate stands below lower_form, which hands its types on.
#![tactic(auto)]

mod faults;
mod float_point;
mod form;
mod front_form;
mod laws;
mod products;
mod tables;
mod values;

pub use faults::{LowerFault, Overwidth, Place};
pub use form::Form;
pub use front_form::FrontForm;
pub use laws::lower_sum_law;
pub use tables::{is_form_table, put_factors};
