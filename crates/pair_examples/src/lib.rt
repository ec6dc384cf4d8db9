//! What becomes of two files of observations up to the rows of their pairs, a module for each crate below. There is nothing here
//! but tests.
#![tactic(auto)]

#[cfg(test)]
mod epoch_pair_tests;
#[cfg(test)]
mod obs_rows_tests;
#[cfg(test)]
mod row_boxes_tests;
#[cfg(test)]
mod screening_tests;
#[cfg(test)]
mod slip_arcs_tests;
