//! Forms of rows, their two best integer vectors, and what is decided, against independent models, a module for each crate below.
//! There is nothing here but tests.
#![tactic(auto)]

#[cfg(test)]
mod decorrelate_cases;
#[cfg(test)]
mod decorrelate_tests;
#[cfg(test)]
mod drawn_sessions;
#[cfg(test)]
mod elimination_tests;
#[cfg(test)]
mod fix_decide_tests;
#[cfg(test)]
mod int_search_tests;
#[cfg(test)]
mod integer_form_tests;
#[cfg(test)]
mod lower_form_tests;
#[cfg(test)]
mod normal_sum_tests;
#[cfg(test)]
mod row_numbers;
#[cfg(test)]
mod search_cases;
#[cfg(test)]
mod search_reduced_case;
#[cfg(test)]
mod search_session_cases;
#[cfg(test)]
mod track_part_tests;
#[cfg(test)]
mod track_sum_tests;
