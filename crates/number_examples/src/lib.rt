//! Numbers, boxes, dates and places against values from elsewhere, a module for each crate below. There is nothing here but tests.
#![tactic(auto)]

#[cfg(test)]
mod decimal_box_tests;
#[cfg(test)]
mod decimal_text_tests;
#[cfg(test)]
mod gps_time_tests;
#[cfg(test)]
mod iv_core_tests;
#[cfg(test)]
mod kepler_box_tests;
#[cfg(test)]
mod orbit_place_tests;
#[cfg(test)]
mod rotation_box_tests;
#[cfg(test)]
mod sized_box_tests;
#[cfg(test)]
mod trig_box_tests;
#[cfg(test)]
mod whole_math_tests;
