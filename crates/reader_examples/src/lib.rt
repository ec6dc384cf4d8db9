//! What the readers of every kind of file take and refuse, a module for each crate below. There is nothing here but tests.
#![tactic(auto)]

#[cfg(test)]
mod eph_store_tests;
#[cfg(test)]
mod gal_nav_tests;
#[cfg(test)]
mod gal_obs_tests;
#[cfg(test)]
mod line_source_piece_tests;
#[cfg(test)]
mod line_source_tests;
#[cfg(test)]
mod obs_source_tests;
#[cfg(test)]
mod obs_store_tests;
#[cfg(test)]
mod rinex2_accepted_tests;
#[cfg(test)]
mod rinex2_sample;
#[cfg(test)]
mod rinex_head_tests;
#[cfg(test)]
mod rinex_nav_tests;
#[cfg(test)]
mod rinex_obs_feed_tests;
#[cfg(test)]
mod rinex_obs_tests;
#[cfg(test)]
mod slow_files;
#[cfg(test)]
mod texts;
