//! Places of satellites and what a receiver sees of them, against an independent calculation. There is nothing here but tests.
#![tactic(auto)]

#[cfg(test)]
mod galileo_places;
#[cfg(test)]
mod places;
#[cfg(test)]
mod records;
#[cfg(test)]
mod sightings;
#[cfg(test)]
mod sv_orbit_tests;
#[cfg(test)]
mod tests;
