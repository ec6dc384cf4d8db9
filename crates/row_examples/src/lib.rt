//! The rows of whole sessions, against an independent model, and a certificate and a track that are made of them. There is nothing here but tests.
#![tactic(auto)]

#[cfg(test)]
mod certificate_tests;
#[cfg(test)]
mod expected;
#[cfg(test)]
mod expected_bands;
#[cfg(test)]
mod files;
#[cfg(test)]
mod rows;
#[cfg(test)]
mod tests;
#[cfg(test)]
mod track_tests;
