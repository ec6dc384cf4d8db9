//! Simulated sessions: their draws, an epoch of their texts, and that the readers of files read them; whole runs over them and over
//! what is left of them after a change, against an independent model. There is nothing here but tests; whole texts are tried by
//! `cases/`.
#![tactic(auto)]

#[cfg(test)]
mod cases;
#[cfg(test)]
mod piece_tests;
#[cfg(test)]
mod reading_tests;
#[cfg(test)]
mod round_steps_tests;
#[cfg(test)]
mod session_tests;
#[cfg(test)]
mod sim_draws_tests;
#[cfg(test)]
mod sim_session_tests;
#[cfg(test)]
mod sim_texts_tests;
#[cfg(test)]
mod tests;
