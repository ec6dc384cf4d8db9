//! Certificates of the first version: read, and lifted to the present one.
//!
//! The types `OldCert` to `OldTail` keep what a certificate was before its unit changed, with the ranges of its
//! numbers, and specs/ says in words of its own how it was spelled and what strictly best meant in it, so that no later
//! change of the program moves that meaning. `read_old` answers the certificate whose old spelling the text is (`ok`),
//! the only one (`only`, `one_old_spelling_law`), or refuses a text that spells none (`refused`), at the first line and check that fails
//! (`exact`, `old_flaw_law`); no certificate of that version begins with the lines up to that one (`stuck`).
//!
//! `lift` brings its rows into the present unit, in boxes that hold all that the old ones held, and decides them again.
//! The law of its contract: data of the old boxes times 23/32 are data of the new ones (`boxes`), the weighted sum of
//! squares there is (23/32)² times the old one, for all integers and baselines (`sums`), and so where the new tail is
//! fixed, its integers with its move are strictly best in the old boxes (`best`), and best by the ratio (`by_ratio`). The
//! old tail is read and dropped.
#![tactic(auto)]

mod laws;
mod lifted_rows;
mod lifting;
mod moved;
mod moved_rows;
mod moved_tails;
mod old_arcs;
mod old_certs;
mod old_pairs;
mod old_rows;
mod old_sessions;
mod old_tails;
mod read;

pub use cert_data::{Cert, Place};
pub use laws::{old_flaw_law, one_old_spelling_law};
pub use lifting::lift;
pub use old_arcs::OldArc;
pub use old_certs::OldCert;
pub use old_pairs::OldPair;
pub use old_rows::OldRow;
pub use old_sessions::{OldSession, OldSignals};
pub use old_tails::{OldBest, OldTail};
pub use read::read_old;
/// What a reader fails with, by a name that serves tests alone.
pub use rinex_head::TextFault as CertFault;
