//! Certificates of tracks as text: the one spelling of such a certificate, written; and read again by rules, a line at a time.
//!
//! `write_track` appends exactly the spelling of a certificate (`text`). It says too that the arrays have their lengths (`whole`), which a
//! definition doesn't know, since an array is a list of any length there. It fails only where memory runs out, and a part of the text
//! may have been appended then.
//!
//! `read_track` answers the certificate whose spelling the text is (`ok`), the only one with that spelling (`only`), or refuses a text
//! that is the spelling of none (`refused`), at the first line and check that fails (`exact`, `track_flaw_law`). No certificate's text
//! begins with the lines up to that one (`stuck`). If it comes no later than the line `pairs`, some certificate's text begins with the
//! lines before it (`first`). Running out of memory is an answer of its own. So what `write_track` wrote is read again, and no other
//! text gives it; two certificates with one spelling are the same (`one_track_spelling_law`).
#![tactic(auto)]

mod arcs;
mod grammar;
mod head;
mod laws;
mod moves;
mod pairs;
mod parts;
mod reader;
mod tail;
mod tail_lines;
mod write;
mod written_pairs;
mod written_tails;

pub use laws::{one_track_spelling_law, track_flaw_law};
pub use reader::read_track;
pub use rinex_head::TextFault as CertFault;
pub use track_data::{Items, Track, TrackCert, TrackTail};
pub use write::write_track;
