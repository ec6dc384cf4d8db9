//! RINEX 3 navigation files: the reader of the records of each satellite system.
//!
//! `read_nav` answers the GPS records that a navigation text has exactly where it is a navigation file (`ok`, `only`),
//! and else refuses it at the first line with which no file begins (`refused`, `first`), at the column and for the
//! reason of the first failing check in that line (`exact`). It is `read_records_of` for GPS; that for Galileo, whose
//! numbers stand in the same places, is `read_gal_nav` of gal_nav. The grammar over the whole list of lines, in RINEX's
//! words, is in docs/FORMATS.md: each number of a record is the one in its columns, fields that aren't read may
//! hold anything, and records of other systems are skipped. Lines stand for at most one list of records
//! (`one_nav_law`), and these determine the usable ones (`one_fit_law`).
#![tactic(auto)]

mod body;
mod gps;
mod header;
mod laws;
mod reader;
mod record_lines;

pub use gps::read_nav;
pub use laws::{nav_flaw_law, one_fit_law, one_nav_law};
pub use reader::read_records_of;
pub use rinex_head::TextFault as NavFault;
