//! RINEX 2 observation files of GPS, versions 2.10 and 2.11.
//!
//! `read_obs2` answers the observation file that a text stands for exactly where it stands for one (`ok`, `only`), and
//! else refuses it at the first line with which no file begins (`refused`, `first`), at the column and for the reason of
//! the first failing check in that line (`exact`, `obs2_flaw_law`). The grammar stands over the whole list of lines in specs/Obs2Form.antt,
//! the header and what a line says beside it and in obs_fields, and the same as rules line by line, from which the place of a
//! refusal comes, in specs/Obs2Rules.antt. In RINEX's words it is in docs/FORMATS.md.
#![tactic(auto)]

mod body;
mod epoch_lines;
mod events;
mod header;
mod laws;
mod profile;
mod reader;
mod sat_names;
mod sat_numbers;
mod sats;

pub use laws::obs2_flaw_law;
pub use reader::read_obs2;
pub use rinex_head::TextFault as ObsFault;
