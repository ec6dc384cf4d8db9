//! The reader of Galileo's records in navigation files (RINEX 3.00 to 3.05).
//!
//! The grammar is that of GPS with other letters, so rinex_nav has it once for both systems, with the reader, and this
//! crate only hands on what it says of Galileo. `E` stands in the place of `G`, numbers go to 36, and column 41 of the
//! first line is `E` or `M`. The numbers that are read stand where those of GPS do: of line 6 IDOT and the week, of line 7
//! the health. Data sources, SISA, group delays and spares may hold anything, and records of other systems are skipped.
//!
//! `read_gal_nav` answers the records of Galileo that a text has exactly where it is a navigation file (`ok`, `only`), and
//! else refuses it at the first line with which no file begins (`refused`, `first`), at the column and for the reason of
//! the first failing check in that line (`exact`). The grammar, in RINEX's words, is in docs/FORMATS.md.
#![tactic(auto)]

mod reader;

pub use reader::read_gal_nav;
pub use rinex_nav::NavFault;
