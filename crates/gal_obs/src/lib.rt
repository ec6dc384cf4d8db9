//! The reader of Galileo's observation files (RINEX 3.00 to 3.05): E1 and E5a.
//!
//! The grammar is that of GPS with other letters, so rinex_obs has it once for both systems, with the reader, and this
//! crate only hands on what it says of Galileo. `E` stands in the place of `G` in the list of types, the scale factor and
//! the satellites' lines, and numbers go to 36. Column 41 of the first line is `E` or `M`, and the time system is `GPS`,
//! `GAL` or blank. Ten types are kept: C1C C1X, L1C L1X, C5Q C5X C5I, L5Q L5X L5I. A file without one of these is refused
//! as NoGal, and one with a scale factor for Galileo as GalScale.
//!
//! `read_gal_obs` answers the file that a text stands for exactly where it stands for one (`ok`, `only`), and else refuses
//! it at the first line with which no file begins (`refused`, `first`), at the column and for the reason of the first
//! failing check in that line (`exact`). `GalFeed` takes the text in pieces and gives the same answer, however they were
//! cut. The grammar, in RINEX's words, is in docs/FORMATS.md.
#![tactic(auto)]

mod reader;

pub use reader::read_gal_obs;
pub use rinex_obs::{GalFeed, ObsFault};
