//! Navigation records: which of them are usable, and the chosen one of a satellite at a time.
//!
//! `Eph::of` takes a record exactly where its health is 0 and its numbers lie in the profile of docs/FORMATS.md, else
//! says `Unhealthy`, or `Range` with the first number that is out of its range, both exactly (`usable`, `unhealthy`,
//! `range`); the numbers are compared as rationals, without rounding, and the type `Eph` keeps their ranges.
//! `NavFile` holds all records and the usable ones of them, in order (`kept` of `fit`). `choose` gives the usable
//! record of the satellite that is nearest to the tag and at most 7,200 s away, by comparison with all of them, the
//! last of equally near ones, and none exactly where there is none; `nearest` does so among any records.
#![tactic(auto)]

mod chosen;
mod decimals;
mod ephemeris;
mod fields;
mod profile;
mod record;
mod records;

pub use chosen::nearest;
pub use ephemeris::Eph;
pub use fields::TWO_HOURS;
pub use profile::Unfit;
pub use record::Raw;
pub use records::NavFile;
