//! What one line of an observation file says, whichever format of RINEX and satellite system it is of: labels, offsets,
//! lists of types, and the fields of epochs and satellites. What the formats place differently is in [`Layout`].
//!
//! Each call says exactly what its definition in specs/ says of the line, whose columns past its end are blank. A line is
//! refused at the column and for the reason of its first failing check: `BadField` where columns spell no number,
//! `BadSat` at a satellite's name, `BadDate` at a date or time that is none, `Types` at a list's count, a name that stands
//! twice or a line in the place of a further one, `Changed` at a line of an event that changes what the header says.
//! `satellite` gives nothing for a satellite of another system; an amount that is blank or 0 is set as missing. After an `Err`
//! of `set_values` no clause says which of the values are set. Only `kept_types` and `add_kept` take memory, and
//! their `Err` means that there was none.
//!
//! A header is read by `OpenHeader`, a line at a time: `take_line` answers exactly what `admit_header` of specs/HeaderRules.antt
//! says, and the whole `Header` where the line is its end; after that, and after an `Err`, no clause says what it holds.
//! `missing` is the reason where a text ends in it. The same as a grammar over the whole list of lines is `IsHeader` of
//! specs/HeaderForm.antt. The laws of a header, for each reader whose rules have it (`HeaderReader`), are in proofs/: lines
//! of the form are taken (`header_given` of HeaderLaws.antt), lines that are taken are of the form (`header_took` of
//! HeaderTook.antt), and whatever may be expected in a header can be completed to a text (`header_done` of HeaderEnds.antt).
#![tactic(auto)]

mod amounts;
mod epoch_fields;
mod header;
mod header_lines;
mod labels;
mod layout;
mod offsets;
mod open_header;
mod sat_fields;
mod types;

pub use epoch_fields::{comes_later, count, moment};
pub use header::Header;
pub use labels::event_line;
pub use layout::Layout;
pub use open_header::OpenHeader;
pub use sat_fields::{satellite, set_values};
pub use types::{KeptType, TypeNames, add_kept, kept_types, listed_types};
