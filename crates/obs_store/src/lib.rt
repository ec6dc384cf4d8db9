//! An observation file as data: what its header says of one system, and its epochs in order.
//!
//! `Epochs` holds at most 20,000 epochs, each tag later than the one before, and in each of them `Satellites` of numbers
//! 1 to 36, each at most once: facts of the types, so of every file (`kept` of `as_slice`). `push` of either adds exactly
//! one after the others; after an `Err`, which means out of memory, all is as before. Values that are missing take no
//! memory; `SatValues` has those of a satellite while they are read. `ObsFile::seen` gives each satellite in first-seen order with its number of epochs. The twenty-six kept
//! observation types are the enum `ObsType`, with their names and slots. Of a file's position, delta and listed types no
//! clause here says anything: they are what the reader put there.
#![tactic(auto)]

mod file;
mod kinds;
mod sat_values;
mod sats;
mod series;
mod stored;
mod tally;
mod values;
mod views;

pub use file::ObsFile;
pub use kinds::{ObsType, SLOTS};
pub use sat_values::SatValues;
pub use sats::Satellites;
pub use series::{Epoch, Epochs};
pub use values::{SatObs, Value};
pub use views::SatView;
