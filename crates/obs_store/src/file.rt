//! The file.

use crate::{Epochs, SLOTS};

/// An observation file: what its header says of GPS, and its epochs. Lengths are in 0.1 mm.
#[derive(Debug, Drop)]
pub struct ObsFile {
    /// The version in hundredths: 300 to 305, or 210 or 211.
    pub hundredths: u16,
    /// The antenna's approximate position X, Y, Z; `None` where the header gives none.
    pub position: Option<[i64; 3]>,
    /// The antenna's delta H, E, N.
    pub delta: [i64; 3],
    /// Whether the header lists each kept type, at the type's slot.
    pub listed: [bool; SLOTS],
    pub epochs: Epochs,
}
