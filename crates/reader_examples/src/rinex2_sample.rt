//! A file of RINEX 2 with seven types and two epochs, and the same with other lines in the place of some.
use crate::texts::{MOST, push_lines};
use obs_store::ObsFile;
use rinex2_obs::{ObsFault, read_obs2};
use std::alloc::{AllocError, Global};

pub const FIRST: &str =
    "     2.11           OBSERVATION DATA    G (GPS)             RINEX VERSION / TYPE";

pub const PLACE: &str =
    "  6378137.0000        0.0000        0.0000                  APPROX POSITION XYZ";

pub const DELTA: &str =
    "        1.5000        0.0000        0.0000                  ANTENNA: DELTA H/E/N";

pub const FACTORS: &str =
    "     1     1                                                WAVELENGTH FACT L1/2";

pub const TYPES: &str =
    "     7    C1    L1    L2    P2    D1    S1    S2            # / TYPES OF OBSERV";

pub const TIME: &str =
    "  2024     1     1     0     0    0.0000000     GPS         TIME OF FIRST OBS";

pub const END: &str = "                                                            END OF HEADER";

pub const EPOCH: &str = " 24  1  1  0  0 30.0000000  0  2G05 12";

pub const SAT_5: &str = "  22123456.789   116260123.45617  90592303.99946  22123459.123  ";

pub const SAT_5_REST: &str = "        45.250         38.500  ";

pub const SAT_12: &str = "  23123456.789   121515123.456    94687303.999    23123459.123  ";

pub const SAT_12_REST: &str = "        44.000         30.250  ";

pub const LATER: &str = " 24  1  1  0  1  0.0000000  0  0";

/// The file, line by line.
pub const FILE: [&str; 13] = [
    FIRST,
    PLACE,
    DELTA,
    FACTORS,
    TYPES,
    TIME,
    END,
    EPOCH,
    SAT_5,
    SAT_5_REST,
    SAT_12,
    SAT_12_REST,
    LATER,
];

/// The text of these lines.
pub fn text_of(alloc: Global, lines: &[&str]) -> Result<String, AllocError> {
    let mut text = String::new(alloc);
    push_lines(&mut text, lines)?;
    Ok(text)
}

/// What the text gives, by `read_obs2`.
pub fn read(alloc: Global, text: &str) -> Result<ObsFile, ObsFault> {
    if text.len() > MOST {
        return Err(ObsFault::NoMemory);
    }
    read_obs2(alloc, text.as_bytes())
}
