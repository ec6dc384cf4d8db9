//! What a simulated session hides, by an independent model.
use obs_rows::{is_bands_number, is_system};
use sim_session::make;
use std::alloc::{AllocError, Global};

const ON_L1_L2: [[i64; 3]; 4] = [
    [-352_426, -269_348, 0],
    [383_694, -572_712, 0],
    [-414_053, 597_662, 0],
    [-240_734, 374_034, 0],
];

const ON_ALL: [[i64; 3]; 4] = [
    [-352_426, -269_348, -1_135_970],
    [383_694, -572_712, 599_511],
    [-414_053, 597_662, -461_111],
    [-240_734, 374_034, -141_728],
];

// Bands, a system, and by how many cycles the rover's phases are more than the base's.
static HIDDEN: [(u16, u8, [[i64; 3]; 4]); 4] = [
    (12, b'G', ON_L1_L2),
    (15, b'G', ON_ALL),
    (125, b'G', ON_ALL),
    (15, b'E', ON_ALL),
];

// Whether a session of seed 1, of one epoch and four satellites, hides its offset and these cycles.
fn hides(alloc: Global, bands: u16, system: u8, truth: &[[i64; 3]]) -> Result<bool, AllocError> {
    if !is_bands_number(bands) || !is_system(system) || (system == b'E' && bands != 15) {
        return Ok(false);
    }
    let made = make(alloc, 1, 1, 4, bands, system)?;
    Ok(made.offset == [-165_680, 943_607, -659_500] && made.truth.as_slice() == truth)
}

#[test]
fn tells_the_truth(rt: HostRuntime) {
    for row in HIDDEN.iter() {
        assert!(rt; matches!(hides(rt.alloc(), row.0, row.1, &row.2), Ok(true)));
    }
}
