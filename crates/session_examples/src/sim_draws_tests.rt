//! Draws of an independent model.
use sim_session::draw_all;
use std::alloc::{AllocError, Global};

// Whether seed 1 draws, for two satellites, its offset, its clocks and these cycles of the base, of the rover and between both.
fn are_drawn(
    alloc: Global,
    with_l5: bool,
    base: &[[i64; 3]],
    rover: &[[i64; 3]],
    truth: &[[i64; 3]],
) -> Result<bool, AllocError> {
    let drawn = draw_all(alloc, 1, 2, with_l5)?;
    let cycles = &drawn.cycles;
    Ok(
        drawn.offset == [-165_680, 943_607, -659_500]
            && (drawn.base_clock, drawn.rover_clock) == (88_760, -97_507)
            && cycles.base.as_slice() == base
            && cycles.rover.as_slice() == rover
            && cycles.truth.as_slice() == truth,
    )
}

#[test]
fn draws_in_order(rt: HostRuntime) {
    let base = [[-160_742, 566_536, 0], [-853_467, 519_323, 0]];
    let rover = [[-513_168, 297_188, 0], [-469_773, -53_389, 0]];
    let truth = [[-352_426, -269_348, 0], [383_694, -572_712, 0]];
    let found = are_drawn(rt.alloc(), false, &base, &rover, &truth);
    assert!(rt; matches!(found, Ok(true)));
}

// The draws of L5 come after those of all satellites.
#[test]
fn draws_l5_last(rt: HostRuntime) {
    let base = [[-160_742, 566_536, -141_940], [-853_467, 519_323, -555_993]];
    let rover = [[-513_168, 297_188, 86_773], [-469_773, -53_389, 684_435]];
    let truth = [
        [-352_426, -269_348, 228_713],
        [383_694, -572_712, 1_240_428],
    ];
    let found = are_drawn(rt.alloc(), true, &base, &rover, &truth);
    assert!(rt; matches!(found, Ok(true)));
}
