//! A place that is known without calculation.
use crate::tests::{hold, holds};
use decimal_text::Dec;
use eph_store::{Eph, Raw};
use gps_time::Tick;
use iv_core::Iv;
use std::test::Fail;
use sv_orbit::sv_at;

const ZERO: Dec = Dec { mant: 0, exp: 0 };

// A satellite at perigee of a circle of 25,000 km, over the equator, on the meridian of Greenwich.
fn plain() -> Raw {
    Raw {
        sat: 7,
        toc: Tick(0),
        af0: ZERO,
        af1: ZERO,
        af2: ZERO,
        crs: ZERO,
        dn: ZERO,
        m0: ZERO,
        cuc: ZERO,
        ecc: ZERO,
        cus: ZERO,
        root_a: Dec { mant: 5000, exp: 0 },
        cic: ZERO,
        node: ZERO,
        cis: ZERO,
        incl: ZERO,
        crc: ZERO,
        peri: ZERO,
        node_rate: ZERO,
        incl_rate: ZERO,
        week: ZERO,
        toe_s: ZERO,
        health: ZERO,
    }
}

// What isn't near 25,000 km on the axis, or without a clock's error.
fn axis_fault(eph: &Eph) -> Option<&'static str> {
    if eph.toe.0 > 72_010_000_000 {
        return Some("out of range");
    }
    let found = sv_at(eph, Tick(0), 0);
    if !hold(&found.place, [25_000_000 << 36, 0, 0]) || !are_narrow(&found.place) {
        return Some("the place");
    }
    if holds(&found.clock, 0) {
        None
    } else {
        Some("the clock")
    }
}

fn are_narrow(place: &[Iv<36>; 3]) -> bool {
    let [x, y, z] = place;
    x.width() <= 1 << 18 && y.width() <= 1 << 18 && z.width() <= 1 << 18
}

#[test]
fn on_the_axis(rt: HostRuntime) -> Result<(), Fail> {
    let eph = Eph::of(&plain())?;
    assert!(rt; axis_fault(&eph).is_none());
    Ok(())
}
