//! A satellite's observations.
ghost use Rattle.std.specs.Prelude.{◌^◌, ◌≤◌, pos, ◌≤ℤ◌, unsigned_abs, All};
ghost use Rattle.std.specs.Int.{abs_diff};
ghost use Rattle.sv_orbit.specs.Records.{constants_of};
ghost use Rattle.sim_session.specs.ObservationText.{AreInColumns};
ghost use Rattle.sim_session.specs.Observed.{ForSolutions, IsDistance, IsCodeAfter, IsReachedIn, IsObserved};
ghost use Rattle.sim_session.specs.declared.drawn.TheConstants.{MOST_CYCLES};

use crate::distances::{Distance, code_of, distance_of, phase_of};
use crate::receiver::Receiver;
use crate::signals::Signals;
use eph_store::Eph;
use gps_time::Tick;
use obs_rows::{UNIT_FREQUENCY, WAVELENGTHS};
use signal_travel::seen_from;
use sv_orbit::{World, sv_with};

/// 25,000 km in mm.
const FIRST_CODE: i64 = 25_000_000_000;

/// How often the code is made anew.
const PASSES: u32 = 6;

/// The carriers in Hz: so often does their wavelength go into the way of light in a second.
const L1: u32 = (UNIT_FREQUENCY / WAVELENGTHS[0]) as u32;

const L2: u32 = (UNIT_FREQUENCY / WAVELENGTHS[1]) as u32;

const L5: u32 = (UNIT_FREQUENCY / WAVELENGTHS[4]) as u32;

// How far the satellite is seen at the tag with this code in mm, less what its clock is ahead
fn distance_at(world: &World, eph: &Eph, tag: Tick, code: i64, receiver: &Receiver) -> Distance
    requires near { abs_diff tag.0 eph.now.toe.0 ≤ 72010000000 }
    requires code_low { pos 0 ≤ℤ code }
    requires code_high { code ≤ℤ pos (10 ^ 11) }
    ensures { ForSolutions (constants_of world.now) eph.now tag.0 code receiver.now.point (λ v.
        IsDistance result.units v) }
{
    let satellite = sv_with(eph, tag, code, world);
    let seen = seen_from(&satellite, &receiver.point);
    distance_of(&seen.range, &satellite.clock)
}

fn code_after(world: &World, eph: &Eph, tag: Tick, code: i64, receiver: &Receiver) -> i64
    requires near { abs_diff tag.0 eph.now.toe.0 ≤ 72010000000 }
    requires code_low { pos 0 ≤ℤ code }
    requires code_high { code ≤ℤ pos (10 ^ 11) }
    ensures near { IsCodeAfter (constants_of world.now) eph.now tag.0 receiver.now.point
        receiver.now.clock code result }
    ensures low { pos 0 ≤ℤ result }
    ensures high { result ≤ℤ pos (10 ^ 11) }
{
    let distance = distance_at(world, eph, tag, code, receiver);
    code_of(&distance, receiver.clock)
}

// The code that six steps reach
fn code_at(world: &World, eph: &Eph, tag: Tick, receiver: &Receiver) -> i64
    requires near { abs_diff tag.0 eph.now.toe.0 ≤ 72010000000 }
    ensures reached { IsReachedIn 6
        (constants_of world.now) eph.now tag.0 receiver.now.point receiver.now.clock result }
    ensures low { pos 0 ≤ℤ result }
    ensures high { result ≤ℤ pos (10 ^ 11) }
{
    let mut code = FIRST_CODE;
    for _pass in 0..PASSES {
        code = code_after(world, eph, tag, code, receiver);
    }
    code
}

/// What a receiver observes of a satellite at the tag by the constants of a system, with these whole cycles in its phases on L1,
/// L2 and L5. The tag is at most 7201 s from the ephemeris' time.
pub fn observe(
    world: &World,
    eph: &Eph,
    tag: Tick,
    receiver: &Receiver,
    cycles: &[i64; 3],
) -> Signals
    requires near { abs_diff tag.0 eph.now.toe.0 ≤ 72010000000 }
    requires cycles { All (λ z. unsigned_abs z ≤ MOST_CYCLES) cycles.now }
    ensures observed { IsObserved (constants_of world.now) tag.0 receiver.now.point
        receiver.now.clock eph.now cycles.now result }
    ensures columns { AreInColumns result }
{
    let code = code_at(world, eph, tag, receiver);
    let distance = distance_at(world, eph, tag, code, receiver);
    let [on_l1, on_l2, on_l5] = *cycles;
    Signals {
        code,
        l1: phase_of(&distance, receiver.clock, L1, on_l1),
        l2: phase_of(&distance, receiver.clock, L2, on_l2),
        l5: phase_of(&distance, receiver.clock, L5, on_l5),
    }
}
