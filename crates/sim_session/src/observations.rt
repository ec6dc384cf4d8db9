//! A receiver's observation file.
ghost use Rattle.std.specs.Prelude.{◌≡◌, ◌+◌, ◌^◌, ◌<◌, ◌≤◌, length, All, IfOk};
ghost use Rattle.sv_orbit.specs.Records.{constants_of};
ghost use Rattle.sim_session.specs.Values.{AreSmall};
ghost use Rattle.sim_session.specs.Observations.{step_of, AreObserved, IsObservationText};
ghost use Rattle.sim_session.specs.Limits.{IsOnTime};
ghost use Rattle.obs_rows.specs.declared.limits.TheConstants.{MOST_PAIRS};

use crate::passes::observe;
use crate::receiver::Receiver;
use crate::signals::{Signals, Tracking};
use crate::texts::{write_epoch, write_header};
use eph_store::Eph;
use gps_time::{TICKS_IN_SECOND, Tick};
use std::alloc::{AllocError, Global};
use sv_orbit::World;

/// 2024-01-01 00:00:00.
const START: u64 = 13_881_024_000_000_000;

fn step_of(epochs: u32) -> u32
    requires { epochs ≤ MOST_PAIRS }
    ensures value { result ≡ step_of epochs }
{
    if epochs <= 240 { 30 } else { 2 }
}

fn observe_all(
    alloc: Global,
    world: &World,
    records: &[Eph],
    tag: Tick,
    receiver: &Receiver,
    cycles: &[[i64; 3]],
) -> Result<Vec<Signals>, AllocError>
    requires early { 13881024000000000 ≤ tag.0 }
    requires late { tag.0 ≤ 13881024000000000 + 72000000000 }
    requires records { All IsOnTime records.now }
    requires as_many { length cycles.now ≡ length records.now }
    requires small { All AreSmall cycles.now }
    ensures { IfOk result (λ s. AreObserved (constants_of world.now) tag.0 receiver.now.point
        receiver.now.clock records.now cycles.now s.items) }
{
    let mut sats = Vec::new(alloc);
    for (k, eph) in records.iter().enumerate() {
        sats.push(observe(world, eph, tag, receiver, &cycles[k]))?;
    }
    Ok(sats)
}

/// A receiver's observation file of `epochs` epochs, with what it tracks.
pub fn observation_file(
    alloc: Global,
    epochs: u32,
    tracking: Tracking,
    world: &World,
    records: &[Eph],
    receiver: &Receiver,
    cycles: &[[i64; 3]],
) -> Result<Vec<u8>, AllocError>
    requires epochs { epochs ≤ MOST_PAIRS }
    requires few { length records.now ≤ 15 }
    requires records { All IsOnTime records.now }
    requires as_many { length cycles.now ≡ length records.now }
    requires small { All AreSmall cycles.now }
    ensures text { IfOk result (λ t. IsObservationText epochs tracking (constants_of world.now)
        receiver.now.point receiver.now.clock records.now cycles.now t.items) }
    ensures size { IfOk result (λ t. length t.items < 2 ^ 23) }
{
    let step = step_of(epochs);
    let mut out = Vec::new(alloc);
    write_header(&mut out, tracking)?;
    for i in 0..epochs {
        let seconds = step * i;
        let tag = Tick(START + seconds as u64 * TICKS_IN_SECOND);
        let sats = observe_all(alloc, world, records, tag, receiver, cycles)?;
        write_epoch(alloc, &mut out, tracking, seconds, &sats)?;
    }
    Ok(out)
}
