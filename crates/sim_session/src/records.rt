//! The satellites' records.
ghost use Rattle.std.specs.Prelude.{◌≡◌, ◌+◌, ◌<◌, ◌≤◌, pos, unsigned_abs, length, IfOk};
ghost use Rattle.whole_math.specs.Rational.{◌≈◌};
ghost use Rattle.eph_store.specs.Decimals.{decimal, value_of, IsFromTo, IsWithin};
ghost use Rattle.sim_session.specs.Numbers.{IsNormal};
ghost use Rattle.sim_session.specs.Satellites.{anomaly, node, root_a_tenths, IsSatellite, AreNormal, AreSatellites};

use crate::numbers::normal;
use decimal_text::Dec;
use eph_store::Eph;
use gps_time::Tick;
use std::alloc::{AllocError, Global};

/// In tenths of a radian.
const ANOMALIES: [i64; 15] = [0, 8, -8, 8, -8, 0, 0, 4, -4, 4, -4, 8, -8, 4, -4];

const LONGITUDES: [i64; 15] = [0, 6, -6, -6, 6, 6, -6, 3, -3, -3, 3, 0, 0, 6, -6];

/// 2024-01-01 00:00:00, second 86400 of week 2295.
const EPOCH: Tick = Tick(13_881_024_000_000_000);

const ZERO: Dec = Dec { mant: 0, exp: -12 };

fn anomaly_tenths(k: u32) -> i64
    requires { k < 15 }
    ensures value { result ≡ anomaly k }
    ensures size { unsigned_abs result ≤ 8 }
{
    ANOMALIES[k as usize]
}

fn node_hundredths(k: u32) -> i64
    requires { k < 15 }
    ensures value { result ≡ node k }
    ensures size { unsigned_abs result ≤ 108 }
{
    10 * LONGITUDES[k as usize] - 6 * ANOMALIES[k as usize]
}

fn number_of(k: u32) -> i64
    requires { k < 15 }
    ensures value { result ≡ pos (k + 1) }
    ensures size { unsigned_abs result ≤ 15 }
{
    k as i64 + 1
}

fn clock_offset(k: u32) -> Dec
    requires { k < 15 }
    ensures value { value_of result ≈ decimal (pos (k + 1)) 5 }
    ensures normal { IsNormal result }
    ensures range { IsWithin 1 2 result }
{
    normal(number_of(k), 5)
}

fn eccentricity(k: u32) -> Dec
    requires { k < 15 }
    ensures value { value_of result ≈ decimal (pos (k + 1)) 3 }
    ensures normal { IsNormal result }
    ensures range { IsFromTo (pos 0) (pos 3125) 5 result }
{
    normal(number_of(k), 3)
}

fn mean_anomaly(k: u32) -> Dec
    requires { k < 15 }
    ensures value { value_of result ≈ decimal (anomaly k) 1 }
    ensures normal { IsNormal result }
    ensures range { IsWithin 65 1 result }
{
    normal(anomaly_tenths(k), 1)
}

fn ascending_node(k: u32) -> Dec
    requires { k < 15 }
    ensures value { value_of result ≈ decimal (node k) 2 }
    ensures normal { IsNormal result }
    ensures range { IsWithin 65 1 result }
{
    normal(node_hundredths(k), 2)
}

// The square root of the semi-major axis in √m
fn root_of_axis(letter: u8) -> Dec
    ensures value { value_of result ≈ decimal (root_a_tenths letter) 1 }
    ensures normal { IsNormal result }
    ensures range { IsFromTo (pos 4500) (pos 6000) 0 result }
{
    if letter == b'E' {
        Dec {
            mant: 5_440_600_000_000,
            exp: -9,
        }
    } else {
        Dec {
            mant: 5_153_600_000_000,
            exp: -9,
        }
    }
}

fn satellite(letter: u8, k: u32) -> Eph
    requires { k < 15 }
    ensures values { IsSatellite letter k result }
    ensures normal { AreNormal result }
{
    Eph {
        sat: k as u8 + 1,
        toc: EPOCH,
        toe: EPOCH,
        toe_second: 86_400,
        af0: clock_offset(k),
        af1: Dec {
            mant: 1_000_000_000_000,
            exp: -24,
        },
        af2: ZERO,
        crs: ZERO,
        dn: Dec {
            mant: 4_500_000_000_000,
            exp: -21,
        },
        m0: mean_anomaly(k),
        cuc: Dec {
            mant: 1_000_000_000_000,
            exp: -18,
        },
        ecc: eccentricity(k),
        cus: ZERO,
        root_a: root_of_axis(letter),
        cic: ZERO,
        node: ascending_node(k),
        cis: ZERO,
        incl: Dec {
            mant: 9_600_000_000_000,
            exp: -13,
        },
        crc: Dec {
            mant: 2_000_000_000_000,
            exp: -10,
        },
        peri: ZERO,
        node_rate: Dec {
            mant: -8_000_000_000_000,
            exp: -21,
        },
        incl_rate: ZERO,
    }
}

/// The records of the first satellites of the system with that letter, in order.
pub fn satellites(alloc: Global, letter: u8, sats: u32) -> Result<Vec<Eph>, AllocError>
    requires { sats ≤ 15 }
    ensures records { IfOk result (λ es. AreSatellites letter 0 es.items) }
    ensures count { IfOk result (λ es. length es.items ≡ sats) }
{
    let mut all = Vec::new(alloc);
    for k in 0..sats {
        all.push(satellite(letter, k))?;
    }
    Ok(all)
}
