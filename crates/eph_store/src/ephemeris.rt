//! A usable record.
ghost use Rattle.std.specs.Prelude.{◌≡◌, pos, ◌+◌, ◌*◌, ◌/◌, ◌<◌, ◌≤◌};
ghost use Rattle.gps_time.specs.declared.TheConstants.{TICKS_IN_SECOND};
ghost use Rattle.eph_store.specs.Decimals.{IsFromTo, IsWithin};

use decimal_text::Dec;
use gps_time::Tick;

/// The numbers of a usable GPS record: IS-GPS-200's ephemeris and clock data, each in its range of the profile.
///
/// Angles are in radians, their rates in radians a second, lengths in metres, times in seconds. The fields are named
/// as in `Raw`.
#[derive(Clone, Copy, Debug)]
pub struct Eph {
    /// The satellite's number.
    pub sat: u8,
    /// The time of the clock's polynomial, at most 7,200 s from `toe`.
    pub toc: Tick,
    /// The ephemeris' time.
    pub toe: Tick,
    /// The ephemeris' time as a second of its week.
    pub toe_second: u32,
    pub af0: Dec,
    pub af1: Dec,
    pub af2: Dec,
    pub crs: Dec,
    pub dn: Dec,
    pub m0: Dec,
    pub cuc: Dec,
    pub ecc: Dec,
    pub cus: Dec,
    pub root_a: Dec,
    pub cic: Dec,
    pub node: Dec,
    pub cis: Dec,
    pub incl: Dec,
    pub crc: Dec,
    pub peri: Dec,
    pub node_rate: Dec,
    pub incl_rate: Dec,
    pub ghost second_in: { toe_second ≤ 604_799 },
    pub ghost toe_in: { toe.0 < 60_480_000_000_000_000 },
    // a week has 6,048,000,000,000 ticks
    pub ghost second_of_week: { toe.0
        ≡ (toe.0 / 6_048_000_000_000 * 604_800 + toe_second) * TICKS_IN_SECOND },
    pub ghost toc_late_enough: { toe.0 ≤ toc.0 + 72_000_000_000 },
    pub ghost toc_early_enough: { toc.0 ≤ toe.0 + 72_000_000_000 },
    pub ghost root_a_in: { IsFromTo (pos 4500) (pos 6000) 0 root_a },
    pub ghost ecc_in: { IsFromTo (pos 0) (pos 3125) 5 ecc },
    pub ghost m0_in: { IsWithin 65 1 m0 },
    pub ghost peri_in: { IsWithin 65 1 peri },
    pub ghost node_in: { IsWithin 65 1 node },
    pub ghost incl_in: { IsWithin 65 1 incl },
    pub ghost dn_in: { IsWithin 1 7 dn },
    pub ghost node_rate_in: { IsWithin 1 7 node_rate },
    pub ghost incl_rate_in: { IsWithin 1 8 incl_rate },
    pub ghost cuc_in: { IsWithin 1 3 cuc },
    pub ghost cus_in: { IsWithin 1 3 cus },
    pub ghost cic_in: { IsWithin 1 3 cic },
    pub ghost cis_in: { IsWithin 1 3 cis },
    pub ghost crc_in: { IsWithin 10_000 0 crc },
    pub ghost crs_in: { IsWithin 10_000 0 crs },
    pub ghost af0_in: { IsWithin 1 2 af0 },
    pub ghost af1_in: { IsWithin 1 7 af1 },
    pub ghost af2_in: { IsWithin 1 12 af2 },
}
