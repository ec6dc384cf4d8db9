//! The numbers of a record that have a range, and their ranges.
ghost use Rattle.std.specs.Prelude.{◌↔◌, IsTrue};
ghost use Rattle.eph_store.specs.declared.fields.Field.TheVariants.{Toc};
ghost use Rattle.eph_store.specs.Profile.{InRange};

use crate::Raw;
use crate::decimals::{is_from_to, is_within, whole_up_to};
use gps_time::week_tick;

pub const LAST_WEEK: u32 = 9_999;

pub const LAST_SECOND: u32 = 604_799;

// 7,200 s in ticks.
pub const TWO_HOURS: u64 = 72_000_000_000;

// The numbers with a range, in the profile's order.
#[derive(Clone, Copy, Debug, PartialEq, Eq)]
pub enum Field {
    Week,
    Toe,
    Toc,
    RootA,
    Ecc,
    M0,
    Peri,
    Node,
    Incl,
    Dn,
    NodeRate,
    InclRate,
    Cuc,
    Cus,
    Cic,
    Cis,
    Crc,
    Crs,
    Af0,
    Af1,
    Af2,
}

impl Field {
    pub const ALL: [Field; 21] = [
        Field::Week,
        Field::Toe,
        Field::Toc,
        Field::RootA,
        Field::Ecc,
        Field::M0,
        Field::Peri,
        Field::Node,
        Field::Incl,
        Field::Dn,
        Field::NodeRate,
        Field::InclRate,
        Field::Cuc,
        Field::Cus,
        Field::Cic,
        Field::Cis,
        Field::Crc,
        Field::Crs,
        Field::Af0,
        Field::Af1,
        Field::Af2,
    ];

    // Whether the number lies in its range.
    pub fn is_in_range(self, raw: &Raw) -> bool
        ensures { IsTrue result ↔ InRange self raw.now }
    {
        match self {
            Field::Week => whole_up_to(raw.week, LAST_WEEK).is_some(),
            Field::Toe => whole_up_to(raw.toe_s, LAST_SECOND).is_some(),
            Field::Toc => is_toc_near(raw),
            Field::RootA => is_from_to(raw.root_a, 4_500, 6_000, 0),
            Field::Ecc => is_from_to(raw.ecc, 0, 3_125, 5),
            Field::M0 => is_within(raw.m0, 65, 1),
            Field::Peri => is_within(raw.peri, 65, 1),
            Field::Node => is_within(raw.node, 65, 1),
            Field::Incl => is_within(raw.incl, 65, 1),
            Field::Dn => is_within(raw.dn, 1, 7),
            Field::NodeRate => is_within(raw.node_rate, 1, 7),
            Field::InclRate => is_within(raw.incl_rate, 1, 8),
            Field::Cuc => is_within(raw.cuc, 1, 3),
            Field::Cus => is_within(raw.cus, 1, 3),
            Field::Cic => is_within(raw.cic, 1, 3),
            Field::Cis => is_within(raw.cis, 1, 3),
            Field::Crc => is_within(raw.crc, 10_000, 0),
            Field::Crs => is_within(raw.crs, 10_000, 0),
            Field::Af0 => is_within(raw.af0, 1, 2),
            Field::Af1 => is_within(raw.af1, 1, 7),
            Field::Af2 => is_within(raw.af2, 1, 12),
        }
    }
}

// Whether the clock's time is at most 7,200 s from the ephemeris' time.
fn is_toc_near(raw: &Raw) -> bool
    ensures { IsTrue result ↔ InRange Toc raw.now }
{
    let Some(week) = whole_up_to(raw.week, LAST_WEEK) else {
        return false;
    };
    let Some(second) = whole_up_to(raw.toe_s, LAST_SECOND) else {
        return false;
    };
    let toe = week_tick(week, second);
    raw.toc.0.abs_diff(toe.0) <= TWO_HOURS
}
