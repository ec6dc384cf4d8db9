//! Which records are usable.
ghost use Rattle.std.specs.Prelude.{◌≡◌, ℕ, ◌<◌, length, ◌↔◌, IsOk, IfOk, Err, Result, MatchOption, All};
ghost use Rattle.eph_store.specs.declared.profile.Unfit.{Unfit};
ghost use Rattle.eph_store.specs.declared.profile.Unfit.TheVariants.{Unhealthy, Range};
ghost use Rattle.eph_store.specs.Profile.{IsHealthy, InRange, IsTimeOf, IsUsable, IsFirstOut, fields_in_order};
ghost use Rattle.eph_store.specs.Records.{IsEphOf};

use crate::decimals::whole_up_to;
use crate::fields::{Field, LAST_SECOND, LAST_WEEK};
use crate::{Eph, Raw};
use gps_time::week_tick;
use thiserror::Error;

/// Why a record isn't usable.
#[derive(Clone, Copy, Debug, PartialEq, Eq, Error)]
pub enum Unfit {
    /// The health isn't 0.
    #[error("the satellite is unhealthy")]
    Unhealthy,
    /// A number is out of its range, the first one in the profile's order, counted from 1.
    #[error("number {field} of the profile is out of its range")]
    Range { field: u8 },
}

impl Eph {
    /// The record as a usable one: its health is 0 and each number lies in its range of the profile, all ends included.
    /// It takes no memory.
    pub fn of(raw: &Raw) -> Result<Eph, Unfit>
        ensures value { IfOk result (λ e. IsEphOf raw.now e) }
        ensures usable { IsOk result ↔ IsUsable raw.now }
        ensures unhealthy { (result ≡ Err Unhealthy) ↔ (IsHealthy raw.now → ⊥) }
        ensures range { (field : ℕ) → (result ≡ Err (Range field))
            ↔ (IsHealthy raw.now × IsFirstOut raw.now fields_in_order field) }
    {
        if raw.health.mant != 0 {
            return Err(Unfit::Unhealthy);
        }
        if let Some(field) = first_out(&Field::ALL, raw) {
            return Err(Unfit::Range { field });
        }
        Ok(usable(raw))
    }
}

// The number of the first of the fields that is out of its range.
fn first_out(fields: &[Field], raw: &Raw) -> Option<u8>
    requires { length fields.now < 256 }
    ensures { MatchOption result (All (λ f. InRange f raw.now) fields.now) (λ n.
        IsFirstOut raw.now fields.now n) }
{
    for (at, field) in fields.iter().enumerate() {
        if !field.is_in_range(raw) {
            return Some(at as u8 + 1);
        }
    }
    None
}

fn usable(raw: &Raw) -> Eph
    requires { IsUsable raw.now }
    ensures { IsEphOf raw.now result }
{
    let week = whole_up_to(raw.week, LAST_WEEK).unwrap();
    let second = whole_up_to(raw.toe_s, LAST_SECOND).unwrap();
    ephemeris(raw, week, second)
}

fn ephemeris(raw: &Raw, week: u32, second: u32) -> Eph
    requires usable { IsUsable raw.now }
    requires time { IsTimeOf raw.now week second }
    ensures { IsEphOf raw.now result }
{
    Eph {
        sat: raw.sat,
        toc: raw.toc,
        toe: week_tick(week, second),
        toe_second: second,
        af0: raw.af0,
        af1: raw.af1,
        af2: raw.af2,
        crs: raw.crs,
        dn: raw.dn,
        m0: raw.m0,
        cuc: raw.cuc,
        ecc: raw.ecc,
        cus: raw.cus,
        root_a: raw.root_a,
        cic: raw.cic,
        node: raw.node,
        cis: raw.cis,
        incl: raw.incl,
        crc: raw.crc,
        peri: raw.peri,
        node_rate: raw.node_rate,
        incl_rate: raw.incl_rate,
    }
}
