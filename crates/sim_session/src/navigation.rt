//! The text of a navigation file.
ghost use Rattle.std.specs.Prelude.{◌≡◌, ◌+◌, ◌*◌, ◌++◌, length, OnOk};
ghost use Rattle.sim_session.specs.Navigation.{navigation_header, first_line, further_line, record_text, navigation_text};

use crate::numbers::push_number;
use decimal_text::{Dec, push_digits};
use eph_store::Eph;
use std::alloc::AllocError;

const ZERO: Dec = Dec { mant: 0, exp: -12 };

const SECOND: Dec = Dec {
    mant: 8_640_000_000_000,
    exp: -8,
};

const WEEK: Dec = Dec {
    mant: 2_295_000_000_000,
    exp: -9,
};

fn write_first(
    out: &mut Vec<u8>,
    letter: u8,
    sat: u8,
    a: Dec,
    b: Dec,
    c: Dec,
) -> Result<(), AllocError>
    ensures { OnOk result (out.new.items ≡ out.old.items ++ first_line letter sat a b c) }
{
    out.push(letter)?;
    push_digits(out, sat as u64, 2)?;
    out.extend_from_slice(b" 2024 01 01 00 00 00")?;
    push_number(out, a)?;
    push_number(out, b)?;
    push_number(out, c)?;
    out.extend_from_slice(b"\n")?;
    Ok(())
}

fn write_further(out: &mut Vec<u8>, a: Dec, b: Dec, c: Dec, d: Dec) -> Result<(), AllocError>
    ensures { OnOk result (out.new.items ≡ out.old.items ++ further_line a b c d) }
{
    out.extend_from_slice(b"    ")?;
    push_number(out, a)?;
    push_number(out, b)?;
    push_number(out, c)?;
    push_number(out, d)?;
    out.extend_from_slice(b"\n")?;
    Ok(())
}

fn write_record(out: &mut Vec<u8>, letter: u8, eph: &Eph) -> Result<(), AllocError>
    ensures { OnOk result (out.new.items ≡ out.old.items ++ record_text letter eph.now) }
{
    write_first(out, letter, eph.sat, eph.af0, eph.af1, eph.af2)?;
    write_further(out, ZERO, eph.crs, eph.dn, eph.m0)?;
    write_further(out, eph.cuc, eph.ecc, eph.cus, eph.root_a)?;
    write_further(out, SECOND, eph.cic, eph.node, eph.cis)?;
    write_further(out, eph.incl, eph.crc, eph.peri, eph.node_rate)?;
    write_further(out, eph.incl_rate, ZERO, WEEK, ZERO)?;
    write_further(out, ZERO, ZERO, ZERO, ZERO)?;
    write_further(out, ZERO, ZERO, ZERO, ZERO)?;
    Ok(())
}

fn write_header(out: &mut Vec<u8>, letter: u8) -> Result<(), AllocError>
    ensures { OnOk result (out.new.items ≡ out.old.items ++ navigation_header letter) }
{
    out.extend_from_slice(b"     3.04           N: GNSS NAV DATA    ")?;
    out.push(letter)?;
    out.extend_from_slice(b"                   RINEX VERSION / TYPE\n")?;
    out.extend_from_slice(
        b"                                                            END OF HEADER\n",
    )?;
    Ok(())
}

/// Appends the navigation file of the records, which are of the system with that letter. After an `Err` a part of it may have been
/// appended.
pub fn write_navigation(out: &mut Vec<u8>, letter: u8, records: &[Eph]) -> Result<(), AllocError>
    ensures written { OnOk result
        (out.new.items ≡ out.old.items ++ navigation_text letter records.now) }
    ensures size { OnOk result
        (length out.new.items ≡ length out.old.items + (155 + 648 * length records.now)) }
{
    write_header(out, letter)?;
    for eph in records {
        write_record(out, letter, eph)?;
    }
    Ok(())
}
