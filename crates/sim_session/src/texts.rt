//! The text of an observation file.
ghost use Rattle.std.specs.Prelude.{◌≡◌, ◌+◌, ◌*◌, ◌≤◌, ◌++◌, length, All, OnOk};
ghost use Rattle.sim_session.specs.ObservationText.{version_line, types_line, header_text, epoch_line, further_fields, fields_text, satellite_line, satellite_lines, epoch_text, AreInColumns, IsInColumns};
ghost use Rattle.sim_session.specs.Tracked.{amounts_of};

use crate::columns::push_fixed;
use crate::signals::{Signals, Tracking};
use decimal_text::push_digits;
use gps_time::TICKS_IN_SECOND;
use std::alloc::{AllocError, Global};

fn write_version(out: &mut Vec<u8>, tracking: Tracking) -> Result<(), AllocError>
    ensures { OnOk result (out.new.items ≡ out.old.items ++ version_line tracking) }
{
    out.extend_from_slice(b"     3.04           OBSERVATION DATA    ")?;
    out.push(tracking.letter())?;
    out.extend_from_slice(b"                   RINEX VERSION / TYPE\n")?;
    Ok(())
}

#[tactic(auto, unfolding(crate::specs::ObservationText::types_line))]
fn write_types(out: &mut Vec<u8>, tracking: Tracking) -> Result<(), AllocError>
    ensures { OnOk result (out.new.items ≡ out.old.items ++ types_line tracking) }
{
    match tracking {
        Tracking::GpsL1L2 => out.extend_from_slice(
            b"G    4 C1C L1C C2W L2W                                      SYS / # / OBS TYPES\n",
        ),
        Tracking::GpsL1L2L5 => out.extend_from_slice(
            b"G    6 C1C L1C C2W L2W C5Q L5Q                              SYS / # / OBS TYPES\n",
        ),
        Tracking::GalileoE1E5a => out.extend_from_slice(
            b"E    4 C1C L1C C5Q L5Q                                      SYS / # / OBS TYPES\n",
        ),
    }
}

/// Appends the header: version 3.04, the base's position (6378137 m, 0, 0), no offset of the antenna, the types of what is tracked
/// and GPS time.
pub fn write_header(out: &mut Vec<u8>, tracking: Tracking) -> Result<(), AllocError>
    ensures written { OnOk result (out.new.items ≡ out.old.items ++ header_text tracking) }
    ensures size { OnOk result (length out.new.items ≤ length out.old.items + 480) }
{
    write_version(out, tracking)?;
    out.extend_from_slice(
        b"  6378137.0000        0.0000        0.0000                  APPROX POSITION XYZ\n",
    )?;
    out.extend_from_slice(
        b"        0.0000        0.0000        0.0000                  ANTENNA: DELTA H/E/N\n",
    )?;
    write_types(out, tracking)?;
    out.extend_from_slice(
        b"  2024     1     1     0     0    0.0000000     GPS         TIME OF FIRST OBS\n",
    )?;
    out.extend_from_slice(
        b"                                                            END OF HEADER\n",
    )?;
    Ok(())
}

fn write_epoch_line(
    alloc: Global,
    out: &mut Vec<u8>,
    seconds: u32,
    sats: u32,
) -> Result<(), AllocError>
    ensures { OnOk result (out.new.items ≡ out.old.items ++ epoch_line seconds sats) }
{
    out.extend_from_slice(b"> 2024 01 01 ")?;
    push_digits(out, (seconds / 3_600) as u64, 2)?;
    out.extend_from_slice(b" ")?;
    push_digits(out, (seconds / 60 % 60) as u64, 2)?;
    push_fixed(
        alloc,
        out,
        11,
        (seconds % 60) as i64 * TICKS_IN_SECOND as i64,
        7,
    )?;
    out.extend_from_slice(b"  0")?;
    push_fixed(alloc, out, 3, sats as i64, 0)?;
    out.extend_from_slice(b"\n")?;
    Ok(())
}

fn write_further(alloc: Global, out: &mut Vec<u8>, amounts: &[i64]) -> Result<(), AllocError>
    requires { All IsInColumns amounts.now }
    ensures { OnOk result (out.new.items ≡ out.old.items ++ further_fields amounts.now) }
{
    for amount in amounts {
        out.extend_from_slice(b"  ")?;
        push_fixed(alloc, out, 14, *amount, 3)?;
    }
    Ok(())
}

fn write_amounts(
    alloc: Global,
    out: &mut Vec<u8>,
    tracking: Tracking,
    signals: &Signals,
) -> Result<(), AllocError>
    requires { AreInColumns signals.now }
    ensures { OnOk result
        (out.new.items ≡ out.old.items ++ fields_text (amounts_of tracking signals.now)) }
{
    let Signals { code, l1, l2, l5 } = *signals;
    push_fixed(alloc, out, 14, code, 3)?;
    match tracking {
        Tracking::GpsL1L2 => write_further(alloc, out, &[l1, code, l2]),
        Tracking::GpsL1L2L5 => write_further(alloc, out, &[l1, code, l2, code, l5]),
        Tracking::GalileoE1E5a => write_further(alloc, out, &[l1, code, l5]),
    }
}

fn write_satellite(
    alloc: Global,
    out: &mut Vec<u8>,
    tracking: Tracking,
    number: u64,
    signals: &Signals,
) -> Result<(), AllocError>
    requires { AreInColumns signals.now }
    ensures { OnOk result
        (out.new.items ≡ out.old.items ++ satellite_line tracking number signals.now) }
{
    out.push(tracking.letter())?;
    push_digits(out, number, 2)?;
    write_amounts(alloc, out, tracking, signals)?;
    out.extend_from_slice(b"\n")?;
    Ok(())
}

fn write_satellites(
    alloc: Global,
    out: &mut Vec<u8>,
    tracking: Tracking,
    sats: &[Signals],
) -> Result<(), AllocError>
    requires few { length sats.now ≤ 99 }
    requires columns { All AreInColumns sats.now }
    ensures { OnOk result (out.new.items ≡ out.old.items ++ satellite_lines tracking 0 sats.now) }
{
    for (k, signals) in sats.iter().enumerate() {
        write_satellite(alloc, out, tracking, k as u64 + 1, signals)?;
    }
    Ok(())
}

/// Appends an epoch of flag 0, `seconds` seconds after 2024-01-01 00:00:00, with the satellites from number 1 on. After an `Err` a
/// part of it may have been appended.
pub fn write_epoch(
    alloc: Global,
    out: &mut Vec<u8>,
    tracking: Tracking,
    seconds: u32,
    sats: &[Signals],
) -> Result<(), AllocError>
    requires seconds { seconds ≤ 86399 }
    requires few { length sats.now ≤ 99 }
    requires columns { All AreInColumns sats.now }
    ensures written { OnOk result
        (out.new.items ≡ out.old.items ++ epoch_text tracking seconds sats.now) }
    // 98 bytes for each satellite with all three bands
    ensures size { OnOk result
        (length out.new.items ≤ length out.old.items + (36 + 98 * length sats.now)) }
{
    write_epoch_line(alloc, out, seconds, sats.len() as u32)?;
    write_satellites(alloc, out, tracking, sats)?;
    Ok(())
}
