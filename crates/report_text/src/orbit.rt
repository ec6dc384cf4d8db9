//! What is printed of a satellite's place and clock.
ghost use Rattle.std.specs.Prelude.{◌≡◌, ◌++◌, ◌^◌, ◌*ℤ◌, ◌≤◌, unsigned_abs, OnOk, MatchOption, codes};
ghost use Rattle.whole_math.specs.Rounding.{floor_div, ceil_div};
ghost use Rattle.report_text.specs.Orbit.{ends_of, ends_line, no_record_line, AppendsOrbit};

use iv_core::Iv;
use std::alloc::{AllocError, Global};
use sv_orbit::SvBox;
use whole_math::{ceil_shift, floor_shift, product};

const MICROMETRES: i64 = 1_000_000;

const FEMTOSECONDS: i64 = 1_000_000_000_000_000;

// The end of a box at 2^-scale in units of 1/unit, rounded down.
fn low_end(end: i64, unit: i64, scale: u32) -> i128
    requires end_size { unsigned_abs end ≤ 2 ^ 62 }
    requires unit_size { unsigned_abs unit ≤ 2 ^ 62 }
    requires scale { scale ≤ 60 }
    ensures { result ≡ floor_div (end *ℤ unit) (2 ^ scale) }
{
    floor_shift(product::<62, 62>(end, unit), scale)
}

// The end of a box at 2^-scale in units of 1/unit, rounded up.
fn high_end(end: i64, unit: i64, scale: u32) -> i128
    requires end_size { unsigned_abs end ≤ 2 ^ 62 }
    requires unit_size { unsigned_abs unit ≤ 2 ^ 62 }
    requires scale { scale ≤ 60 }
    ensures { result ≡ ceil_div (end *ℤ unit) (2 ^ scale) }
{
    ceil_shift(product::<62, 62>(end, unit), scale)
}

fn write_axis(alloc: Global, out: &mut Vec<u8>, name: &str, held: &Iv<36>) -> Result<(), AllocError>
    ensures { OnOk result
        (out.new.items ≡ out.old.items ++ ends_line name.now (ends_of 6 held.now)) }
{
    let low = low_end(held.lo, MICROMETRES, 36);
    let high = high_end(held.hi, MICROMETRES, 36);
    let line = format!(in alloc; "{name} {low} {high}\n")?;
    out.extend_from_slice(line.as_bytes())
}

fn write_clock(alloc: Global, out: &mut Vec<u8>, held: &Iv<60>) -> Result<(), AllocError>
    ensures { OnOk result
        (out.new.items ≡ out.old.items ++ ends_line (codes "clock") (ends_of 15 held.now)) }
{
    let low = low_end(held.lo, FEMTOSECONDS, 60);
    let high = high_end(held.hi, FEMTOSECONDS, 60);
    let line = format!(in alloc; "clock {low} {high}\n")?;
    out.extend_from_slice(line.as_bytes())
}

fn write_box(alloc: Global, out: &mut Vec<u8>, found: &SvBox) -> Result<(), AllocError>
    ensures { OnOk result (AppendsOrbit found.now out.old.items out.new.items) }
{
    let [x, y, z] = found.place;
    write_axis(alloc, out, "x", &x)?;
    write_axis(alloc, out, "y", &y)?;
    write_axis(alloc, out, "z", &z)?;
    write_clock(alloc, out, &found.clock)?;
    Ok(())
}

/// Appends the four lines of a satellite's box, its coordinates in micrometres and its clock in 10^-15 s, each end
/// rounded outward, or `no record`. After an `Err` a part of the text may have been appended.
pub fn write_orbit(
    alloc: Global,
    out: &mut Vec<u8>,
    found: Option<&SvBox>,
) -> Result<(), AllocError>
    ensures { OnOk result (MatchOption found.entry (out.new.items
        ≡ out.old.items ++ no_record_line) (λ b. AppendsOrbit b.now out.old.items out.new.items)) }
{
    match found {
        Some(held) => write_box(alloc, out, held),
        None => out.extend_from_slice(b"no record\n"),
    }
}
