//! The position and the antenna's delta in a header.
ghost use Rattle.std.specs.Prelude.{◌≡◌, ◌≤◌, length};
ghost use Rattle.rinex_head.specs.Fields.{fixed_in};
ghost use Rattle.obs_fields.specs.Offsets.{length_in, offset_in, position_in, delta_in};

use decimal_text::NumberFault;
use rinex_head::{Flaw, bad_field, field, fixed, fixed_number};

#[tactic(auto, unfolding(rinex_head::specs::Fields::fixed_in))]
fn length_at(line: &[u8], first: u32) -> Result<i64, Flaw>
    requires from_one { 1 ≤ first }
    requires near { first ≤ 100 }
    ensures { result ≡ length_in line.now first }
{
    fixed_number(&field::<14>(line, first as usize), first, 4)
}

#[tactic(auto, unfolding(crate::specs::Offsets::offset_in))]
fn offset_at(line: &[u8], first: u32) -> Result<i64, Flaw>
    requires from_one { 1 ≤ first }
    requires near { first ≤ 100 }
    ensures { result ≡ offset_in line.now first }
{
    match fixed(&field::<14>(line, first as usize), 4) {
        Ok(length) => Ok(length),
        Err(NumberFault::Blank) => Ok(0),
        Err(_) => Err(bad_field(first)),
    }
}

/// The approximate position X, Y, Z in 0.1 mm, if it isn't 0, 0, 0 (`APPROX POSITION XYZ`).
#[tactic(auto, unfolding(crate::specs::Offsets::position_in))]
pub fn position(line: &[u8]) -> Result<Option<[i64; 3]>, Flaw>
    ensures { result ≡ position_in line.now }
{
    let x = length_at(line, 1)?;
    let y = length_at(line, 15)?;
    let z = length_at(line, 29)?;
    if x == 0 && y == 0 && z == 0 {
        return Ok(None);
    }
    Ok(Some([x, y, z]))
}

/// The antenna's delta H, E, N in 0.1 mm (`ANTENNA: DELTA H/E/N`).
#[tactic(auto, unfolding(crate::specs::Offsets::delta_in))]
pub fn delta(line: &[u8]) -> Result<[i64; 3], Flaw>
    ensures { result ≡ delta_in line.now }
{
    let height = offset_at(line, 1)?;
    let east = offset_at(line, 15)?;
    let north = offset_at(line, 29)?;
    Ok([height, east, north])
}
