//! The line of a satellite in an epoch (RINEX 3, observation record).
ghost use Rattle.std.specs.Prelude.{◌≡◌, ◌≤◌, IfOk, IfErr, IfSome, Ok, Err, false};
ghost use Rattle.obs_store.specs.Missing.{missing_values};
ghost use Rattle.obs_store.specs.Satellites.{has_satellite};
ghost use Rattle.rinex_obs.specs.SatLines.{satellite_line_of, found_with};

use obs_fields::{KeptType, Layout, satellite, set_values};
use obs_store::{SatValues, Satellites};
use rinex_head::{Flaw, System, What, flaw};

/// The number of the satellite of the system in a line after these ones of its epoch, or nothing at one of another system.
/// Its values are set in the place of missing ones.
#[tactic(auto, unfolding(crate::specs::SatLines::satellite_line_of))]
pub fn satellite_line(
    system: System,
    line: &[u8],
    kept: &[KeptType],
    sats: &Satellites,
    values: &mut SatValues,
) -> Result<Option<u8>, Flaw>
    requires { values.old ≡ missing_values }
    ensures ok { IfOk result (λ found.
        satellite_line_of system kept.now sats.now line.now ≡ Ok (found_with found values.new)) }
    ensures err { IfErr result (λ flaw.
        satellite_line_of system kept.now sats.now line.now ≡ Err flaw) }
    ensures from_one { IfOk result (λ found. IfSome found (λ n. 1 ≤ n)) }
    ensures to_last { IfOk result (λ found. IfSome found (λ n. n ≤ 36)) }
    ensures once { IfOk result (λ found. IfSome found (λ n. has_satellite n sats.now ≡ false)) }
{
    let Some(number) = satellite(system, false, line, 1)? else {
        return Ok(None);
    };
    if sats.has(number) {
        return Err(flaw(1, What::Twice));
    }
    set_values(Layout::Rinex3, 0, line, kept, values)?;
    Ok(Some(number))
}
