//! How far two phases of a satellite jump against each other from one pair to the next.
ghost use Rattle.std.specs.Prelude.{◌≡◌, ◌*◌, ◌<◌, ◌≤◌, ◌^◌, All, unsigned_abs};
ghost use Rattle.obs_rows.specs.declared.units.TheConstants.{PHASES};
ghost use Rattle.obs_rows.specs.UsedSats.{IsSmall};
ghost use Rattle.slip_arcs.specs.declared.phase.TheConstants.{LONGEST};
ghost use Rattle.slip_arcs.specs.Used.{change, growth, jump_of, does_jump};

use obs_rows::{L5_PHASE, UsedSat, WAVELENGTHS, phase_of};

/// One κ, 23 ι, in thousandths of ι: a cycle on L1 is 60 κ and one on L2 77.
const KAPPA: u64 = 23_000;

/// The longest wavelength, that on L5, in ι.
const LONGEST: u64 = WAVELENGTHS[L5_PHASE] as u64;

// By how much the phase on a band grows.
fn change_on(before: &UsedSat, now: &UsedSat, band: usize) -> i64
    requires before { IsSmall before.now }
    requires now { IsSmall now.now }
    requires band { band < PHASES }
    ensures value { result ≡ change band before.now now.now }
    ensures small { unsigned_abs result < 2 ^ 51 }
{
    now.phase[band] - before.phase[band]
}

// The growth as a length, in thousandths of ι.
fn growth_on(before: &UsedSat, now: &UsedSat, band: usize) -> i64
    requires before { IsSmall before.now }
    requires now { IsSmall now.now }
    requires band { band < PHASES }
    ensures value { result ≡ growth band before.now now.now }
    ensures small { unsigned_abs result ≤ LONGEST * 2 ^ 51 }
{
    WAVELENGTHS[phase_of(band)] * change_on(before, now, band)
}

// A change of the range moves both phases by the same length, so the wavelengths times the two changes agree but
// for noise, the ionosphere and slips.
fn size_of_jump(before: &UsedSat, now: &UsedSat, first: usize, second: usize) -> u64
    requires before { IsSmall before.now }
    requires now { IsSmall now.now }
    requires first { first < PHASES }
    requires second { second < PHASES }
    ensures { result ≡ jump_of first second before.now now.now }
{
    (growth_on(before, now, first) - growth_on(before, now, second)).unsigned_abs()
}

/// Whether the phase on one of these bands jumps against that on L1 by more than `jump` κ.
pub fn does_jump(before: &UsedSat, now: &UsedSat, bands: &[usize], jump: u32) -> bool
    requires before { IsSmall before.now }
    requires now { IsSmall now.now }
    requires bands { All (λ b. b < PHASES) bands.now }
    ensures { result ≡ does_jump jump bands.now before.now now.now }
{
    let most = KAPPA * u64::from(jump);
    bands
        .iter()
        .any(|b| size_of_jump(before, now, 0, *b) > most)
}
