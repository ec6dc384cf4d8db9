ghost use Rattle.std.specs.Prelude.{◌≡◌, ◌≤◌, IfOk};
ghost use Rattle.obs_rows.specs.BandSets.{IsBandsNumber};
ghost use Rattle.obs_rows.specs.declared.band_sets.TheConstants.{BANDS_L1_L5};
ghost use Rattle.obs_rows.specs.Ranges.{IsSystem};
ghost use Rattle.obs_rows.specs.declared.limits.TheConstants.{MOST_PAIRS};
ghost use Rattle.job_answers.specs.Answers.{ending_of};
ghost use Rattle.sim_jobs.specs.Sims.{IsFileOf, SimEnds};

use command_words::File;
use job_answers::{JobOutput, Status};
use sim_session::{Made, make};
use std::alloc::{AllocError, Global};

fn text_of(file: File, made: Made) -> Vec<u8>
    ensures { IsFileOf file made result.items }
{
    match file {
        File::Base => made.base,
        File::Rover => made.rover,
        File::Nav => made.nav,
    }
}

/// The file of the session that the seed makes, of 1 to 3600 epochs and 4 to 15 satellites, for a run with these bands and
/// of the system with that letter.
#[inline(never)]
pub fn sim(
    alloc: Global,
    file: File,
    seed: u32,
    epochs: u32,
    sats: u32,
    bands: u16,
    system: u8,
) -> Result<JobOutput, AllocError>
    requires epochs { epochs ≤ MOST_PAIRS }
    requires sats { sats ≤ 15 }
    requires bands { IsBandsNumber bands }
    requires system { IsSystem system }
    requires bands_of_galileo { system ≡ 69 → bands ≡ BANDS_L1_L5 }
    ensures { IfOk result (λ a. SimEnds file seed epochs sats bands system (ending_of a)) }
{
    let made = make(alloc, seed, epochs, sats, bands, system)?;
    let out = text_of(file, made);
    Ok(JobOutput {
        status: Status::Done,
        out,
        err: Vec::new(alloc),
    })
}
