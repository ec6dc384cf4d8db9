//! A simulated session from its texts to its answer.
ghost use Rattle.std.specs.Prelude.{◌≡◌, ◌≢◌, ◌≤◌, ℕ, List, [], Some, IfOk, codes, string_bytes};
ghost use Rattle.job_answers.specs.Answers.{ending_of, IfEnded};
ghost use Rattle.job_answers.specs.Endings.{ending};
ghost use Rattle.obs_rows.specs.declared.band_sets.TheConstants.{BANDS_L1_L5};
ghost use Rattle.obs_rows.specs.BandSets.{IsBandsNumber};
ghost use Rattle.obs_rows.specs.Ranges.{IsSystem};
ghost use Rattle.obs_rows.specs.declared.limits.TheConstants.{MOST_PAIRS};
ghost use Rattle.session_jobs.specs.FixJobs.{status_of};
ghost use Rattle.sim_jobs.specs.SimRunJobs.{AreOptionsOn, truth_in, run_text, SimRunEnd, SimRunEnds};

use crate::matches::is_matched;
use crate::report::run_text;
use cert_data::Answer;
use job_answers::{
    JobOutput, JobStop, SessionFiles, Status, read_session, refused_pair, verdict_status,
};
use line_source::{Files, Named, SureFiles};
use obs_rows::Options;
use report_text::is_fixed;
use rinex_head::System;
use session::{SessionFault, process};
use sim_session::{Made, make};
use std::alloc::{AllocError, Global};

// What is asked of a simulated session, and the cycles of each satellite with which it was made, by bands.
#[derive(Drop)]
struct Asked {
    seed: u32,
    epochs: u32,
    sats: u32,
    bands: u16,
    truth: Vec<[i64; 3]>,
}

// The defaults, but for the bands and the system.
fn options_on(bands: u16, system: u8) -> Options
    requires bands { IsBandsNumber bands }
    requires system { IsSystem system }
    ensures are { AreOptionsOn bands system result }
{
    let mut options = Options::defaults();
    options.bands = bands;
    options.system = system;
    options
}

fn named(alloc: Global, name: &str, bytes: Vec<u8>) -> Result<Named, AllocError>
    ensures name { IfOk result (λ f. string_bytes f.name ≡ name.now) }
    ensures bytes { IfOk result (λ f. f.bytes.items ≡ bytes.items) }
{
    Ok(Named {
        name: String::from_str(alloc, name)?,
        bytes,
        at: 0,
    })
}

// The three texts as files in memory, under the names of their parts.
fn files_of(
    alloc: Global,
    base: Vec<u8>,
    rover: Vec<u8>,
    nav: Vec<u8>,
) -> Result<SureFiles, AllocError>
    ensures base { IfOk result (λ f.
        ⟦<SureFiles as Files>⟧.text_of f (codes "base") ≡ Some base.items) }
    ensures rover { IfOk result (λ f.
        ⟦<SureFiles as Files>⟧.text_of f (codes "rover") ≡ Some rover.items) }
    ensures nav { IfOk result (λ f.
        ⟦<SureFiles as Files>⟧.text_of f (codes "nav") ≡ Some nav.items) }
    ensures sure { IfOk result (λ f. (name : List ℕ) → ⟦<SureFiles as Files>⟧.is_sure_name f name) }
{
    let list = vec![in alloc;
        named(alloc, "base", base)?,
        named(alloc, "rover", rover)?,
        named(alloc, "nav", nav)?,
    ]?;
    Ok(SureFiles::new(list))
}

// The four lines of an answer.
fn answer_match(
    alloc: Global,
    asked: &Asked,
    answer: &Answer,
    matched: bool,
) -> Result<JobOutput, AllocError>
    ensures { IfOk result (λ a. ending_of a ≡ ending (status_of answer.now)
        (run_text asked.now.seed asked.now.epochs asked.now.sats answer.now matched) []) }
{
    let out = run_text(alloc, asked.seed, asked.epochs, asked.sats, answer, matched)?;
    Ok(JobOutput {
        status: verdict_status(is_fixed(answer)),
        out,
        err: Vec::new(alloc),
    })
}

// What the three files end with.
fn answer_files(
    alloc: Global,
    asked: &Asked,
    files: &SessionFiles,
    options: &Options,
) -> Result<JobOutput, JobStop>
    requires { asked.now.truth.items ≡ truth_in asked.now.seed asked.now.sats asked.now.bands }
    ensures { IfEnded result (λ end. SimRunEnd options.now asked.now.seed asked.now.epochs
        asked.now.sats asked.now.bands files.now.base files.now.rover files.now.nav end) }
{
    match process(alloc, &files.base, &files.rover, &files.nav, options) {
        Ok(outcome) => {
            let matched = is_matched(&asked.truth, &outcome.answer);
            Ok(answer_match(alloc, asked, &outcome.answer, matched)?)
        }
        Err(SessionFault::Refused(what)) => Ok(refused_pair(alloc, what)?),
        Err(SessionFault::NoMemory) => Err(JobStop::NoMemory),
    }
}

/// What the session of this seed is found to say, of 1 to 3600 epochs and 4 to 15 satellites, with these bands of the system
/// with that letter: of Galileo with the bands L1 and L5 alone.
#[inline(never)]
pub fn sim_run(
    alloc: Global,
    seed: u32,
    epochs: u32,
    sats: u32,
    bands: u16,
    system: u8,
) -> Result<JobOutput, JobStop>
    requires epochs { epochs ≤ MOST_PAIRS }
    requires sats { sats ≤ 15 }
    requires bands { IsBandsNumber bands }
    requires system { IsSystem system }
    requires bands_of_galileo { system ≡ 69 → bands ≡ BANDS_L1_L5 }
    ensures ends { IfEnded result (λ end. SimRunEnds seed epochs sats bands system end) }
    ensures no_fault { IfEnded result (λ end. end.status ≢ Status.ReadFault) }
{
    let Made {
        base,
        rover,
        nav,
        truth,
        offset: _,
    } = make(alloc, seed, epochs, sats, bands, system)?;
    let asked = Asked {
        seed,
        epochs,
        sats,
        bands,
        truth,
    };
    let options = options_on(bands, system);
    let mut files = files_of(alloc, base, rover, nav)?;
    let system = System::of_letter(options.system);
    let read = read_session(alloc, &mut files, system, "base", "rover", "nav")?;
    answer_files(alloc, &asked, &read, &options)
}
