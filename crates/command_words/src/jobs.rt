//! The jobs that words ask for.
ghost use Rattle.std.specs.Prelude.{◌≡◌, ◌≢◌, ◌∷◌, [], length, IfOk, IsErrOf, OnOk};
ghost use Rattle.command_words.specs.declared.jobs.Job.{Job};
ghost use Rattle.command_words.specs.Words.{name_of_command, texts_of, IsJobOf, IsJob, IsInRange};

use crate::WordFault;
use crate::choices::sim_choice_of;
use crate::command_name::CommandName;
use crate::numbers::{number_of, satellite_of};
use crate::options::{options_of, pair_options_of};
use crate::parts::{Parted, parted_of};
use crate::settings::Given;
use crate::sims::{Part, sim_of};
use crate::split::split;
use crate::word::Word;
use gps_time::Tick;
use obs_rows::Options;
use std::alloc::Global;

/// What is to be done.
#[derive(Drop)]
pub enum Job {
    /// Whether a claimed whole number is strictly best for differences.
    Zero {
        rows: Word,
    },
    /// What an observation file holds.
    List {
        obs: Word,
    },
    /// Where a satellite is at a time, by a navigation file. Its system has a letter.
    Orbit {
        nav: Word,
        system: u8,
        sat: u8,
        tick: Tick,
    },
    /// Whether a certificate says what its rows say.
    Check {
        cert: Word,
    },
    /// What is left of the observations of a certificate.
    Residuals {
        cert: Word,
    },
    /// A certificate of version 1 in today's form.
    Migrate {
        cert: Word,
    },
    /// The baseline of a session, with the certificate of its integers.
    Fix {
        base: Word,
        rover: Word,
        nav: Word,
        options: Options,
    },
    /// The arcs of a session.
    Arcs {
        base: Word,
        rover: Word,
        nav: Word,
        options: Options,
    },
    /// The baselines of a moving rover, one for each pair, with the certificate of their integers.
    Track {
        base: Word,
        rover: Word,
        nav: Word,
        options: Options,
    },
    /// Whether the certificate of a track says what its rows say.
    CheckTrack {
        cert: Word,
    },
    /// A part of a simulated session, on these bands of the system of that letter.
    Sim {
        part: Part,
        seed: u32,
        epochs: u32,
        sats: u32,
        bands: u16,
        system: u8,
    },
}

/// The job that the words after the program's name ask for. `Usage` exactly where they ask for none.
pub fn read_words(alloc: Global, words: &[String]) -> Result<Job, WordFault>
    ensures job { IfOk result (λ job. IsJob (texts_of words.now) job) }
    ensures range { IfOk result IsInRange }
    ensures usage { IsErrOf result WordFault.Usage → (job : Job) → IsJob (texts_of words.now) job →
        ⊥ }
{
    let line = split(alloc, words)?;
    let parted = parted_of(alloc, &line.matches)?;
    job_of(alloc, line.command, &parted)
}

// The job of the command of that name with these words.
fn job_of(alloc: Global, name: &str, parted: &Parted) -> Result<Job, WordFault>
    ensures job { IfOk result (λ job.
        IsJobOf name.now parted.now.plain.items parted.now.given.items job) }
    ensures usage { IsErrOf result WordFault.Usage → (job : Job) →
        IsJobOf name.now parted.now.plain.items parted.now.given.items job → ⊥ }
{
    match CommandName::named(name) {
        Some(command) => job_of_command(alloc, command, &parted.plain, &parted.given),
        None => Err(WordFault::Usage),
    }
}

// The job of a command with these words.
fn job_of_command(
    alloc: Global,
    command: CommandName,
    plain: &[Word],
    given: &[Given],
) -> Result<Job, WordFault>
    ensures job { IfOk result (λ job. IsJobOf (name_of_command command) plain.now given.now job) }
    ensures usage { IsErrOf result WordFault.Usage → (job : Job) →
        IsJobOf (name_of_command command) plain.now given.now job → ⊥ }
{
    match command {
        CommandName::Fix => fix_job(alloc, plain, given),
        CommandName::Arcs => arcs_job(alloc, plain, given),
        CommandName::Track => track_job(alloc, plain, given),
        CommandName::Orbit => orbit_job(alloc, plain, given),
        CommandName::Sim => sim_job(plain, given),
        CommandName::Zero => Ok(Job::Zero {
            rows: one_file(alloc, plain, given)?,
        }),
        CommandName::List => Ok(Job::List {
            obs: one_file(alloc, plain, given)?,
        }),
        CommandName::Check => Ok(Job::Check {
            cert: one_file(alloc, plain, given)?,
        }),
        CommandName::Residuals => Ok(Job::Residuals {
            cert: one_file(alloc, plain, given)?,
        }),
        CommandName::Migrate => Ok(Job::Migrate {
            cert: one_file(alloc, plain, given)?,
        }),
        CommandName::CheckTrack => Ok(Job::CheckTrack {
            cert: one_file(alloc, plain, given)?,
        }),
    }
}

// The file of a command that has one file and no option.
fn one_file(alloc: Global, plain: &[Word], given: &[Given]) -> Result<Word, WordFault>
    ensures file { IfOk result (λ file. plain.now ≡ file ∷ []) }
    ensures no_option { OnOk result (given.now ≡ []) }
    ensures usage { IsErrOf result WordFault.Usage → length plain.now ≡ 1 → given.now ≡ [] → ⊥ }
{
    let [file] = plain else {
        return Err(WordFault::Usage);
    };
    if !given.is_empty() {
        return Err(WordFault::Usage);
    }
    let file = Word::copy_of(alloc, file.as_str())?;
    Ok(file)
}

// The files of a session.
#[derive(Drop)]
struct ThreeFiles {
    base: Word,
    rover: Word,
    nav: Word,
}

// The files of a command that has three.
fn three_files(alloc: Global, plain: &[Word]) -> Result<ThreeFiles, WordFault>
    ensures files { IfOk result (λ files. plain.now ≡ files.base ∷ files.rover ∷ files.nav ∷ []) }
    ensures usage { IsErrOf result WordFault.Usage → length plain.now ≢ 3 }
{
    let [base, rover, nav] = plain else {
        return Err(WordFault::Usage);
    };
    let base = Word::copy_of(alloc, base.as_str())?;
    let rover = Word::copy_of(alloc, rover.as_str())?;
    let nav = Word::copy_of(alloc, nav.as_str())?;
    Ok(ThreeFiles { base, rover, nav })
}

// The job of the command `fix`.
fn fix_job(alloc: Global, plain: &[Word], given: &[Given]) -> Result<Job, WordFault>
    ensures job { IfOk result (λ job.
        IsJobOf (name_of_command CommandName.Fix) plain.now given.now job) }
    ensures usage { IsErrOf result WordFault.Usage → (job : Job) →
        IsJobOf (name_of_command CommandName.Fix) plain.now given.now job → ⊥ }
{
    let Some(options) = options_of(given) else {
        return Err(WordFault::Usage);
    };
    let ThreeFiles { base, rover, nav } = three_files(alloc, plain)?;
    Ok(Job::Fix {
        base,
        rover,
        nav,
        options,
    })
}

// The job of the command `track`.
fn track_job(alloc: Global, plain: &[Word], given: &[Given]) -> Result<Job, WordFault>
    ensures job { IfOk result (λ job.
        IsJobOf (name_of_command CommandName.Track) plain.now given.now job) }
    ensures usage { IsErrOf result WordFault.Usage → (job : Job) →
        IsJobOf (name_of_command CommandName.Track) plain.now given.now job → ⊥ }
{
    let Some(options) = options_of(given) else {
        return Err(WordFault::Usage);
    };
    let ThreeFiles { base, rover, nav } = three_files(alloc, plain)?;
    Ok(Job::Track {
        base,
        rover,
        nav,
        options,
    })
}

// The job of the command `arcs`.
fn arcs_job(alloc: Global, plain: &[Word], given: &[Given]) -> Result<Job, WordFault>
    ensures job { IfOk result (λ job.
        IsJobOf (name_of_command CommandName.Arcs) plain.now given.now job) }
    ensures usage { IsErrOf result WordFault.Usage → (job : Job) →
        IsJobOf (name_of_command CommandName.Arcs) plain.now given.now job → ⊥ }
{
    let Some(options) = pair_options_of(given) else {
        return Err(WordFault::Usage);
    };
    let ThreeFiles { base, rover, nav } = three_files(alloc, plain)?;
    Ok(Job::Arcs {
        base,
        rover,
        nav,
        options,
    })
}

// The job of the command `orbit`.
fn orbit_job(alloc: Global, plain: &[Word], given: &[Given]) -> Result<Job, WordFault>
    ensures job { IfOk result (λ job.
        IsJobOf (name_of_command CommandName.Orbit) plain.now given.now job) }
    ensures usage { IsErrOf result WordFault.Usage → (job : Job) →
        IsJobOf (name_of_command CommandName.Orbit) plain.now given.now job → ⊥ }
{
    let [nav, sat, tick] = plain else {
        return Err(WordFault::Usage);
    };
    if !given.is_empty() {
        return Err(WordFault::Usage);
    }
    let Some(satellite) = satellite_of(sat.as_bytes()) else {
        return Err(WordFault::Usage);
    };
    let Some(ticks) = number_of(tick.as_bytes()) else {
        return Err(WordFault::Usage);
    };
    let nav = Word::copy_of(alloc, nav.as_str())?;
    Ok(Job::Orbit {
        nav,
        system: satellite.system,
        sat: satellite.number,
        tick: Tick(ticks),
    })
}

// The job of the command `sim`.
fn sim_job(plain: &[Word], given: &[Given]) -> Result<Job, WordFault>
    ensures job { IfOk result (λ job.
        IsJobOf (name_of_command CommandName.Sim) plain.now given.now job) }
    ensures usage { IsErrOf result WordFault.Usage → (job : Job) →
        IsJobOf (name_of_command CommandName.Sim) plain.now given.now job → ⊥ }
{
    match plain {
        [part, seed, epochs, sats] => sim_by_words(part, seed, epochs, sats, given),
        _ => Err(WordFault::Usage),
    }
}

// The job `sim` of its part, seed, epochs and satellites.
fn sim_by_words(
    part: &Word,
    seed: &Word,
    epochs: &Word,
    sats: &Word,
    given: &[Given],
) -> Result<Job, WordFault>
    ensures job { IfOk result (λ job. IsJobOf (name_of_command CommandName.Sim)
        (part.now ∷ seed.now ∷ epochs.now ∷ sats.now ∷ []) given.now job) }
    ensures usage { IsErrOf result WordFault.Usage → (job : Job) →
        IsJobOf (name_of_command CommandName.Sim)
        (part.now ∷ seed.now ∷ epochs.now ∷ sats.now ∷ []) given.now job → ⊥ }
{
    let Some(choice) = sim_choice_of(given) else {
        return Err(WordFault::Usage);
    };
    match sim_of(part, seed, epochs, sats, choice) {
        Some(sim) => Ok(Job::Sim {
            part: sim.part,
            seed: sim.seed,
            epochs: sim.epochs,
            sats: sim.sats,
            bands: sim.bands,
            system: sim.system,
        }),
        None => Err(WordFault::Usage),
    }
}
