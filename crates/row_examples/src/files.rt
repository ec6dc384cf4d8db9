//! Files that tests make, screened, with their arcs.
ghost use Rattle.std.specs.Prelude.{◌<◌, ◌≤◌, length, IfOk, IfSome};
ghost use Rattle.obs_rows.specs.Arcs.{AreArcs};
ghost use Rattle.obs_rows.specs.Ranges.{IsSystem};
ghost use Rattle.row_build.specs.BasePseudoranges.{AreBasePseudoranges};
ghost use Rattle.obs_rows.specs.ReceiverPoints.{IsReceiverPoint};
ghost use Rattle.slip_arcs.specs.Linked.{IsCutOf};

use eph_store::NavFile;
use epoch_pair::session_start;
use gal_nav::read_gal_nav;
use gal_obs::read_gal_obs;
use obs_rows::{Arc, Options, are_arcs, is_system};
use obs_store::ObsFile;
use rinex_nav::read_nav;
use rinex_obs::read_obs;
use round_steps::Rounds;
use row_build::KeptSights;
use session::{FileRounds, FileRun, screened};
use signal_travel::is_receiver_point;
use sim_session::{Made, make};
use std::alloc::{AllocError, Global};

/// The most bytes of a file.
pub const MOST_BYTES: usize = 67_108_864;

/// What was screened of two files, with the arcs that are kept.
#[derive(Debug, Drop)]
pub struct Files {
    pub rounds: FileRounds,
    pub ghost arcs_in: { AreArcs rounds.kept },
    pub ghost base_in: { IsReceiverPoint rounds.position },
    pub ghost system_in: { IsSystem rounds.system },
}

fn checked(rounds: FileRounds) -> Option<Files>
    requires cut { IsCutOf rounds.screened.used rounds.kept }
    requires base_pseudoranges { AreBasePseudoranges rounds.screened.boxes rounds.position
        rounds.base_pseudoranges.items }
    ensures cut { IfSome result (λ f. IsCutOf f.rounds.screened.used f.rounds.kept) }
    ensures base_pseudoranges { IfSome result (λ f. AreBasePseudoranges f.rounds.screened.boxes
        f.rounds.position f.rounds.base_pseudoranges.items) }
{
    if !are_arcs(rounds.kept.as_slice()) {
        return None;
    }
    if !is_receiver_point(&rounds.position) {
        return None;
    }
    if !is_system(rounds.system) {
        return None;
    }
    Some(Files { rounds })
}

/// What three texts say.
#[derive(Debug, Drop)]
struct Texts {
    base: ObsFile,
    rover: ObsFile,
    nav: NavFile,
}

// The number of a satellite of Galileo at the head of a line grows by 32, so that there are E33 to E36 in place of E01 to E04.
fn renumbered_at(text: &[u8], at: usize) -> u8
    requires { at < length text.now }
{
    let before = &text[..at];
    match text[at] {
        b'0' if before.ends_with(b"\nE") => b'3',
        digit if before.ends_with(b"\nE0") => digit.wrapping_add(2),
        byte => byte,
    }
}

fn renumbered(alloc: Global, text: &[u8]) -> Result<Vec<u8>, AllocError> {
    let mut out = Vec::new(alloc);
    for at in 0..text.len() {
        out.push(renumbered_at(text, at))?;
    }
    Ok(out)
}

// Lines of GPS begin with no E, so there nothing is renumbered.
fn observations(alloc: Global, system: u8, text: &[u8]) -> Option<ObsFile> {
    let text = renumbered(alloc, text).ok()?;
    if text.len() > MOST_BYTES {
        return None;
    }
    match system {
        b'E' => read_gal_obs(alloc, &text).ok(),
        _ => read_obs(alloc, &text).ok(),
    }
}

fn ephemerides(alloc: Global, system: u8, text: &[u8]) -> Option<NavFile> {
    let text = renumbered(alloc, text).ok()?;
    if text.len() > MOST_BYTES {
        return None;
    }
    match system {
        b'E' => read_gal_nav(alloc, &text).ok(),
        _ => read_nav(alloc, &text).ok(),
    }
}

fn texts_of(alloc: Global, system: u8, made: &Made) -> Option<Texts> {
    let base = observations(alloc, system, &made.base)?;
    let rover = observations(alloc, system, &made.rover)?;
    let nav = ephemerides(alloc, system, &made.nav)?;
    Some(Texts { base, rover, nav })
}

// Galileo is simulated on E1 and E5a alone.
fn simulated(alloc: Global, seed: u32, epochs: u32, sats: u32, options: &Options) -> Option<Texts>
    requires epochs { epochs ≤ 3600 }
    requires sats { sats ≤ 15 }
{
    if options.system == b'E' && options.bands != 15 {
        return None;
    }
    let made = make(alloc, seed, epochs, sats, options.bands, options.system).ok()?;
    texts_of(alloc, options.system, &made)
}

fn rounds_of(alloc: Global, texts: &Texts, options: &Options) -> Option<FileRounds>
    ensures cut { IfSome result (λ r. IsCutOf r.screened.used r.kept) }
    ensures base_pseudoranges { IfSome result (λ r.
        AreBasePseudoranges r.screened.boxes r.position r.base_pseudoranges.items) }
{
    let Ok(begun) = session_start(alloc, &texts.base, &texts.rover, options) else {
        return None;
    };
    match screened(
        alloc,
        &texts.base,
        &texts.rover,
        &texts.nav,
        &begun,
        options,
    ) {
        Ok(rounds) => Some(rounds),
        Err(_) => None,
    }
}

/// The files of a session of `epochs` epochs and `sats` satellites, which is made from a seed.
pub fn files_of(
    alloc: Global,
    seed: u32,
    epochs: u32,
    sats: u32,
    options: &Options,
) -> Option<Files>
    requires epochs { epochs ≤ 3600 }
    requires sats { sats ≤ 15 }
    ensures cut { IfSome result (λ f. IsCutOf f.rounds.screened.used f.rounds.kept) }
    ensures base_pseudoranges { IfSome result (λ f. AreBasePseudoranges f.rounds.screened.boxes
        f.rounds.position f.rounds.base_pseudoranges.items) }
{
    let texts = simulated(alloc, seed, epochs, sats, options)?;
    checked(rounds_of(alloc, &texts, options)?)
}

/// The kept arcs with the shifts of their first pairs.
pub fn with_shifts(alloc: Global, files: &Files, point: &[i64; 3]) -> Result<Vec<Arc>, AllocError>
    requires cut { IsCutOf files.now.rounds.screened.used files.now.rounds.kept }
    requires base_pseudoranges { AreBasePseudoranges files.now.rounds.screened.boxes
        files.now.rounds.position files.now.rounds.base_pseudoranges.items }
    requires point { IsReceiverPoint point.now }
    ensures { IfOk result (λ arcs. IsCutOf files.now.rounds.screened.used arcs.items) }
{
    let run = FileRun {
        files: &files.rounds,
        made: 0,
        kept: KeptSights::none(alloc),
    };
    run.first_shifts(alloc, point)
}
