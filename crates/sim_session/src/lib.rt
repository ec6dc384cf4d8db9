//! Simulated sessions: from a seed the observation files of a base and of a rover, and the navigation file of the satellites that both
//! see, with what a processor should find.
//!
//! `make` answers the three texts of a seed and the truth that they were made of (`base`, `rover`, `nav`, `truth`,
//! `offset`), exactly but for the codes and phases of the two receivers, which are a choice within 2 mm and 2 thousandths of a cycle of the exact value: the draws of
//! the seed (`draw_all`), the satellites' records, each number with the 13 digits that its columns hold, and the
//! lines of both kinds of file to the byte (`write_header`, `write_epoch`, `write_navigation`). Each code that
//! `observe` gives is within 2 mm of what is measured at it in every solution of the satellite's place and clock, by
//! the constants of its system, and of its seen place, and each phase within 2 thousandths of a cycle (`IsObserved`);
//! every number has room in its columns.
//!
//! *Draws.* `draw_all` gives exactly what `specs/Values.antt` defines of the seed. A draw is the upper 31 bits of a state, and the
//! states follow each other by a linear congruence modulo 2^64 (`specs/Sequence.antt`). The draws have one order: the
//! rover's offset, the two clock terms, each satellite's cycles on L1 and L2 at the base and at the rover, and after those
//! of all satellites the cycles on L5, which are 0 where L5 isn't used. A coordinate of the offset is at most 1 km, a clock
//! term at most 100 m, a number of cycles at most 1,000,000 in size (`draws_law`). The one error is out of memory. No clause says that
//! the draws are spread as chance would spread them.
//!
//! *Observation files*, in RINEX 3.04. `write_header` appends exactly the header for what is tracked (`header_text`), `write_epoch` exactly the lines of an
//! epoch (`epoch_text`); a header and its epochs are a file's text (`observation_text`). A header has at most 480 bytes, an
//! epoch at most 36 and 98 for each satellite (`size`). Who calls owes amounts that have room in their 14 columns, from 0 to
//! below 10^10 mm or cycles (`AreInColumns`), at most 99 satellites, and a second of one day. The one error is out of
//! memory; after it a part of the text may have been appended. That the readers read such a text as what it was made of
//! is a law of sim_jobs (`reading_law`).
//!
//! *Signals* that agree with every solution of the satellite's place and clock. `observe` gives one code for all bands and a phase on each. The code comes in six steps from 25,000 km, each within 2 mm
//! of what is measured in every solution with the code before it (`IsReachedIn`); each phase is within 2 thousandths of a
//! cycle of what is measured in every solution with that code, and the whole cycles that are asked for (`IsPhase`). What
//! is measured is the range less c times what the satellite's clock is ahead, and the receiver's clock term: it has
//! neither noise nor atmosphere. Each number has room in its columns (`columns`), and no call fails. Who calls owes a tag
//! within 7201 s of the record's time and cycles of at most 1,000,000; a `Receiver` is on the Earth, and its clock term
//! at most 100 m, by its type. No clause says which of the numbers within these bounds comes. There is a solution at each
//! step and for each phase (`exists` of `ForSolutions`, by the laws of sv_orbit and orbit_model).
//!
//! *Records.* `satellites` gives exactly the records of the first satellites of a system, at most 15 (`AreSatellites`): each value
//! equals the rational number that its definition states, with the time 2024-01-01 00:00:00, and is written with 13 digits
//! (`IsNormal`). `write_navigation` appends exactly the file of any records (`navigation_text`), which has 155 bytes and 648
//! for each record. A number is written as what it is where it is normal and its exponent has two digits, as in these
//! records; of others no clause says what their text stands for. The one error is out of memory; after it a part of the
//! text may have been appended. That the reader reads the file as its records is a law of sim_jobs.
#![tactic(auto)]

mod columns;
mod constants;
mod distances;
mod drawn;
mod draws;
mod navigation;
mod numbers;
mod observations;
mod passes;
mod receiver;
mod receivers;
mod records;
mod signals;
mod texts;

ghost use Rattle.std.specs.Prelude.{◌≡◌, ◌^◌, ◌<◌, ◌≤◌, vec_len, IfOk};
ghost use Rattle.obs_rows.specs.BandSets.{IsBandsNumber};
ghost use Rattle.obs_rows.specs.declared.band_sets.TheConstants.{BANDS_L1_L5};
ghost use Rattle.obs_rows.specs.Ranges.{IsSystem};
ghost use Rattle.obs_rows.specs.declared.limits.TheConstants.{MOST_PAIRS};
ghost use Rattle.sim_session.specs.Values.{offset_of, truth_of, first_of};
ghost use Rattle.sim_session.specs.Texts.{has_l5, tracking_of, IsBaseText, IsRoverText, IsNavigationText};

pub use constants::draws_law;
pub use drawn::{Cycles, Drawn, draw_all};
pub use navigation::write_navigation;
use obs_rows::BANDS_L1_L2;
use observations::observation_file;
use receivers::{base_receiver, rover_receiver};
pub use records::satellites;
pub use signals::{Signals, Tracking};
use std::alloc::{AllocError, Global};
use sv_orbit::world_of;
pub use texts::{write_epoch, write_header};

/// A simulated session: the texts of both observation files and of the navigation file; for each satellite what the rover's whole
/// cycles are more than the base's, on L1, L2 and L5; and what the rover lies off the base, in mm.
#[derive(Debug, Drop)]
pub struct Made {
    pub base: Vec<u8>,
    pub rover: Vec<u8>,
    pub nav: Vec<u8>,
    pub truth: Vec<[i64; 3]>,
    pub offset: [i64; 3],
}

fn has_l5(bands: u16) -> bool
    ensures { result ≡ has_l5 bands }
{
    bands != BANDS_L1_L2
}

fn tracking_of(bands: u16, system: u8) -> Tracking
    ensures { result ≡ tracking_of bands system }
{
    if system == b'E' {
        Tracking::GalileoE1E5a
    } else if has_l5(bands) {
        Tracking::GpsL1L2L5
    } else {
        Tracking::GpsL1L2
    }
}

/// Makes a session of `epochs` epochs and `sats` satellites from a seed, for a run with these bands and of the system with
/// that letter: of Galileo with the bands L1 and L5 alone, which are E1 and E5a.
pub fn make(
    alloc: Global,
    seed: u32,
    epochs: u32,
    sats: u32,
    bands: u16,
    system: u8,
) -> Result<Made, AllocError>
    requires epochs { epochs ≤ MOST_PAIRS }
    requires sats { sats ≤ 15 }
    requires bands { IsBandsNumber bands }
    requires system { IsSystem system }
    requires bands_of_galileo { system ≡ 69 → bands ≡ BANDS_L1_L5 }
    ensures base { IfOk result (λ m. IsBaseText seed epochs sats bands system m.base.items) }
    ensures rover { IfOk result (λ m. IsRoverText seed epochs sats bands system m.rover.items) }
    ensures nav { IfOk result (λ m. IsNavigationText sats system m.nav.items) }
    ensures truth { IfOk result (λ m.
        m.truth.items ≡ first_of (truth_of seed sats (has_l5 bands)) sats) }
    ensures offset { IfOk result (λ m. m.offset ≡ offset_of seed) }
    ensures base_size { IfOk result (λ m. vec_len m.base < 2 ^ 23) }
    ensures rover_size { IfOk result (λ m. vec_len m.rover < 2 ^ 23) }
    ensures nav_size { IfOk result (λ m. vec_len m.nav < 2 ^ 23) }
{
    let Drawn {
        offset,
        base_clock,
        rover_clock,
        cycles,
    } = draw_all(alloc, seed, sats, has_l5(bands))?;
    let records = satellites(alloc, system, sats)?;
    let mut nav = Vec::new(alloc);
    write_navigation(&mut nav, system, &records)?;
    let base = base_receiver(base_clock);
    let [x, y, z] = offset;
    let rover = rover_receiver(x, y, z, rover_clock);
    let tracking = tracking_of(bands, system);
    let world = world_of(system);
    let base = observation_file(
        alloc,
        epochs,
        tracking,
        &world,
        &records,
        &base,
        &cycles.base,
    )?;
    let rover = observation_file(
        alloc,
        epochs,
        tracking,
        &world,
        &records,
        &rover,
        &cycles.rover,
    )?;
    Ok(Made {
        base,
        rover,
        nav,
        truth: cycles.truth,
        offset,
    })
}
