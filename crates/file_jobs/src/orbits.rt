//! The command `orbit`: where a satellite of a navigation file is at a time, and what its clock is ahead.
ghost use Rattle.std.specs.Prelude.{◌≡◌, ◌≤◌, [], IfOk};
ghost use Rattle.eph_store.specs.Chosen.{distance};
ghost use Rattle.report_text.specs.Orbit.{no_record_line};
ghost use Rattle.job_answers.specs.Statuses.{IsVerdictStatus};
ghost use Rattle.job_answers.specs.Answers.{ending_of};
ghost use Rattle.job_answers.specs.Endings.{ending};
ghost use Rattle.file_jobs.specs.Orbits.{IsPlacedBy, IsFound, orbit_job};

use eph_store::{Eph, NavFile};
use gps_time::Tick;
use job_answers::{JobOutput, Status, TextCommand};
use report_text::write_orbit;
use rinex_head::{System, TextFault};
use rinex_nav::read_records_of;
use std::alloc::{AllocError, Global};
use sv_orbit::{sv_with, world_of};

// What the record's satellite ends with.
fn answer_placed(alloc: Global, system: u8, eph: &Eph, tag: Tick) -> Result<JobOutput, AllocError>
    requires { distance tag.0 eph.now ≤ 72_000_000_000 }
    ensures answer { IfOk result (λ a. IsPlacedBy system eph.now tag.0 (ending_of a)) }
    ensures verdict { IfOk result (λ a. IsVerdictStatus a.status) }
{
    let held = sv_with(eph, tag, 0, &world_of(system));
    let mut out = Vec::new(alloc);
    write_orbit(alloc, &mut out, Some(&held))?;
    Ok(JobOutput {
        status: Status::Done,
        out,
        err: Vec::new(alloc),
    })
}

fn answer_none(alloc: Global) -> Result<JobOutput, AllocError>
    ensures answer { IfOk result (λ a. ending_of a ≡ ending Status.Declined no_record_line []) }
    ensures verdict { IfOk result (λ a. IsVerdictStatus a.status) }
{
    let mut out = Vec::new(alloc);
    write_orbit(alloc, &mut out, None)?;
    Ok(JobOutput {
        status: Status::Declined,
        out,
        err: Vec::new(alloc),
    })
}

// What a navigation file is answered.
fn answer_records(
    alloc: Global,
    file: &NavFile,
    system: u8,
    sat: u8,
    tag: Tick,
) -> Result<JobOutput, AllocError>
    ensures answer { IfOk result (λ a. IsFound file.now.fit system sat tag.0 (ending_of a)) }
    ensures verdict { IfOk result (λ a. IsVerdictStatus a.status) }
{
    match file.choose(sat, tag) {
        Some(eph) => answer_placed(alloc, system, eph, tag),
        None => answer_none(alloc),
    }
}

/// Where the satellite of the system with that letter and that number is at the tag by its own clock, by the record that is
/// chosen at that time.
#[derive(Clone, Copy, Debug)]
pub struct Orbit {
    pub system: u8,
    pub sat: u8,
    pub tag: Tick,
}

impl TextCommand for Orbit {
    ghost job = { λ o. orbit_job o.system o.sat o.tag.0 };

    fn answer_text(&self, alloc: Global, text: &[u8]) -> Result<JobOutput, TextFault> {
        let file = read_records_of(alloc, System::of_letter(self.system), text)?;
        Ok(answer_records(alloc, &file, self.system, self.sat, self.tag)?)
    }
}
