//! The body: blank lines and records.
ghost use Rattle.std.specs.Prelude.{◌≡◌, ◌<◌, ◌≤◌, List, [], ◌∷◌, ◌++◌, length, false};
ghost use Rattle.eph_store.specs.declared.record.Raw.{Raw};
ghost use Rattle.rinex_head.specs.declared.system.System.{System};
ghost use Rattle.rinex_head.specs.LineRules.{rest_gives, ReadsFree, Gives};
ghost use Rattle.rinex_nav.specs.declared.record_lines.Start.{Start};
ghost use Rattle.rinex_nav.specs.declared.record_lines.Quad.{Quad};
ghost use Rattle.rinex_nav.specs.NavRules.{Body, Further, behind, nav_rules};

use crate::record_lines::{BodyLine, Quad, Start, body_line, continuation};
use eph_store::{NavFile, Raw};
use line_source::Lines;
use rinex_head::{At, System, TextFault, What, line_or_end, next_line};
use std::alloc::Global;

// The further line of a record at that place, counted from 0.
fn read_quad(lines: &mut Lines<'_>, place: u8) -> Result<Quad, At>
    requires { place < 7 }
    ensures reads { (system : System) (raws : List Raw) (s : Start) (quads : List Quad) →
        length quads ≡ place → ReadsFree (nav_rules system) lines.old lines.new
        (Further raws s quads) (λ q. behind raws s (quads ++ q ∷ [])) result }
    ensures less { length lines.new.left ≤ length lines.old.left }
{
    let line = next_line(lines, What::Truncated)?;
    match continuation(line.bytes, place) {
        Ok(quad) => Ok(quad),
        Err(flaw) => Err(flaw.at(line.number)),
    }
}

// The seven further lines of a record.
fn read_record(lines: &mut Lines<'_>, start: Start) -> Result<Raw, At>
    ensures reads { (system : System) (raws : List Raw) → ReadsFree (nav_rules system) lines.old
        lines.new (Further raws start []) (λ raw. Body (raws ++ raw ∷ []) false) result }
    ensures less { length lines.new.left ≤ length lines.old.left }
{
    let second = read_quad(lines, 0)?;
    let third = read_quad(lines, 1)?;
    let fourth = read_quad(lines, 2)?;
    let fifth = read_quad(lines, 3)?;
    let sixth = read_quad(lines, 4)?;
    let seventh = read_quad(lines, 5)?;
    let _unread = read_quad(lines, 6)?;
    Ok(Raw {
        sat: start.sat,
        toc: start.toc,
        af0: start.af0,
        af1: start.af1,
        af2: start.af2,
        crs: second.second,
        dn: second.third,
        m0: second.fourth,
        cuc: third.first,
        ecc: third.second,
        cus: third.third,
        root_a: third.fourth,
        toe_s: fourth.first,
        cic: fourth.second,
        node: fourth.third,
        cis: fourth.fourth,
        incl: fifth.first,
        crc: fifth.second,
        peri: fifth.third,
        node_rate: fifth.fourth,
        incl_rate: sixth.first,
        week: sixth.third,
        health: seventh.second,
    })
}

/// The records of a body, up to the end of the text.
pub fn read_records(
    alloc: Global,
    system: System,
    lines: &mut Lines<'_>,
) -> Result<NavFile, TextFault>
    ensures { Gives (rest_gives (nav_rules system) lines.old (Body [] false)) (λ file.
        file.all) result }
{
    let mut file = NavFile::new(alloc);
    let mut skipping = false;
    'records: loop {
        let line = match line_or_end(lines) {
            Ok(Some(line)) => line,
            Ok(None) => return Ok(file),
            Err(at) => return Err(TextFault::Refused(at)),
        };
        match body_line(system, line.bytes, skipping, file.all().len()) {
            Ok(BodyLine::Passed) => {}
            Ok(BodyLine::Other) => skipping = true,
            Ok(BodyLine::Record(start)) => {
                skipping = false;
                let raw = match read_record(lines, start) {
                    Ok(raw) => raw,
                    Err(at) => return Err(TextFault::Refused(at)),
                };
                match file.push(raw) {
                    Ok(()) => {}
                    Err(_) => return Err(TextFault::NoMemory),
                }
            }
            Err(flaw) => return Err(TextFault::Refused(flaw.at(line.number))),
        }
    }
}
